// The arithmetic for tests and measurements: numbers in, one number out.
#![tactic(auto)]

ghost use Rattle.std.specs.Prelude.{◌≡◌};
ghost use Rattle.alu_probe.specs.Probe.{op_of, reply_of};

use alu::Op;

// The operation with a number, 0 to 16.
fn op_of(n: u8) -> Op
    ensures { result ≡ op_of n }
{
    match n {
        0 => Op::Add,
        1 => Op::Addc,
        2 => Op::Sub,
        3 => Op::Subc,
        4 => Op::Cmp,
        5 => Op::Dadd,
        6 => Op::And,
        7 => Op::Or,
        8 => Op::Xor,
        9 => Op::Bit,
        10 => Op::Bic,
        11 => Op::Bis,
        12 => Op::Sra,
        13 => Op::Rrc,
        14 => Op::Comp,
        15 => Op::Swpb,
        _ => Op::Sxt,
    }
}

// The outcome of operation op, at word width for byte 0 and at byte width for 1: the destination in
// bits 31 to 16, the PSW in bits 47 to 32. 1 alone if there is no such operation or width.
#[unsafe(no_mangle)]
pub extern "C" fn probe_alu(op: u8, byte: u8, dst: u16, src: u16, psw: u16) -> u64
    ensures { result ≡ reply_of op byte dst src psw }
{
    if 17 <= op {
        return 1;
    }
    if 2 <= byte {
        return 1;
    }
    let o = alu_work::alu(op_of(op), byte == 1, dst, src, psw);
    o.value as u64 * 0x10000 + o.psw as u64 * 0x100000000
}
