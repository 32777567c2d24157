// The word of each instruction. `encode` refuses `Illegal` and an instruction with a field that its
// format cannot hold.
#![tactic(auto, unfolding(isa::specs::Encode::encode_of))]

ghost use Rattle.std.specs.Prelude.{◌≡◌, ◌<◌, ◌≤◌, ◌+◌, ◌*◌, ltb};
ghost use Rattle.isa.specs.Encode.{when_fits, encode_of, register_word};
ghost use Rattle.isa.specs.Encode.{three_word, indexed_word, relative_word};

use isa::Instr;
use word::{magnitude, offset_bits};

// BL: an offset of 13 bits.
fn encode_bl(off: i16) -> Option<u16>
    ensures { result ≡ encode_of (Instr.Bl off) }
{
    if magnitude(off) < 4096 {
        Some(offset_bits(4096, off))
    } else {
        None
    }
}

// The branches with a condition and BRA: an offset of 10 bits.
fn encode_branch(cond: u8, off: i16) -> Option<u16>
    ensures { result ≡ encode_of (Instr.Branch cond off) }
{
    if cond < 8 && magnitude(off) < 512 {
        Some(0x2000 + cond as u16 * 1024 + offset_bits(512, off))
    } else {
        None
    }
}

// Three fields, x below high, y below middle and z below 8: MOV, SWAP, SRA to COMP, CEX, and the
// last three of ADD to BIS, LD, ST, LDR, STR. base is the word with these fields zero.
fn encode_three(base: u16, high: u8, middle: u8, x: u8, y: u8, z: u8) -> Option<u16>
    requires high_bound { base + high * 64 ≤ 65536 }
    requires middle_bound { middle ≤ 8 }
    ensures { result ≡ three_word base high middle x y z }
{
    if x < high && y < middle && z < 8 {
        Some(base + x as u16 * 64 + y as u16 * 8 + z as u16)
    } else {
        None
    }
}

// ADD to BIS.
fn encode_alu(op: u8, rc: u8, wb: u8, src: u8, dst: u8) -> Option<u16>
    ensures { result ≡ encode_of (Instr.Alu op rc wb src dst) }
{
    if 12 <= op || 2 <= rc {
        return None;
    }
    let base = 0x4000 + op as u16 * 256 + rc as u16 * 128;
    encode_three(base, 2, 8, wb, src, dst)
}

// SWPB and SXT; base is the word with all fields zero.
fn encode_register(base: u16, dst: u8, ignored: u8) -> Option<u16>
    requires { base < 0x8000 }
    ensures { result ≡ register_word base dst ignored }
{
    (dst < 8 && ignored < 2).then_some(base + ignored as u16 * 64 + dst as u16)
}

// A format with one field, below limit: SETPRI, SVC, SETCC, CLRCC. base is the word with it zero.
fn encode_one(base: u16, limit: u8, x: u8) -> Option<u16>
    requires { base < 0x8000 }
    ensures { result ≡ when_fits (ltb x limit) (base + x) }
{
    (x < limit).then_some(base + x as u16)
}

// LD and ST; base is the word with all fields zero.
fn encode_indexed(base: u16, prpo: u8, dec: u8, inc: u8, wb: u8, src: u8, dst: u8) -> Option<u16>
    requires { base < 0x8000 }
    ensures { result ≡ indexed_word base prpo dec inc wb src dst }
{
    if 2 <= prpo || 2 <= dec || 2 <= inc {
        return None;
    }
    let first = base + prpo as u16 * 512 + dec as u16 * 256 + inc as u16 * 128;
    encode_three(first, 2, 8, wb, src, dst)
}

// MOVL, MOVLZ, MOVLS, MOVH.
fn encode_mov_imm(op: u8, byte: u8, dst: u8) -> Option<u16>
    ensures { result ≡ encode_of (Instr.MovImm op byte dst) }
{
    if op < 4 && dst < 8 {
        Some(0x6000 + op as u16 * 2048 + byte as u16 * 8 + dst as u16)
    } else {
        None
    }
}

// LDR and STR, an offset of 7 bits; base is the word with all fields zero.
fn encode_relative(base: u16, off: i16, wb: u8, src: u8, dst: u8) -> Option<u16>
    requires { base ≤ 0xC000 }
    ensures { result ≡ relative_word base off wb src dst }
{
    if 64 <= magnitude(off) {
        return None;
    }
    encode_three(base + offset_bits(64, off) * 128, 2, 8, wb, src, dst)
}

// The word of an instruction, or none where it is refused.
pub fn encode(i: Instr) -> Option<u16>
    ensures { result ≡ encode_of i }
{
    match i {
        Instr::Illegal => None,
        Instr::Bl { off } => encode_bl(off),
        Instr::Branch { cond, off } => encode_branch(cond, off),
        Instr::Alu {
            op,
            rc,
            wb,
            src,
            dst,
        } => encode_alu(op, rc, wb, src, dst),
        Instr::Mov { wb, src, dst } => encode_three(0x4C00, 2, 8, wb, src, dst),
        Instr::Swap { src, dst, ignored } => encode_three(0x4C80, 2, 8, ignored, src, dst),
        Instr::Unary { op, wb, dst } => encode_three(0x4D00, 2, 3, wb, op, dst),
        Instr::Swpb { dst, ignored } => encode_register(0x4D18, dst, ignored),
        Instr::Sxt { dst, ignored } => encode_register(0x4D20, dst, ignored),
        Instr::SetPri { level } => encode_one(0x4D80, 8, level),
        Instr::Svc { vector } => encode_one(0x4DA0, 16, vector),
        Instr::SetCc { flags } => encode_one(0x4DC0, 32, flags),
        Instr::ClrCc { flags } => encode_one(0x4DE0, 32, flags),
        Instr::Cex {
            cond,
            true_count,
            false_count,
        } => encode_three(0x5000, 16, 8, cond, true_count, false_count),
        Instr::Ld {
            prpo,
            dec,
            inc,
            wb,
            src,
            dst,
        } => encode_indexed(0x5800, prpo, dec, inc, wb, src, dst),
        Instr::St {
            prpo,
            dec,
            inc,
            wb,
            src,
            dst,
        } => encode_indexed(0x5C00, prpo, dec, inc, wb, src, dst),
        Instr::MovImm { op, byte, dst } => encode_mov_imm(op, byte, dst),
        Instr::Ldr { off, wb, src, dst } => encode_relative(0x8000, off, wb, src, dst),
        Instr::Str { off, wb, src, dst } => encode_relative(0xC000, off, wb, src, dst),
    }
}
