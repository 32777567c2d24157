// Operations of a fast stretch of instructions: each leaves its flags as what they come from (crate
// flags). `byte` chooses the width: 8 bits, else 16.
#![tactic(auto)]

ghost use Rattle.std.specs.Prelude.{◌≡◌, ℕ, ◌-◌, ◌*◌, ◌^◌, ◌<◌, ◌≤◌};
ghost use Rattle.word.specs.Width.{width_of};
ghost use Rattle.alu.specs.Alu.{alu_of, logical, summed, shifted};
ghost use Rattle.flags.specs.Kept.{held_in};

use alu::Op;
use flags::{Kept, marks};

// A number of the width, or a sum of two, as it stands in what is kept.
fn placed(byte: bool, x: u32) -> u32
    requires { x < 131072 }
    ensures { result ≡ x * 2 ^ (16 - width_of byte) }
{
    if byte { x * 256 } else { x }
}

// dst + b + carry, b being of the width, written to the destination, with all four flags.
fn add(byte: bool, dst: u16, b: u16, carry: u32, kept: &mut Kept) -> u16
    requires { (b < 2 ^ width_of byte) × (carry ≤ 1) }
    ensures value { (p : ℕ) → result ≡ (summed (width_of byte) dst b carry p).value }
    ensures psw { (p : ℕ) → held_in p kept.new
        ≡ (summed (width_of byte) dst b carry
        (held_in p kept.old)).psw }
{
    let a = word::low_bits(byte, dst) as u32;
    let t = a + b as u32 + carry;
    let k = placed(byte, t);
    kept.last = k;
    kept.sum = k;
    kept.over = placed(byte, (a ^ t) & (b as u32 ^ t));
    word::with_low(byte, dst, word::low_bits(byte, (t % 65536) as u16))
}

// A logical result v of the width written to the destination, with Z and N.
fn logic(byte: bool, dst: u16, v: u16, kept: &mut Kept) -> u16
    requires { v < 2 ^ width_of byte }
    ensures value { (p : ℕ) → result ≡ (logical (width_of byte) dst p v).value }
    ensures psw { (p : ℕ) → held_in p kept.new
        ≡ (logical (width_of byte) dst (held_in p kept.old) v).psw }
    ensures rest { (kept.new.sum ≡ kept.old.sum) × (kept.new.over ≡ kept.old.over) }
{
    kept.last = placed(byte, v as u32);
    word::with_low(byte, dst, v)
}

// The low bits moved down by one below the given top bit, with C, Z and N.
fn shift(byte: bool, dst: u16, high: u16, kept: &mut Kept) -> u16
    requires { high ≤ 1 }
    ensures value { (p : ℕ) → result ≡ (shifted (width_of byte) dst high p).value }
    ensures psw { (p : ℕ) → held_in p kept.new
        ≡ (shifted (width_of byte) dst high
        (held_in p kept.old)).psw }
{
    kept.sum = dst as u32 * 65536;
    logic(
        byte,
        dst,
        word::low_bits(byte, dst) / 2 + high * word::top(byte),
        kept,
    )
}

// One arithmetic or logical instruction.
pub fn work(op: Op, byte: bool, d: u16, s: u16, kept: &mut Kept) -> u16
    ensures value { (p : ℕ) → result ≡ (alu_of op (width_of byte) d s
        (held_in p kept.old)).value }
    ensures psw { (p : ℕ) → held_in p kept.new
        ≡ (alu_of op (width_of byte) d s
        (held_in p kept.old)).psw }
{
    let a = word::low_bits(byte, d);
    let b = word::low_bits(byte, s);
    let c = kept.sum / 65536 % 2;
    match op {
        Op::Add => add(byte, d, b, 0, kept),
        Op::Addc => add(byte, d, b, c, kept),
        Op::Sub => add(byte, d, word::turned_bits(byte, s), 1, kept),
        Op::Subc => add(byte, d, word::turned_bits(byte, s), c, kept),
        Op::Cmp => {
            add(byte, d, word::turned_bits(byte, s), 1, kept);
            d
        }
        Op::Dadd => {
            let o = alu_work::alu(op, byte, d, s, c as u16);
            kept.sum = o.psw as u32 * 65536;
            kept.last = marks(o.psw / 2 % 2 == 1, kept.negative());
            o.value
        }
        Op::And => logic(byte, d, a & b, kept),
        Op::Or => logic(byte, d, a | b, kept),
        Op::Xor => logic(byte, d, a ^ b, kept),
        Op::Bit => {
            logic(byte, d, a & b, kept);
            d
        }
        Op::Bic => {
            let o = alu_work::alu(op, byte, d, s, 0);
            kept.last = marks(word::low_bits(byte, o.value) == 0, kept.negative());
            o.value
        }
        Op::Bis => {
            let o = alu_work::alu(op, byte, d, s, 0);
            kept.last = marks(false, kept.negative());
            o.value
        }
        Op::Sra => shift(byte, d, word::flag(word::top(byte) <= a), kept),
        Op::Rrc => shift(byte, d, c as u16, kept),
        Op::Comp => logic(byte, d, word::turned_bits(byte, d), kept),
        Op::Swpb => alu_work::alu(op, byte, d, s, 0).value,
        Op::Sxt => alu_work::alu(op, byte, d, s, 0).value,
    }
}
