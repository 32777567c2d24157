// Arithmetic and logic of the XM-23 machine: one call, `alu`, for every instruction of both groups.
// `byte` chooses the width: 8 bits, else 16. A byte form keeps the high byte of its destination.
#![tactic(auto, unfolding(alu::specs::Alu::alu_of, alu::specs::Sums::overflow_of, alu::specs::Sums::add_with_carry, alu::specs::Decimal::digit_of, alu::specs::Decimal::digit_carry, alu::specs::Decimal::decimal_sum, alu::specs::Alu::mask_of, word::specs::Width::width_of))]

ghost use Rattle.std.specs.Prelude.{◌≡◌, not, cond, ◌+◌, ◌-◌, ◌/◌, ◌%◌, ◌^◌, ◌<◌, ◌≤◌, ltb};
ghost use Rattle.std.specs.Bool.{beq};
ghost use Rattle.word.specs.Width.{width_of, bit, low, turned};
ghost use Rattle.alu.specs.Sums.{add_with_carry, negative};
ghost use Rattle.alu.specs.Decimal.{decimal_sum, digit_of, digit_carry};
ghost use Rattle.alu.specs.Alu.{alu_of, logical, all_flags, summed, decimal, shifted, tested};
ghost use Rattle.alu.specs.Alu.{mask_of, cleared, raised, extended};

use alu::{Computed, Decimal, Op, Sum};

// The sum of two addends and a carry.
fn add_with_carry(byte: bool, a: u16, b: u16, carry: bool) -> Sum
    ensures { (result ≡ add_with_carry (width_of byte) a b (bit carry)) × (result.value < 2 ^ width_of byte) }
{
    let mask = word::ones(byte) as u32;
    let sum = a as u32 + b as u32 + carry as u32;
    Sum {
        value: (sum & mask) as u16,
        carry: mask < sum,
    }
}

// a - b, with the carry of a + not b + 1: nothing was borrowed.
fn difference(byte: bool, a: u16, b: u16) -> Sum
    requires { b < 2 ^ width_of byte }
    ensures value { result ≡ add_with_carry (width_of byte) a (2 ^ width_of byte - 1 - b) 1 }
    ensures value_bound { result.value < 2 ^ width_of byte }
{
    let mask = word::ones(byte) as u32;
    let d = a as u32 + (mask + 1) - b as u32;
    Sum {
        value: (d & mask) as u16,
        carry: b <= a,
    }
}

// Has one of the numbers its top bit set and the other not?
fn signs_differ(byte: bool, x: u16, y: u16) -> bool
    ensures { result ≡ not (beq (negative (width_of byte) x) (negative (width_of byte) y)) }
{
    let sign = word::top(byte);
    (sign <= x) != (sign <= y)
}

// Is a below b, both read with their signs? Numbers of one sign stand in their plain order; of two
// signs the one with its top bit set is below.
fn below(byte: bool, a: u16, b: u16) -> bool
    requires { (a < 2 ^ width_of byte) × (b < 2 ^ width_of byte) }
    ensures { result ≡ cond (beq (negative (width_of byte) a) (negative (width_of byte) b))
        (ltb a b) (negative (width_of byte) a) }
{
    let sign = word::top(byte);
    (a ^ sign) < (b ^ sign)
}

// A logical result written to the destination, with Z and N.
pub fn logic_into(byte: bool, dst: u16, res: u16, psw: u16) -> Computed
    requires { res < 2 ^ width_of byte }
    ensures { result ≡ logical (width_of byte) dst psw res }
{
    let p = word::put_zero(psw, res == 0);
    Computed {
        value: word::with_low(byte, dst, res),
        psw: word::put_negative(p, word::top(byte) <= res),
    }
}

// A sum written to the destination, with C, Z, N and the given V.
fn sum_into(byte: bool, dst: u16, sum: Sum, overflow: bool, psw: u16) -> Computed
    requires { sum.value < 2 ^ width_of byte }
    ensures { result ≡ all_flags (width_of byte) dst psw sum overflow }
{
    let o = logic_into(byte, dst, sum.value, word::put_carry(psw, sum.carry));
    Computed {
        value: o.value,
        psw: word::put_overflow(o.psw, overflow),
    }
}

// dst + src + carry written to the destination, with all four flags.
pub fn add_into(byte: bool, dst: u16, src: u16, carry: bool, psw: u16) -> Computed
    ensures { result ≡ summed (width_of byte) dst (low (width_of byte) src) (bit carry) psw }
{
    let a = word::low_bits(byte, dst);
    let b = word::low_bits(byte, src);
    let sum = add_with_carry(byte, a, b, carry);
    let overflow = signs_differ(byte, sum.value, a) & signs_differ(byte, sum.value, b);
    sum_into(byte, dst, sum, overflow, psw)
}

// dst + not src + carry written to the destination, with all four flags.
pub fn subtract_into(byte: bool, dst: u16, src: u16, carry: bool, psw: u16) -> Computed
    ensures { result ≡ summed (width_of byte) dst (turned (width_of byte) src) (bit carry) psw }
{
    let a = word::low_bits(byte, dst);
    let t = word::turned_bits(byte, src);
    let sum = add_with_carry(byte, a, t, carry);
    let overflow = !signs_differ(byte, a, t) & signs_differ(byte, a, sum.value);
    sum_into(byte, dst, sum, overflow, psw)
}

// dst - src written to the destination, with all four flags: those of dst + not src + 1.
fn difference_into(byte: bool, dst: u16, src: u16, psw: u16) -> Computed
    ensures { result ≡ summed (width_of byte) dst (turned (width_of byte) src) 1 psw }
{
    let a = word::low_bits(byte, dst);
    let b = word::low_bits(byte, src);
    let sum = difference(byte, a, b);
    let overflow = (word::top(byte) <= sum.value) != below(byte, a, b);
    sum_into(byte, dst, sum, overflow, psw)
}

// The low bits moved down by one below the given top bit, with C, Z and N.
fn shift_into(byte: bool, dst: u16, high: bool, psw: u16) -> Computed
    ensures { result ≡ shifted (width_of byte) dst (bit high) psw }
{
    let v = word::low_bits(byte, dst) / 2 + high as u16 * word::top(byte);
    logic_into(byte, dst, v, word::put_carry(psw, dst % 2 == 1))
}

// One decimal digit of two digits and a carry.
fn digit(a: u16, b: u16, carry: u16) -> Decimal
    requires { carry ≤ 1 }
    ensures value_value { (result.value ≡ digit_of (a % 16 + b % 16 + carry)) × (result.value < 16) }
    ensures carry_value { (result.carry ≡ digit_carry (a % 16 + b % 16 + carry)) × (result.carry ≤ 1) }
{
    let s = a % 16 + b % 16 + carry;
    if 9 < s {
        Decimal {
            value: (s - 10) % 16,
            carry: 1,
        }
    } else {
        Decimal {
            value: s % 16,
            carry: 0,
        }
    }
}

// Two decimal digits.
fn digit_pair(a: u16, b: u16, carry: u16) -> Decimal
    requires { carry ≤ 1 }
    ensures { (result ≡ decimal_sum 2 a b carry) × (result.value < 256) × (result.carry ≤ 1) }
{
    let d0 = digit(a, b, carry);
    let d1 = digit(a / 16, b / 16, d0.carry);
    Decimal {
        value: d0.value + 16 * d1.value,
        carry: d1.carry,
    }
}

// Two digits of a byte, four of a word.
fn decimal_sum(byte: bool, a: u16, b: u16, carry: u16) -> Decimal
    requires { carry ≤ 1 }
    ensures value { result ≡ decimal_sum (width_of byte / 4) a b carry }
    ensures value_bound { result.value < 2 ^ width_of byte }
{
    let d0 = digit_pair(a, b, carry);
    if byte {
        d0
    } else {
        let d1 = digit_pair(a / 16 / 16, b / 16 / 16, d0.carry);
        Decimal {
            value: d0.value + 256 * d1.value,
            carry: d1.carry,
        }
    }
}

// The decimal sum dst + src + C written to the destination, with C and Z.
fn decimal_into(byte: bool, dst: u16, src: u16, psw: u16) -> Computed
    ensures { result ≡ decimal (width_of byte) dst (low (width_of byte) src) psw }
{
    let a = word::low_bits(byte, dst);
    let b = word::low_bits(byte, src);
    let sum = decimal_sum(byte, a, b, psw % 2);
    let p = word::put_carry(psw, sum.carry == 1);
    Computed {
        value: word::with_low(byte, dst, sum.value),
        psw: word::put_zero(p, sum.value == 0),
    }
}

// The flags of an outcome, with the destination as it was.
fn tested_only(dst: u16, o: Computed) -> Computed
    ensures { result ≡ tested dst o }
{
    Computed {
        value: dst,
        psw: o.psw,
    }
}

// The number of bits of the width.
fn width(byte: bool) -> u16
    ensures { (result ≡ width_of byte) × (result ≤ 16) }
{
    if byte { 8 } else { 16 }
}

// The one bit that BIC clears or BIS sets, as a mask; 0 where the operand names no bit of the
// width.
fn mask_of(byte: bool, src: u16) -> u16
    ensures { (result ≡ mask_of (width_of byte) src) × (result < 2 ^ width_of byte) }
{
    let n = word::low_bits(byte, src);
    if n < width(byte) { 1 << n } else { 0 }
}

// The bits of the mask cleared in the destination, with Z.
fn clear_into(byte: bool, dst: u16, mask: u16, psw: u16) -> Computed
    ensures { result ≡ cleared (width_of byte) dst mask psw }
{
    let v = word::low_bits(byte, dst) & word::turned_bits(byte, mask);
    Computed {
        value: word::with_low(byte, dst, v),
        psw: word::put_zero(psw, v == 0),
    }
}

// The bits of the mask set in the destination; Z is cleared.
fn raise_into(byte: bool, dst: u16, mask: u16, psw: u16) -> Computed
    requires { mask < 2 ^ width_of byte }
    ensures { result ≡ raised (width_of byte) dst mask psw }
{
    let v = word::low_bits(byte, dst) | mask;
    Computed {
        value: word::with_low(byte, dst, v),
        psw: word::put_zero(psw, false),
    }
}

// The low byte with its sign carried into the high byte.
fn extend(x: u16) -> u16
    ensures { result ≡ extended x }
{
    let b = x % 256;
    if 128 <= b { 65280 + b } else { b }
}

// One arithmetic or logical instruction.
pub fn alu(op: Op, byte: bool, dst: u16, src: u16, psw: u16) -> Computed
    ensures { result ≡ alu_of op (width_of byte) dst src psw }
{
    let d = word::low_bits(byte, dst);
    let s = word::low_bits(byte, src);
    match op {
        Op::Add => add_into(byte, dst, src, false, psw),
        Op::Addc => add_into(byte, dst, src, psw % 2 == 1, psw),
        Op::Sub => difference_into(byte, dst, src, psw),
        Op::Subc => subtract_into(byte, dst, src, psw % 2 == 1, psw),
        Op::Cmp => tested_only(dst, difference_into(byte, dst, src, psw)),
        Op::Dadd => decimal_into(byte, dst, src, psw),
        Op::And => logic_into(byte, dst, d & s, psw),
        Op::Or => logic_into(byte, dst, d | s, psw),
        Op::Xor => logic_into(byte, dst, d ^ s, psw),
        Op::Bit => tested_only(dst, logic_into(byte, dst, d & s, psw)),
        Op::Bic => clear_into(byte, dst, mask_of(byte, src), psw),
        Op::Bis => raise_into(byte, dst, mask_of(byte, src), psw),
        Op::Sra => shift_into(byte, dst, word::top(byte) <= d, psw),
        Op::Rrc => shift_into(byte, dst, psw % 2 == 1, psw),
        Op::Comp => logic_into(byte, dst, word::turned_bits(byte, dst), psw),
        Op::Swpb => {
            let high = dst % 256 * 256;
            let value = high + dst / 256;
            Computed { value, psw }
        }
        Op::Sxt => Computed {
            value: extend(dst),
            psw,
        },
    }
}
