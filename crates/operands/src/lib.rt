// What instructions work with: registers, operands and addresses, the tables that instructions
// name by number, and the fields of the PSW that they set.
#![tactic(auto)]

ghost use Rattle.std.specs.Prelude.{◌≡◌, ◌*◌, ◌<◌, ◌≤◌, if◌then◌else◌, nat_eq, slice_index, slice_set};
ghost use Rattle.std.specs.Int.Signed.{mag};
ghost use Rattle.machine.specs.State.{moved, doubled};
ghost use Rattle.machine.specs.Cex.{condition_of, at_least?, loaded_cex};
ghost use Rattle.machine.specs.Effect.{binary_op, unary_op, constant_of, taken_of, immediate_of};
ghost use Rattle.machine.specs.Effect.{size_of, moves?, adjusted};
ghost use Rattle.machine.specs.Effect.{allowed_flags, set_flags, clear_flags, put_current};

use alu::Op;

// A register's value.
pub fn get(regs: &[u16; 8], i: u8) -> u16
    requires { i < 8 }
    ensures { result ≡ slice_index regs.now i }
{
    regs[i as usize]
}

// A register written by an instruction: the CEX state after it, which a write to R7 clears.
pub fn put(regs: &mut [u16; 8], cex: u16, i: u8, v: u16) -> u16
    requires { i < 8 }
    ensures { (regs.new ≡ slice_set regs.old i v) × (result ≡ (if nat_eq i 7 then 0 else cex)) }
{
    regs[i as usize] = v;
    if i == 7 {
        return 0;
    }
    cex
}

// The address at a signed distance in bytes.
pub fn offset_from(a: u16, off: i16) -> u16
    ensures { result ≡ moved a off }
{
    a.wrapping_add_signed(off)
}

// The target of a branch: its signed word offset doubled and added to PC.
pub fn branch_target(pc: u16, off: i16) -> u16
    requires { mag off < 4096 }
    ensures { result ≡ moved pc (doubled off) }
{
    offset_from(pc, 2 * off)
}

// The constant that a source field names.
pub fn constant(k: u8) -> u16
    requires { k < 8 }
    ensures { result ≡ constant_of k }
{
    [0, 1, 2, 4, 8, 16, 32, 0xFFFF][k as usize]
}

// A source: a register, or with rc the constant that its field names.
pub fn operand(regs: &[u16; 8], rc: u8, src: u8) -> u16
    requires { src < 8 }
    ensures { result ≡ (if nat_eq rc 1 then constant_of src else slice_index regs.now src) }
{
    if rc == 1 {
        return constant(src);
    }
    get(regs, src)
}

// The operation with two operands of this number.
// Kept: the numbers are the fields of instruction words, as the definitions and C have them.
pub fn binary(op: u8) -> Op
    ensures { result ≡ binary_op op }
{
    match op {
        0 => Op::Add,
        1 => Op::Addc,
        2 => Op::Sub,
        3 => Op::Subc,
        4 => Op::Dadd,
        5 => Op::Cmp,
        6 => Op::Xor,
        7 => Op::And,
        8 => Op::Or,
        9 => Op::Bit,
        10 => Op::Bic,
        _ => Op::Bis,
    }
}

// The operation with one operand of this number.
// Kept: the numbers are the fields of instruction words, as the definitions and C have them.
pub fn unary(op: u8) -> Op
    ensures { result ≡ unary_op op }
{
    match op {
        0 => Op::Sra,
        1 => Op::Rrc,
        _ => Op::Comp,
    }
}

// N = V.
pub fn at_least(psw: u16) -> bool
    ensures { result ≡ at_least? psw }
{
    (psw / 4 % 2 == 1) == (psw / 16 % 2 == 1)
}

// Is a branch of this number taken?
// Kept: the numbers are the fields of instruction words, as the definitions and C have them.
pub fn taken(n: u8, psw: u16) -> bool
    ensures { result ≡ taken_of n psw }
{
    match n {
        0 => psw / 2 % 2 == 1,
        1 => psw / 2 % 2 != 1,
        2 => psw % 2 == 1,
        3 => psw % 2 != 1,
        4 => psw / 4 % 2 == 1,
        5 => at_least(psw),
        6 => !at_least(psw),
        _ => true,
    }
}

// Does the condition of number 2 * k hold?
// Kept: the numbers are the fields of instruction words, as the definitions and C have them.
fn even_condition(k: u8, psw: u16) -> bool
    ensures { result ≡ condition_of (2 * k) psw }
{
    let c = psw % 2 == 1;
    let z = psw / 2 % 2 == 1;
    match k {
        0 => z,
        1 => c,
        2 => psw / 4 % 2 == 1,
        3 => psw / 16 % 2 == 1,
        4 => c & !z,
        5 => at_least(psw),
        6 => !z & at_least(psw),
        7 => true,
        _ => false,
    }
}

// Does CEX's condition of this number hold? An odd one holds where the one before it does not.
pub fn condition(n: u8, psw: u16) -> bool
    ensures { result ≡ condition_of n psw }
{
    (n < 16) & (even_condition(n / 2, psw) != (n % 2 == 1))
}

// The CEX state that CEX loads: both counts and the condition's outcome.
pub fn loaded_cex(n: u8, t: u8, f: u8, psw: u16) -> u16
    requires { (t < 8) × (f < 8) }
    ensures { result ≡ loaded_cex n t f psw }
{
    let held = word::flag(condition(n, psw));
    f as u16 + 8 * t as u16 + 64 * held
}

// MOVL, MOVLZ, MOVLS, MOVH of a byte into x.
pub fn immediate(op: u8, byte: u8, x: u16) -> u16
    ensures { result ≡ immediate_of op byte x }
{
    let b = byte as u16;
    match op {
        0 => x / 256 * 256 + b,
        1 => b,
        2 => 0xFF00 + b,
        _ => b * 256 + x % 256,
    }
}

// How far an adjustment moves: 1 for bytes, 2 for words.
pub fn step_size(wb: u8) -> u16
    ensures { (result ≡ size_of wb) × (result ≤ 2) }
{
    if wb == 1 { 1 } else { 2 }
}

// An index register after its adjustment.
pub fn adjusted_by(a: u16, dec: u8, inc: u8, wb: u8) -> u16
    ensures { result ≡ adjusted a dec inc wb }
{
    if dec == inc {
        return a;
    }
    let size = step_size(wb);
    if inc == 1 {
        return a.wrapping_add(size);
    }
    a.wrapping_sub(size)
}

// The address of LD and ST: a, or with prpo the adjusted b.
pub fn address(prpo: u8, a: u16, b: u16) -> u16
    ensures { result ≡ (if nat_eq prpo 1 then b else a) }
{
    if prpo == 1 { b } else { a }
}

// The adjustment of LD and ST, written where it moves: the CEX state after it.
pub fn adjust_index(regs: &mut [u16; 8], cex: u16, i: u8, dec: u8, inc: u8, to: u16) -> u16
    requires { i < 8 }
    ensures { (regs.new
        ≡ (if moves? dec inc then slice_set regs.old i to else regs.old))
        × (result ≡ (if moves? dec inc then (if nat_eq i 7 then 0 else cex) else cex)) }
{
    if dec == inc {
        return cex;
    }
    put(regs, cex, i, to)
}

// The flags that SETCC may set: at priority 7 not SLP.
pub fn allowed_flags(psw: u16, f: u16) -> u16
    requires { f < 32 }
    ensures { (result ≡ allowed_flags psw f) × (result < 32) }
{
    if word::current_priority(psw) == 7 {
        return f / 16 * 16 + f % 8;
    }
    f
}

// The PSW with these flags set; its other bits stay.
pub fn flags_set(psw: u16, f: u16) -> u16
    requires { f < 32 }
    ensures { result ≡ set_flags psw f }
{
    psw / 32 * 32 + (psw % 32 | f)
}

// The PSW with these flags clear; its other bits stay.
pub fn flags_cleared(psw: u16, f: u16) -> u16
    requires { f < 32 }
    ensures { result ≡ clear_flags psw f }
{
    psw / 32 * 32 + (psw % 32 & (31 - f))
}

// The PSW with another current priority; its other bits stay.
pub fn priority_put(psw: u16, level: u16) -> u16
    requires { level < 8 }
    ensures { result ≡ put_current psw level }
{
    psw / 256 * 256 + level * 32 + psw % 32
}
