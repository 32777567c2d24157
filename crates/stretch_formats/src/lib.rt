// Words by their format: each function does the words of one, or leaves them alone. `k` has the
// constants that a source field can name; the flags are those that `kept` has (crate flags). A row
// is the word's leading bits as a number: what it says of operation, operand, width and condition is
// known where a caller hands on a number.
#![tactic(auto)]

ghost use Rattle.std.specs.Prelude.{Bool, cond, List, ◌≡◌, ℕ, ◌/◌, ◌%◌, ◌<◌, ◌≤◌, eqb, get_or};
ghost use Rattle.isa.specs.Decode.{decode_of};
ghost use Rattle.machine.specs.Effect.{constant_of};
ghost use Rattle.flags.specs.Kept.{held_in};
ghost use Rattle.stretch_registers.specs.Effected.{Past};
ghost use Rattle.stretch_memory.specs.Served.{Taken};
ghost use Rattle.stretch_formats.specs.Ready.{Ready, constants};

use flags::Kept;
use stretch_memory::{load_relative, store_relative};
use stretch_registers::{LEFT_ALONE, compute, offset, target};

// The operand of an operation's word: the register, or the constant, of bits 5 to 3.
fn operand(regs: &[u16; 8], k: &[u16; 8], w: usize, constant: bool) -> u16
    requires { k.now ≡ constants }
    ensures { result ≡ cond constant (constant_of (w / 8 % 8))
        (get_or regs.now (w / 8 % 8) 0) }
{
    if constant {
        return k[w / 8 % 8];
    }
    regs[w / 8 % 8]
}

// 4000 to 4BFF: ADD to BIS. `row` is w / 64; `constant` says what it says of the operand.
pub fn operation(
    regs: &mut [u16; 8],
    k: &[u16; 8],
    kept: &mut Kept,
    pc: usize,
    w: usize,
    row: usize,
    constant: bool,
) -> usize
    requires { Past pc regs.old × (k.now ≡ constants) × (w / 64 ≡ row)
        × (0x100 ≤ row) × (row < 0x130) × (constant ≡ eqb (row / 2 % 2) 1) }
    ensures { (free : Bool) (m : List ℕ) (psw cex : ℕ) → Taken free (decode_of w)
        regs.old
        (held_in psw kept.old) cex m
        regs.new
        (held_in psw kept.new) cex m result }
{
    let n = (row / 4 % 16) as u8;
    let byte = row % 2 == 1;
    let s = operand(regs, k, w, constant);
    let op = operands::binary(n);
    if (n == 5) | (n == 9) {
        flags_work::work(op, byte, regs[w % 8], s, kept);
        return pc;
    }
    compute(regs, kept, pc, w, op, byte, s)
}

// 2000 to 3FFF: a branch. `row` is w / 512: where it is a number, condition and sign are known.
fn branch_row(kept: &Kept, cex: &mut u16, pc: usize, w: usize, row: usize) -> usize
    requires { (w / 512 ≡ row) × (16 ≤ row) × (row < 32) }
    ensures { (free : Bool) (regs m : List ℕ) (psw : ℕ) → Past pc regs → Taken free (decode_of w)
        regs (held_in psw kept.now) cex.old m
        regs (held_in psw kept.now) cex.new m result }
{
    if !kept.taken((row / 2 % 8) as u8) {
        return pc;
    }
    *cex = 0;
    target(pc, offset(w, row))
}

// 2000 to 3FFF: the branches, by the sign of their offset too; BRA backwards, which closes a loop,
// first. 0000 to 1FFF: BL.
// Kept: an arm for each row, so that condition and sign are known where it is compiled (docs/SPEED.md).
fn jump_word(regs: &mut [u16; 8], kept: &Kept, cex: &mut u16, pc: usize, w: usize) -> usize
    requires { Past pc regs.old × (w < 0x4000) }
    ensures { (free : Bool) (m : List ℕ) (psw : ℕ) → Taken free (decode_of w)
        regs.old (held_in psw kept.now) cex.old m
        regs.new (held_in psw kept.now) cex.new m result }
{
    if 0x3E00 <= w {
        return branch_row(kept, cex, pc, w, 31);
    }
    match w / 512 {
        16 => branch_row(kept, cex, pc, w, 16),
        17 => branch_row(kept, cex, pc, w, 17),
        18 => branch_row(kept, cex, pc, w, 18),
        19 => branch_row(kept, cex, pc, w, 19),
        20 => branch_row(kept, cex, pc, w, 20),
        21 => branch_row(kept, cex, pc, w, 21),
        22 => branch_row(kept, cex, pc, w, 22),
        23 => branch_row(kept, cex, pc, w, 23),
        24 => branch_row(kept, cex, pc, w, 24),
        25 => branch_row(kept, cex, pc, w, 25),
        26 => branch_row(kept, cex, pc, w, 26),
        27 => branch_row(kept, cex, pc, w, 27),
        28 => branch_row(kept, cex, pc, w, 28),
        29 => branch_row(kept, cex, pc, w, 29),
        30 => branch_row(kept, cex, pc, w, 30),
        _ => stretch_registers::link_word(regs, cex, pc, w),
    }
}

// 8000 to FFFF: LDR, STR.
// Kept: a call for each width; one call costs LDR and STR twelve host instructions (docs/SPEED.md).
fn relative_word(regs: &mut [u16; 8], mem: &mut [u8; 65536], pc: usize, w: usize) -> usize
    requires { Ready pc w regs.old mem.old constants × (0x8000 ≤ w) }
    ensures { (free : Bool) (psw cex : ℕ) → Taken free (decode_of w)
        regs.old psw cex
        mem.old regs.new psw cex mem.new result }
{
    let byte = w / 64 % 2 == 1;
    if w < 0xC000 {
        if byte {
            return load_relative(regs, mem, pc, w, 1);
        }
        return load_relative(regs, mem, pc, w, 0);
    }
    if byte {
        return store_relative(regs, mem, pc, w, 1);
    }
    store_relative(regs, mem, pc, w, 0)
}

// Branches, BL, MOVL to MOVH, LDR, STR, SWAP, one register. CEX, SVC, the other adjustments of LD
// and ST and the words of no instruction are left alone.
pub fn far_word(
    regs: &mut [u16; 8],
    mem: &mut [u8; 65536],
    k: &[u16; 8],
    kept: &mut Kept,
    cex: &mut u16,
    pc: usize,
    w: usize,
) -> usize
    requires { Ready pc w regs.old mem.old k.now }
    ensures { (free : Bool) (psw : ℕ) → Taken free (decode_of w)
        regs.old
        (held_in psw kept.old)
        cex.old mem.old
        regs.new
        (held_in psw kept.new)
        cex.new mem.new result }
{
    if w < 0x4000 {
        return jump_word(regs, kept, cex, pc, w);
    }
    if 0x8000 <= w {
        return relative_word(regs, mem, pc, w);
    }
    if 0x6000 <= w {
        return stretch_registers::immediate_word(regs, pc, w);
    }
    if (w < 0x4C80) | (0x4D80 <= w) {
        return LEFT_ALONE;
    }
    if w < 0x4D00 {
        return stretch_registers::swap_word(regs, pc, w);
    }
    stretch_registers::single_word(regs, kept, pc, w)
}
