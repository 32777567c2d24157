// Instructions that touch registers, PSW and the CEX state alone. Each function takes the word w,
// PC being past it (`pc`, as it stands in R7 but not yet wrapped), and answers the next PC, or
// LEFT_ALONE and has left all alone: then the step is done in the general way. A MOV of an odd
// number to PC answers ODD more than that number. The flags are kept as what they come from (crate
// flags): the PSW is `psw` with those of `kept`. R7 is written by BL, branches and MOV alone; SLP
// stays, and so does the priority but for SETPRI, which is done where `free` says that no line
// waits.
#![tactic(auto)]

ghost use Rattle.std.specs.Prelude.{true, false, List, ◌≡◌, ℕ, ◌+◌, ◌*◌, ◌/◌, ◌%◌, ◌<◌, ◌≤◌, eqb};
ghost use Rattle.std.specs.Int.Signed.{mag};
ghost use Rattle.isa.specs.declared.Instr.TheVariants as Instr;
ghost use Rattle.isa.specs.Decode.{unary_of, control_of};
ghost use Rattle.machine.specs.State.{moved, doubled};
ghost use Rattle.word.specs.Offset.{signed_of};
ghost use Rattle.flags.specs.Kept.{held_in};
ghost use Rattle.stretch_registers.specs.Effected.{left_alone, odd, Past, Done, Tried};
ghost use Rattle.stretch_registers.specs.Effected.{Computes, Lowers};

use alu::Op;
use flags::Kept;

// What is no PC, and says that a word was left alone; and how far above a PC its answer is where it
// may be odd.
// Kept: an enum by value costs six host instructions a step (docs/DECISIONS.md, "Stretches").
pub const LEFT_ALONE: usize = 1048576;

const ODD: usize = 2097152;

// An operation whose result is written, to any register but R7.
pub fn compute(
    regs: &mut [u16; 8],
    kept: &mut Kept,
    pc: usize,
    w: usize,
    op: Op,
    byte: bool,
    s: u16,
) -> usize
    ensures { (psw : ℕ) → Computes op byte s w pc
        regs.old
        (held_in psw kept.old)
        regs.new
        (held_in psw kept.new) result }
{
    let dst = w % 8;
    if dst == 7 {
        return LEFT_ALONE;
    }
    let v = flags_work::work(op, byte, regs[dst], s, kept);
    regs[dst] = v;
    pc
}

// MOV of v to PC: the new PC, odd or not.
fn move_to_pc(cex: &mut u16, v: u16) -> usize
    ensures { (result % 65536 ≡ v) × (result ≡ left_alone → ⊥) × (result < left_alone → result % 2 ≡ 0)
        × (result < 2 * odd) × (cex.new ≡ 0) }
{
    *cex = 0;
    if v % 2 == 1 {
        return ODD + v as usize;
    }
    v as usize
}

// 4C00 to 4C7F: MOV. A byte is not moved to PC here.
pub fn move_word(regs: &mut [u16; 8], cex: &mut u16, pc: usize, w: usize, byte: bool) -> usize
    requires { Past pc regs.old }
    ensures { (psw wb : ℕ) → byte ≡ eqb wb 1 → Tried (Instr.Mov wb (w / 8 % 8) (w % 8))
        regs.old psw cex.old regs.new psw cex.new result }
{
    let v = regs[w / 8 % 8];
    let dst = w % 8;
    if dst == 7 {
        if byte {
            return LEFT_ALONE;
        }
        return move_to_pc(cex, v);
    }
    let r = word::with_low(byte, regs[dst], word::low_bits(byte, v));
    regs[dst] = r;
    pc
}

// 4C80 to 4CFF: SWAP.
pub fn swap_word(regs: &mut [u16; 8], pc: usize, w: usize) -> usize
    requires { Past pc regs.old }
    ensures { (psw cex b : ℕ) → Tried (Instr.Swap (w / 8 % 8) (w % 8) b)
        regs.old psw cex regs.new psw cex result }
{
    let src = w / 8 % 8;
    let dst = w % 8;
    if (src == 7) | (dst == 7) {
        return LEFT_ALONE;
    }
    let s = regs[src];
    let d = regs[dst];
    regs[src] = d;
    regs[dst] = s;
    pc
}

// 4D00 to 4D7F: SRA, RRC, COMP, SWPB, SXT, by bits 6 to 3. Those of no instruction are left alone.
// Kept: an arm for each, so that operation and width are known where it is compiled (docs/SPEED.md).
pub fn single_word(regs: &mut [u16; 8], kept: &mut Kept, pc: usize, w: usize) -> usize
    requires { Past pc regs.old }
    ensures { (psw cex : ℕ) → Tried (unary_of w)
        regs.old
        (held_in psw kept.old) cex
        regs.new
        (held_in psw kept.new) cex result }
{
    match w / 8 % 16 {
        0 => compute(regs, kept, pc, w, Op::Sra, false, 0),
        1 => compute(regs, kept, pc, w, Op::Rrc, false, 0),
        2 => compute(regs, kept, pc, w, Op::Comp, false, 0),
        3 | 11 => compute(regs, kept, pc, w, Op::Swpb, false, 0),
        4 | 12 => compute(regs, kept, pc, w, Op::Sxt, false, 0),
        8 => compute(regs, kept, pc, w, Op::Sra, true, 0),
        9 => compute(regs, kept, pc, w, Op::Rrc, true, 0),
        10 => compute(regs, kept, pc, w, Op::Comp, true, 0),
        _ => LEFT_ALONE,
    }
}

// 4DC0 to 4DFF: SETCC and CLRCC of other flags than SLP.
pub fn flags_word(kept: &mut Kept, pc: usize, w: usize) -> usize
    requires { (0x4DC0 ≤ w) × (w < 0x4E00) }
    ensures { (regs : List ℕ) (psw cex : ℕ) → Past pc regs → Tried (control_of w)
        regs (held_in psw kept.old) cex
        regs (held_in psw kept.new) cex result }
{
    if w / 8 % 2 == 1 {
        return LEFT_ALONE;
    }
    let f = (w % 32) as u16;
    if w < 0x4DE0 {
        kept.set(f);
        return pc;
    }
    kept.clear(f);
    pc
}

// 4D80 to 4DBF: SETPRI to the own priority or a lower one, where no line waits.
pub fn priority_word(psw: &mut u16, free: bool, pc: usize, w: usize) -> usize
    ensures { Lowers free w pc psw.old psw.new result }
{
    let level = (w % 8) as u16;
    if (w / 8 != 0x9B0) | !free | (word::current_priority(*psw) < level) {
        return LEFT_ALONE;
    }
    *psw = operands::priority_put(*psw, level);
    pc
}

// 6000 to 7FFF: MOVL, MOVLZ, MOVLS, MOVH.
pub fn immediate_word(regs: &mut [u16; 8], pc: usize, w: usize) -> usize
    requires { Past pc regs.old }
    ensures { (psw cex : ℕ) → Tried (Instr.MovImm (w / 2048 % 4) (w / 8 % 256) (w % 8))
        regs.old psw cex regs.new psw cex result }
{
    let dst = w % 8;
    if dst == 7 {
        return LEFT_ALONE;
    }
    let op = (w / 2048 % 4) as u8;
    let v = operands::immediate(op, (w / 8 % 256) as u8, regs[dst]);
    regs[dst] = v;
    pc
}

// PC and a signed word offset, doubled.
pub fn target(pc: usize, off: i16) -> usize
    requires { mag off < 4096 }
    ensures { (result ≡ moved (pc % 65536) (doubled off)) × (result < 65536) }
{
    operands::branch_target((pc % 65536) as u16, off) as usize
}

// The signed word offset of a branch; `row` is w / 512.
pub fn offset(w: usize, row: usize) -> i16
    requires { w / 512 ≡ row }
    ensures { result ≡ signed_of 512 (w % 1024) }
{
    if row % 2 == 0 {
        return (w % 512) as i16;
    }
    !((511 - w % 512) as i16)
}

// 0000 to 1FFF: BL.
pub fn link_word(regs: &mut [u16; 8], cex: &mut u16, pc: usize, w: usize) -> usize
    requires { Past pc regs.old }
    ensures { (psw : ℕ) → Done (Instr.Bl (signed_of 4096 (w % 8192)))
        regs.old psw cex.old regs.new psw cex.new result }
{
    regs[5] = (pc % 65536) as u16;
    *cex = 0;
    target(pc, word::signed(4096, (w % 8192) as u16))
}
