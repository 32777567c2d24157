// Vectors, the best waiting line, entry and return, over the registers lent.
#![tactic(auto)]

ghost use Rattle.std.specs.Prelude.{◌≡◌, ℕ, ◌+◌, ◌*◌, ◌<◌, ◌≤◌, length, slice_set};
ghost use Rattle.machine.specs.State.{core_of, down};
ghost use Rattle.machine.specs.Memory.{word_at, word_writes, commit};
ghost use Rattle.machine.specs.Entry.{vector_psw, vector_pc, priority, better, best};
ghost use Rattle.machine.specs.Entry.{entered_psw, pushed, pushes, pulled};
ghost use Rattle.machine.specs.Step.{entered, chained};
ghost use Rattle.entry.specs.Lines.{line_above, Line};

use machine::{ByteAddr, Lines};

// A pulled PSW and CEX state.
#[derive(Clone, Copy)]
pub struct Pulled {
    pub psw: u16,
    pub cex: u16,
}

// The word at an address, bit 0 dropped.
fn word_at(mem: &[u8; 65536], a: u16) -> u16
    ensures { result ≡ word_at mem.now a }
{
    memory::read_word(mem, memory::word_of(ByteAddr(a)))
}

// The two words of vector v.
fn vector_psw(mem: &[u8; 65536], v: u8) -> u16
    requires { v < 16 }
    ensures { result ≡ vector_psw mem.now v }
{
    word_at(mem, 0xFFC0 + 4 * v as u16)
}

fn vector_pc(mem: &[u8; 65536], v: u8) -> u16
    requires { v < 16 }
    ensures { result ≡ vector_pc mem.now v }
{
    word_at(mem, 0xFFC0 + 4 * v as u16 + 2)
}

// The priority of vector v.
pub fn priority_of(mem: &[u8; 65536], v: u8) -> u16
    requires { v < 16 }
    ensures { result ≡ priority mem.now v }
{
    word::current_priority(vector_psw(mem, v))
}

// The better of line d and the best e of those after it, 8 for none.
fn better_of(mem: &[u8; 65536], d: u8, e: u8) -> u8
    requires { (d < 8) × (e ≤ 8) }
    ensures { (result ≡ better mem.now d e) × (result < 8) }
{
    if e < 8 {
        if priority_of(mem, d) < priority_of(mem, e) {
            return e;
        }
    }
    d
}

// The best waiting line, if one waits.
// Kept: 8 for none within the loop, since an Option there takes 25 host instructions more of a call.
pub fn best_line(mem: &[u8; 65536], lines: Lines) -> Option<u8>
    ensures { Line result (best lines mem.now) }
{
    let mut e: u8 = 8;
    for d in (0..8).rev() {
        if devices::waits(lines, d) {
            e = better_of(mem, d, e);
        }
    }
    if e < 8 { Some(e) } else { None }
}

// The best waiting line, if its priority is above `level`.
pub fn best_above(mem: &[u8; 65536], lines: Lines, level: u16) -> Option<u8>
    ensures { Line result (line_above mem.now lines level) }
{
    if let Some(d) = best_line(mem, lines) {
        if level < priority_of(mem, d) {
            return Some(d);
        }
    }
    None
}

// The same, asked at every step; no vector is read where no line waits.
pub fn line_above(mem: &[u8; 65536], lines: Lines, level: u16) -> Option<u8>
    ensures { Line result (line_above mem.now lines level) }
{
    if lines == 0 {
        return None;
    }
    best_above(mem, lines, level)
}

// The PSW of an entry, from the vector's word.
fn entered_psw(p: u16, q: u16, flt: bool) -> u16
    requires { q < 8 }
    ensures { result ≡ entered_psw p q flt }
{
    p % 8 + p / 16 % 16 * 16 + word::flag(flt) * 256 + q * 8192
}

// LR, SP and PC written by an entry or a return.
fn set_three(regs: &mut [u16; 8], lr: u16, sp: u16, pc: u16)
    ensures { regs.new ≡ slice_set (slice_set (slice_set regs.old 5 lr) 6 sp) 7 pc }
{
    regs[5] = lr;
    regs[6] = sp;
    regs[7] = pc;
}

// A word pushed: the SP that it leaves.
fn push(mem: &mut [u8; 65536], sp: u16, v: u16) -> u16
    ensures { (result ≡ down sp 2) ×
        (mem.new ≡ commit (word_writes (down sp 2) v) mem.old) }
{
    let to = sp.wrapping_sub(2);
    memory::write_word(mem, memory::word_of(ByteAddr(to)), v);
    to
}

// The frame pushed: PC, LR, PSW, CEX. The SP that it leaves.
fn push_frame(regs: &[u16; 8], mem: &mut [u8; 65536], psw: u16, cex: u16) -> u16
    ensures { (result ≡ pushed (core_of regs.now psw cex)) ×
        (mem.new ≡ commit (pushes (core_of regs.now psw cex)) mem.old) }
{
    let s1 = push(mem, regs[6], regs[7]);
    let s2 = push(mem, s1, regs[5]);
    let s3 = push(mem, s2, psw);
    push(mem, s3, cex)
}

// An entry by vector v that pushes: the PSW after it. CEX is then clear.
pub fn enter(
    regs: &mut [u16; 8],
    mem: &mut [u8; 65536],
    psw: u16,
    cex: u16,
    v: u8,
    fault: bool,
) -> u16
    requires { v < 16 }
    ensures core { core_of regs.new result 0 ≡
        entered (core_of regs.old psw cex) mem.old v fault }
    ensures memory { mem.new ≡
        commit (pushes (core_of regs.old psw cex)) mem.old }
{
    let status = vector_psw(mem, v);
    let start = vector_pc(mem, v);
    let sp = push_frame(regs, mem, psw, cex);
    set_three(regs, 0xFFFF, sp, start);
    entered_psw(
        status,
        word::current_priority(psw),
        fault | word::faulted(psw),
    )
}

// A chained entry by vector v, which pushes nothing: the PSW after it. CEX is then clear.
pub fn chain(regs: &mut [u16; 8], mem: &[u8; 65536], psw: u16, v: u8) -> u16
    requires { v < 16 }
    ensures { (x : ℕ) → core_of regs.new result 0 ≡
        chained (core_of regs.old psw x) mem.now v }
{
    let p = vector_psw(mem, v);
    let pc = vector_pc(mem, v);
    let sp = regs[6];
    set_three(regs, 0xFFFF, sp, pc);
    entered_psw(p, word::previous_priority(psw), word::faulted(psw))
}

// A return that pulls.
pub fn pull(regs: &mut [u16; 8], mem: &[u8; 65536]) -> Pulled
    ensures { (p x : ℕ) → core_of regs.new result.psw result.cex ≡
        pulled (core_of regs.old p x) mem.now }
{
    let s = regs[6];
    let x = word_at(mem, s);
    let p = word_at(mem, s.wrapping_add(2));
    let lr = word_at(mem, s.wrapping_add(4));
    let pc = word_at(mem, s.wrapping_add(6));
    set_three(regs, lr, s.wrapping_add(8), pc);
    Pulled {
        psw: p % 8 + p / 16 % 32 * 16 + p / 8192 % 8 * 8192,
        cex: x % 128,
    }
}
