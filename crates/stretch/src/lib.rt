// A stretch of steps done at once, looking at nothing but their instructions and how many are left:
// awake, PC even, no line waiting above the priority, no event due. Every step of it is uneventful.
// A word that could end any of this is left to the general way: SETPRI upwards or while a line
// waits, SVC, SLP, an odd word access, a store to the device bytes or to the vectors, a write to R7
// other than BL, branches and MOV. Where a CEX block is open, the steps that it covers are taken one
// by one, those that it skips at once, and a CEX in it is left too. The flags are kept as what they
// come from (crate flags): the PSW is `psw` with those of `kept`.
#![tactic(auto)]

ghost use Rattle.std.specs.Prelude.{◌≡◌, ℕ, ◌+◌, ◌-◌, ◌*◌, ◌/◌, ◌%◌, ◌<◌, ◌≤◌, true, false, ◌⊎◌, List, length, ◌≢◌, slice_index};
ghost use Rattle.word.specs.Psw.{asleep?};
ghost use Rattle.machine.specs.Cex.{skips?, lowered};
ghost use Rattle.machine.specs.Events.{Event};
ghost use Rattle.flags.specs.Kept.{held_in};
ghost use Rattle.stretch_memory.specs.Served.{running};
ghost use Rattle.stretch_formats.specs.Ready.{constants};
ghost use Rattle.stretch.specs.Stretch.{Undisturbed, Awake, Fetching, FreeOf};
ghost use Rattle.stretch.specs.Stretch.{Passes, Goes, Stepping, Walked, SkippedPart};

use flags::Kept;
use machine::{ByteAddr, Lines};
use stretch_registers::LEFT_ALONE;

// One step from PC `pc`, the CEX count lowered already: the next PC, or LEFT_ALONE where its word
// is for the general way; then nothing has changed but R7. `free` says that no line waits.
fn take_step(
    regs: &mut [u16; 8],
    mem: &mut [u8; 65536],
    k: &[u16; 8],
    psw: &mut u16,
    free: bool,
    kept: &mut Kept,
    cex: &mut u16,
    pc: usize,
) -> usize
    requires { (k.now ≡ constants) × (pc % 2 ≡ 0) × Awake regs.old (held_in psw.old kept.old) }
    ensures { Stepping free pc regs.old
        (held_in psw.old kept.old)
        cex.old mem.old regs.new
        (held_in psw.new kept.new)
        cex.new mem.new result }
{
    let at = memory::word_of(ByteAddr((pc % 65536) as u16));
    let w = memory::read_word(mem, at) as usize;
    let past = memory::byte_of(at).0 as usize + 2;
    regs[7] = (past % 65536) as u16;
    stretch_words::take_word(regs, mem, k, psw, free, kept, cex, past, w)
}

// The PSW and the CEX state after some steps, and how many are left of those that might be taken.
#[derive(Clone, Copy)]
pub struct Progress {
    pub psw: u16,
    pub cex: u16,
    pub left: u32,
}

// A CEX state, and how many steps are left to be taken from there.
#[derive(Clone, Copy)]
struct Ahead {
    cex: u16,
    left: u32,
}

// Up to n steps, fewer where a word is for the general way or PC is odd: how many are left. The CEX
// count of the first is lowered already; where a block is open, there is no second.
fn take_steps(
    regs: &mut [u16; 8],
    mem: &mut [u8; 65536],
    k: &[u16; 8],
    psw: &mut u16,
    free: bool,
    kept: &mut Kept,
    cex: u16,
    n: u32,
) -> Ahead
    requires { (k.now ≡ constants) × Fetching regs.old (held_in psw.old kept.old)
        × ((cex % 64 ≡ 0) ⊎ (n ≤ 1)) }
    ensures walked { Walked free regs.old
        (held_in psw.old kept.old)
        cex mem.old regs.new
        (held_in psw.new kept.new)
        result.cex mem.new (n - result.left) }
    ensures left { (result.left ≤ n) × Awake regs.new
        (held_in psw.new kept.new) }
    ensures shut { cex % 64 ≡ 0 → result.cex % 64 ≡ 0 }
{
    let mut x = cex;
    let mut pc = regs[7] as usize;
    let mut left = n;
    // Kept: `for left in (0..n).rev()` costs three host instructions a step (docs/SPEED.md).
    while 0 < left {
        let r = take_step(regs, mem, k, psw, free, kept, &mut x, pc);
        if LEFT_ALONE <= r {
            if r == LEFT_ALONE {
                regs[7] = regs[7].wrapping_sub(2);
                return Ahead { cex: x, left };
            }
            regs[7] = (r % 65536) as u16;
            left -= 1;
            return Ahead { cex: x, left };
        }
        pc = r;
        left -= 1;
    }
    regs[7] = (pc % 65536) as u16;
    Ahead { cex: x, left }
}

// How the CEX state bears on the next step: itself with the count lowered, and how many steps may
// be taken from there: none where its block skips the next instruction, one where it covers it, all
// where no block is open.
fn covered(x: u16, all: u32) -> Ahead
    requires { 0 < all }
    ensures lowers { result.cex ≡ lowered x }
    ensures skips { (result.left ≡ 0 → skips? x ≡ true) × (0 < result.left → skips? x ≡ false) }
    ensures shut { x % 64 ≡ 0 → result.left ≡ all }
    ensures one { (x % 64 ≢ 0) → result.left ≤ 1 }
{
    if x % 64 == 0 {
        return Ahead { cex: x, left: all };
    }
    let held = x / 64 % 2 == 1;
    if x / 8 % 8 == 0 {
        let left = !held as u32;
        return Ahead { cex: x - 1, left };
    }
    let left = held as u32;
    Ahead { cex: x - 8, left }
}

// What a turn of the walk comes to, and whether another may follow it.
// Kept: an enum of going on and of ending would hold the same two numbers and say each clause twice.
#[derive(Clone, Copy)]
struct Turned {
    cex: u16,
    left: u32,
    more: bool,
}

// What each word that an open block skips next takes from its CEX state.
fn unit(x: u16) -> u16
    requires { skips? x ≡ true }
    ensures skips { SkippedPart x (x / result % 8) result }
    ensures fits { (x / result % 8 * result ≤ x) × (0 < x / result % 8) × (0 < result) }
{
    if x / 8 % 8 == 0 { 1 } else { 8 }
}

// Where a block skips the next word: all words that it skips, or as many as are left.
fn skipping(regs: &mut [u16; 8], cex: u16, left: u32) -> Turned
    requires { (slice_index regs.old 7 % 2 ≡ 0) × (skips? cex ≡ true) × (0 < left) }
    ensures goes { (l p : ℕ) (m : List ℕ) → asleep? p ≡ false →
        Goes l regs.old p cex m regs.new p result.cex m (left - result.left) }
    ensures left { result.left < left }
{
    let u = unit(cex);
    let j = left.min((cex / u % 8) as u32) as u16;
    regs[7] = regs[7].wrapping_add(2 * j);
    Turned {
        cex: cex - j * u,
        left: left - j as u32,
        more: true,
    }
}

// Where no block is open: CEX; one step, or none.
// Kept: the CEX state as an Option costs a CEX two host instructions (docs/SPEED.md).
fn control(regs: &mut [u16; 8], mem: &[u8; 65536], kept: &Kept, cex: u16, left: u32) -> Turned
    requires { (cex % 64 ≡ 0) × (0 < left) }
    ensures goes { (l p : ℕ) → asleep? (held_in p kept.now) ≡ false →
        Goes l regs.old (held_in p kept.now) cex mem.now
        regs.new (held_in p kept.now) result.cex mem.now (left - result.left) }
    ensures left { (result.left ≤ left) × (result.more ≡ true → result.left < left) }
{
    let pc = regs[7];
    if pc % 2 == 1 {
        return Turned {
            cex,
            left,
            more: false,
        };
    }
    let w = memory::read_word(mem, memory::word_of(ByteAddr(pc)));
    if w / 1024 != 20 {
        return Turned {
            cex,
            left,
            more: false,
        };
    }
    let holds = word::flag(kept.condition((w / 64 % 16) as u8));
    regs[7] = pc.wrapping_add(2);
    Turned {
        cex: w % 64 + 64 * holds,
        left: left - 1,
        more: true,
    }
}

// One turn: steps that the open block skips, one that it covers, or steps with no block open and
// the word that ended them.
fn turn(
    regs: &mut [u16; 8],
    mem: &mut [u8; 65536],
    k: &[u16; 8],
    psw: &mut u16,
    free: bool,
    kept: &mut Kept,
    cex: u16,
    left: u32,
) -> Turned
    requires { (k.now ≡ constants) × Fetching regs.old (held_in psw.old kept.old) × (0 < left) }
    ensures goes { (l : ℕ) → FreeOf free l → Goes l regs.old
        (held_in psw.old kept.old)
        cex mem.old regs.new
        (held_in psw.new kept.new)
        result.cex mem.new (left - result.left) }
    ensures left { (result.left ≤ left) × (result.more ≡ true → result.left < left)
        × Awake regs.new
        (held_in psw.new kept.new) }
{
    let c = covered(cex, left);
    if c.left == 0 {
        return skipping(regs, cex, left);
    }
    let a = take_steps(regs, mem, k, psw, free, kept, c.cex, c.left);
    if cex % 64 == 0 {
        if a.left == 0 {
            return Turned {
                cex: a.cex,
                left: 0,
                more: false,
            };
        }
        return control(regs, mem, kept, a.cex, a.left);
    }
    if a.left == 1 {
        return Turned {
            cex,
            left,
            more: false,
        };
    }
    Turned {
        cex: a.cex,
        left: left - 1,
        more: true,
    }
}

// Up to n steps, fewer where a word is for the general way.
fn walk(
    regs: &mut [u16; 8],
    mem: &mut [u8; 65536],
    psw: u16,
    cex: u16,
    lines: Lines,
    n: u32,
) -> Progress
    requires { Awake regs.old psw }
    ensures goes { Goes lines regs.old psw cex mem.old
        regs.new result.psw result.cex mem.new (n - result.left) }
    ensures left { result.left ≤ n }
{
    let k: [u16; 8] = [0, 1, 2, 4, 8, 16, 32, 0xFFFF];
    let mut p = psw;
    let mut kept = flags::apart(psw);
    let free = lines == 0;
    let mut t = Turned {
        cex,
        left: n,
        more: true,
    };
    while t.more && 0 < t.left && regs[7] % 2 == 0 {
        t = turn(regs, mem, &k, &mut p, free, &mut kept, t.cex, t.left);
    }
    Progress {
        psw: kept.together(p),
        cex: t.cex,
        left: t.left,
    }
}

// Up to n steps of a machine that is not halted, before the end of which no event is due:
// instructions, or sleep, in which nothing changes but the count. None where a line waits above the
// priority.
pub fn stretch(
    regs: &mut [u16; 8],
    mem: &mut [u8; 65536],
    psw: u16,
    cex: u16,
    lines: Lines,
    n: u32,
) -> Progress
    ensures passes { (ev : List Event) (k : ℕ) → Undisturbed ev k (k + n) → Passes ev
        (running regs.old psw cex lines k mem.old)
        (running regs.new result.psw result.cex lines (k + (n - result.left)) mem.new)
        (n - result.left) }
    ensures left { result.left ≤ n }
{
    if entry::line_above(mem, lines, word::current_priority(psw)).is_some() {
        return Progress { psw, cex, left: n };
    }
    if word::asleep(psw) {
        return Progress { psw, cex, left: 0 };
    }
    walk(regs, mem, psw, cex, lines, n)
}
