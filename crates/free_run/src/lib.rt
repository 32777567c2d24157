// A run in which no event is due: stretches, and between them, where no line waits, the steps that
// open or close a frame or show a byte, as long as they can be taken at once.
#![tactic(auto)]

ghost use Rattle.std.specs.Prelude.{false, ◌≡◌, ◌+◌, ◌-◌, ◌/◌, ◌%◌, ◌<◌, ◌≤◌, MatchOption, length, get_or};
ghost use Rattle.word.specs.Psw.{asleep?};
ghost use Rattle.stretch_memory.specs.Served.{running};
ghost use Rattle.frame_step.specs.Took.{Took};
ghost use Rattle.show_step.specs.Steps.{Same};
ghost use Rattle.free_run.specs.Free.{Goes};

use machine::{ByteAddr, Depth, Lines};

// What a free run leaves beside registers, memory and log; `left` are the steps that it did not do.
#[derive(Clone, Copy)]
pub struct Freed {
    pub psw: u16,
    pub cex: u16,
    pub left: u32,
    pub depth: Depth,
    pub added: usize,
}

// What a step between two stretches leaves.
#[derive(Clone, Copy)]
struct Went {
    psw: u16,
    cex: u16,
    depth: Depth,
    added: usize,
}

// One step by its word, no line waiting and no CEX block open, if it is one of these; else nothing
// has changed.
fn fetched(
    regs: &mut [u16; 8],
    mem: &mut [u8; 65536],
    log: &mut [u8],
    count: u32,
    psw: u16,
    cex: u16,
    depth: Depth,
    added: usize,
) -> Option<Went>
    requires { (depth.opened < 4294967295) × (added ≤ length log.old / 8)
        × (get_or regs.old 7 0 % 2 ≡ 0) × (cex % 64 ≡ 0) × (asleep? psw ≡ false) }
    ensures { MatchOption result (Same regs.old mem.old log.old regs.new mem.new log.new)
        (λ w. Took (length log.old / 8)
        (running regs.old psw cex 0 count mem.old) depth added log.old
        (running regs.new w.psw w.cex 0 (count + 1) mem.new) w.depth w.added log.new) }
{
    let w = memory::read_word(mem, memory::word_of(ByteAddr(regs[7])));
    if 0xC000 <= w {
        let added = show_step::show(regs, mem, log, count, w, added)?;
        return Some(Went {
            psw,
            cex,
            depth,
            added,
        });
    }
    if w / 16 == 0x4DA {
        let f = frame_step::trap(regs, mem, psw, cex, w, depth)?;
        let depth = f.depth;
        return Some(Went {
            psw: f.psw,
            cex: f.cex,
            depth,
            added,
        });
    }
    if w / 1024 == 23 {
        let added = show_step::show_indexed(regs, mem, log, count, w, added)?;
        return Some(Went {
            psw,
            cex,
            depth,
            added,
        });
    }
    None
}

// One step where a stretch ends, if it is one of these and no line waits.
fn between(
    regs: &mut [u16; 8],
    mem: &mut [u8; 65536],
    log: &mut [u8],
    count: u32,
    psw: u16,
    cex: u16,
    lines: Lines,
    depth: Depth,
    added: usize,
) -> Option<Went>
    requires { (depth.opened < 4294967295) × (added ≤ length log.old / 8) }
    ensures { MatchOption result (Same regs.old mem.old log.old regs.new mem.new log.new)
        (λ w. Took (length log.old / 8)
        (running regs.old psw cex lines count mem.old) depth added log.old
        (running regs.new w.psw w.cex lines (count + 1) mem.new) w.depth w.added log.new) }
{
    if (lines != 0) | (cex % 64 != 0) | word::asleep(psw) {
        return None;
    }
    if regs[7] == 0xFFFF {
        let f = frame_step::leave(regs, mem, depth);
        let depth = f.depth;
        return Some(Went {
            psw: f.psw,
            cex: f.cex,
            depth,
            added,
        });
    }
    if regs[7] % 2 == 1 {
        return None;
    }
    fetched(regs, mem, log, count, psw, cex, depth, added)
}

// Up to n steps of a machine that is not halted, before the end of which no event is due, fewer
// where a step is for the general way.
pub fn run_free(
    regs: &mut [u16; 8],
    mem: &mut [u8; 65536],
    log: &mut [u8],
    psw: u16,
    cex: u16,
    lines: Lines,
    count: u32,
    depth: Depth,
    added: usize,
    n: u32,
) -> Freed
    requires { (count + n ≤ 4294967295) × (depth.opened + n ≤ 4294967295) × (added ≤ length log.old / 8) }
    ensures goes { Goes n
        (running regs.old psw cex lines count mem.old)
        depth added log.old
        (running regs.new result.psw result.cex lines (count + (n - result.left))
        mem.new)
        result.depth result.added log.new (n - result.left) }
    ensures left { result.left ≤ n }
{
    let mut t = Went {
        psw,
        cex,
        depth,
        added,
    };
    let mut left = n;
    // Kept: no count over a range, since a turn's stretch does many steps.
    while 0 < left {
        let d = t.depth;
        let there = t.added;
        let q = stretch::stretch(regs, mem, t.psw, t.cex, lines, left);
        left = q.left;
        t.psw = q.psw;
        t.cex = q.cex;
        if left == 0 {
            break;
        }
        let i = count + (n - left);
        let Some(w) = between(regs, mem, log, i, q.psw, q.cex, lines, d, there) else {
            break;
        };
        t = w;
        left -= 1;
    }
    let depth = t.depth;
    Freed {
        psw: t.psw,
        cex: t.cex,
        left,
        depth,
        added: t.added,
    }
}
