// Steps that open or close a frame, taken at once where no line waits: a return, and SVC to a
// vector above the priority. Each is the whole step as the general way takes it.
#![tactic(auto)]

ghost use Rattle.std.specs.Prelude.{◌≡◌, ℕ, ◌+◌, ◌/◌, ◌%◌, ◌<◌, ◌≤◌, false, List, MatchOption, length, slice_index};
ghost use Rattle.word.specs.Psw.{asleep?};
ghost use Rattle.machine.specs.Memory.{word_at};
ghost use Rattle.stretch_memory.specs.Served.{running};
ghost use Rattle.frame_step.specs.Took.{Took};

use machine::Depth;

// What a step leaves beside registers and memory.
#[derive(Clone, Copy)]
pub struct Framed {
    pub psw: u16,
    pub cex: u16,
    pub depth: Depth,
}

// A return that pulls, where PC is 0xFFFF, the machine awake, and no line waits.
pub fn leave(regs: &mut [u16; 8], mem: &[u8; 65536], depth: Depth) -> Framed
    ensures step { (psw cex count k added : ℕ) (log : List ℕ) → asleep? psw ≡ false →
        slice_index regs.old 7 ≡ 65535 → added ≤ k → Took k
        (running regs.old psw cex 0 count mem.now) depth added log
        (running regs.new result.psw result.cex 0 (count + 1) mem.now)
        result.depth added log }
{
    let f = entry::pull(regs, mem);
    Framed {
        psw: f.psw,
        cex: f.cex,
        depth: frame_depth::pulled(depth),
    }
}

// SVC, w being its word, where no line waits and no CEX block is open. To a vector whose priority is
// not above the current one it is a fault, for the general way; nothing has changed then.
pub fn trap(
    regs: &mut [u16; 8],
    mem: &mut [u8; 65536],
    psw: u16,
    cex: u16,
    w: u16,
    depth: Depth,
) -> Option<Framed>
    requires { (depth.opened < 4294967295) × (w ≡ word_at mem.old (slice_index regs.old 7))
        × (w / 16 ≡ 1242) × (slice_index regs.old 7 % 2 ≡ 0) × (cex % 64 ≡ 0)
        × (asleep? psw ≡ false) }
    ensures { MatchOption result ((regs.new ≡ regs.old) × (mem.new ≡ mem.old))
        (λ f. (count k added : ℕ) (log : List ℕ) → added ≤ k → Took k
        (running regs.old psw cex 0 count mem.old) depth added log
        (running regs.new f.psw f.cex 0 (count + 1) mem.new)
        f.depth added log) }
{
    let v = (w % 16) as u8;
    if entry::priority_of(mem, v) <= word::current_priority(psw) {
        return None;
    }
    regs[7] = regs[7].wrapping_add(2);
    let p = entry::enter(regs, mem, psw, cex, v, false);
    Some(Framed {
        psw: p,
        cex: 0,
        depth: frame_depth::pushed(depth),
    })
}
