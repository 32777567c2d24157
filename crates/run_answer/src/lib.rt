// What a run answers: how it has ended, and that as a reply.
#![tactic(auto)]

ghost use Rattle.std.specs.Prelude.{◌≡◌, cond, not, ◌&&◌, ◌≤◌, ltb};
ghost use Rattle.machine.specs.declared.Reason.TheVariants.{Done, Halted, NoRoom};
ghost use Rattle.machine.specs.Run.{reason_number};
ghost use Rattle.machine.specs.Call.{reply_number};

use journal_record::Ring;
use machine::{Depth, Machine, Reason, Rest};

// The machine that a run leaves, why it ended, the steps done, the log records added, the first
// event record that is not behind, how deep the run is and went, and the journal's two numbers.
#[derive(Clone, Copy)]
pub struct Ran {
    pub machine: Machine,
    pub reason: Reason,
    pub steps: u32,
    pub added: usize,
    pub next: usize,
    pub depth: Depth,
    pub ring: Ring,
}

// The answer of a run of n steps that has come to this and goes no further; its machine is put
// together. One that has steps to do and is not halted has given up a step for want of room.
pub fn ended(
    regs: [u16; 8],
    t: Rest,
    n: u32,
    done: u32,
    added: usize,
    next: usize,
    depth: Depth,
    ring: Ring,
) -> Ran
    ensures { result ≡ record {
      machine = record { regs = regs; rest = t };
      reason = cond (ltb done n && not t.halted) NoRoom (cond t.halted Halted Done);
      steps = done;
      added = added;
      next = next;
      depth = depth;
      ring = ring;
    } }
{
    let short = (done < n) & !t.halted;
    Ran {
        machine: Machine { regs, rest: t },
        reason: turn::reason_of(t.halted, short),
        steps: done,
        added,
        next,
        depth,
        ring,
    }
}

// What a run replies: reason, steps and log records, each in its bits.
pub fn reply_of(r: Ran) -> u64
    requires { (r.steps ≤ 1000000) × (r.added ≤ 1000000) }
    ensures { result ≡ reply_number 0 (reason_number r.reason) r.steps r.added }
{
    let reason = r.reason;
    256 * turn::reason_number(reason) + 65536 * r.steps as u64 + 1099511627776 * r.added as u64
}
