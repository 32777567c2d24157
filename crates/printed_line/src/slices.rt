// The run that is printed, lent a log long enough: in slices over a short log, whose records are
// let go between them.
ghost use Rattle.std.specs.Prelude.{◌≡◌, true, ◌+◌, ◌≤◌, length};
ghost use Rattle.machine.specs.State.{state_of};
ghost use Rattle.machine.specs.Events.{events_of, event_count};
ghost use Rattle.machine.specs.Refusal.{events_fit_below};
ghost use Rattle.machine.specs.Run.{ran, run_of};
ghost use Rattle.machine.specs.Depth.{deepest_from};
ghost use Rattle.devices.specs.Cursor.{Ordered};
ghost use Rattle.printed_line.specs.Slices.{out_of_room};

use machine::{Depth, Machine, Reason};

// The machine that a run leaves, the steps done, and the most frames that were open together.
#[derive(Clone, Copy)]
pub struct Whole {
    pub machine: Machine,
    pub steps: u32,
    pub deepest: u32,
}

// Did a run end for want of room?
fn out_of_room(x: Reason) -> bool
    ensures { result ≡ out_of_room x }
{
    matches!(x, Reason::NoRoom)
}

// A run of n steps, fewer if the machine halts. Each slice goes on at the event record that the one
// before it had reached, and as deep as it was.
pub fn run_whole(m: Machine, memory: &mut [u8; 65536], events: &[u8], n: u32) -> Whole
    requires { (m.rest.count + n ≤ 4294967295) × Ordered events.now
        × (events_fit_below events.now (event_count events.now) ≡ true) }
    ensures run { ran (state_of result.machine memory.new) result.steps
        ≡ run_of (events_of events.now) (state_of m memory.old) n }
    ensures deepest { result.deepest ≡ deepest_from (events_of events.now)
        (state_of m memory.old) result.steps }
{
    let mut log: [u8; 512] = [0; 512];
    let mut machine = m;
    let mut next: usize = 0;
    let mut depth = Depth {
        opened: 0,
        deepest: 0,
    };
    let mut done: u32 = 0;
    // Kept: a slice does as many steps as its log has room for, so no range counts them.
    while done < n {
        let r = xm23_run::run(machine, memory, events, next, &mut log, depth, n - done);
        machine = r.machine;
        next = r.next;
        depth = r.depth;
        done += r.steps;
        if !out_of_room(r.reason) {
            break;
        }
    }
    Whole {
        machine,
        steps: done,
        deepest: depth.deepest,
    }
}
