// A run of n steps that is traced: one step with its records, a stretch, and the loop of both.
#![tactic(auto)]

ghost use Rattle.std.specs.Prelude.{◌≡◌, true, false, List, ℕ, ◌+◌, ◌*◌, ◌<◌, ◌≤◌, ltb, length, MatchOption};
ghost use Rattle.machine.specs.State.{state_of, state_with};
ghost use Rattle.machine.specs.Events.{events_of, event_count};
ghost use Rattle.machine.specs.Refusal.{events_fit_below};
ghost use Rattle.devices.specs.Cursor.{Ordered};
ghost use Rattle.turn.specs.Due.{Awaits};
ghost use Rattle.trace.specs.Trace.{entry};
ghost use Rattle.trace.specs.Traced.{run_traced, reason_traced};
ghost use Rattle.trace.specs.Before.{Apart};
ghost use Rattle.trace.specs.Call.{room_of, trace_after};
ghost use Rattle.trace_record.specs.Written.{entry_with};
ghost use Rattle.trace_run.specs.Reached.{Turn, sparse?};

use machine::{Machine, Reason, Rest};
use trace_record::{Before, asks};
use turn::Awaited;

// Are only kinds asked for that no stretch has?
fn sparse(kinds: u32) -> bool
    ensures { result ≡ sparse? kinds }
{
    !(asks(kinds, 4) | asks(kinds, 7) | asks(kinds, 9) | asks(kinds, 10) | asks(kinds, 11))
}

// Would so many more records pass the room?
fn lacks(room: usize, added: usize, more: usize) -> bool
    requires { added ≤ room }
    ensures { result ≡ ltb room (added + more) }
{
    room - added < more
}

// What a step leaves besides the registers: the rest of the machine, the event record then awaited,
// the records there.
#[derive(Clone, Copy)]
pub struct Turned {
    pub rest: Rest,
    pub at: Awaited,
    pub added: usize,
}

// One step and its records, behind those that are there, if there is room for them. A step that is
// not taken gives back the device bytes that its events changed; the registers that its plan changed
// are the caller's.
fn step_traced(
    regs: &mut [u16; 8],
    t: Rest,
    b: Before,
    memory: &mut [u8; 65536],
    events: &[u8],
    at: Awaited,
    trace: &mut [u8],
    added: usize,
    room: usize,
    kinds: u32,
) -> Option<Turned>
    requires { record {
      live : t.halted ≡ false;
      counts : t.count < 4294967295;
      starts : ((y : List ℕ) (k n a z : ℕ)
          → entry_with b k n a z ≡ entry (state_with regs.old t y) k n a z);
      awaits : Awaits events.now at.next at.due t.count;
      ordered : Ordered events.now;
      fit : events_fit_below events.now (event_count events.now) ≡ true;
      apart : Apart (events_of events.now);
      within : added ≤ room;
      roomy : 16 * room ≤ length trace.old;
    } }
    ensures { MatchOption result
        (Turn kinds (events_of events.now) room
        (state_with regs.old t memory.old) added trace.old
        (state_with regs.new t memory.new) added trace.new true)
        (λ x. (Turn kinds (events_of events.now) room
        (state_with regs.old t memory.old) added trace.old
        (state_with regs.new x.rest memory.new) x.added trace.new false)
        × Awaits events.now x.at.next x.at.due x.rest.count) }
{
    let mut bytes: [u8; 16] = [0; 16];
    let wanted = at.due <= t.count as u64;
    output_log::keep(memory, wanted, &mut bytes);
    let d = turn::deliver_due(memory, events, at, t.count, t.lines);
    let p = step_plan::plan(regs, memory, t, d.lines);
    let act = p.act;
    let more = trace_step::needed(kinds, wanted, events, at.next, t.count, act);
    if lacks(room, added, more) {
        output_log::put_back(memory, wanted, &bytes);
        return None;
    }
    let seen = trace_record::seen_by(memory, act);
    let u = step::perform(regs, memory, d.lines, t.count, p);
    let next = d.at;
    let there = trace_step::add_step(
        trace, added, b, kinds, wanted, events, at.next, &bytes, t.lines, act, seen, regs[7], u.psw,
    );
    Some(Turned {
        rest: u,
        at: next,
        added: there,
    })
}

// The machine that a traced run leaves, why it ended, the steps done and the records added.
#[derive(Clone, Copy)]
pub struct Ran {
    pub machine: Machine,
    pub reason: Reason,
    pub steps: u32,
    pub added: usize,
}

// A run of n steps, fewer if the machine halts or the trace has no room for what a step would add.
// Each turn is one step and then, where no kind asked for is one of a stretch's, a stretch.
pub fn run_traced(
    m: Machine,
    memory: &mut [u8; 65536],
    events: &[u8],
    trace: &mut [u8],
    kinds: u32,
    n: u32,
) -> Ran
    requires { record {
      counts : m.rest.count + n ≤ 4294967295;
      ordered : Ordered events.now;
      fit : events_fit_below events.now (event_count events.now) ≡ true;
      apart : Apart (events_of events.now);
    } }
    ensures state { state_of result.machine memory.new
        ≡ (run_traced kinds (events_of events.now) (state_of m memory.old)
        (room_of trace.old) n).state }
    ensures reason { result.reason
        ≡ reason_traced (run_traced kinds (events_of events.now)
        (state_of m memory.old) (room_of trace.old) n) }
    ensures steps { result.steps
        ≡ (run_traced kinds (events_of events.now) (state_of m memory.old)
        (room_of trace.old) n).steps }
    ensures added { result.added
        ≡ length (run_traced kinds (events_of events.now)
        (state_of m memory.old) (room_of trace.old) n).records }
    ensures trace { trace.new ≡ trace_after trace.old
        (run_traced kinds (events_of events.now) (state_of m memory.old)
        (room_of trace.old) n) }
{
    let room = trace.len() / 16;
    let quiet = sparse(kinds);
    let mut regs = m.regs;
    let mut t = m.rest;
    let mut at = turn::awaiting(events, 0);
    let mut done: u32 = 0;
    let mut added: usize = 0;
    let mut short = false;
    // Kept: no count over a range, since a turn's stretch does many steps.
    while (done < n) & !t.halted {
        let held = Machine { regs, rest: t };
        let b = trace_record::start_of(held);
        let Some(x) = step_traced(
            &mut regs, t, b, memory, events, at, trace, added, room, kinds,
        ) else {
            regs = held.regs;
            short = true;
            break;
        };
        t = x.rest;
        at = x.at;
        added = x.added;
        done += 1;
        let j = turn::at_once(!quiet | t.halted, t.count, at.due, n - done);
        if 0 < j {
            let q = stretch::stretch(&mut regs, memory, t.psw, t.cex, t.lines, j);
            t = turn::gone_on(t, j, q);
            done += j - q.left;
        }
    }
    Ran {
        machine: Machine { regs, rest: t },
        reason: turn::reason_of(t.halted, short),
        steps: done,
        added,
    }
}
