// The records of a step: how many it needs, and those of its events and of its act, written behind
// those that are there.
#![tactic(auto)]

ghost use Rattle.std.specs.Prelude.{◌≡◌, true, ℕ, ◌+◌, ◌*◌, ◌<◌, ◌≤◌, List, length};
ghost use Rattle.std.proofs.lemmas.List.Edits.{sets};
ghost use Rattle.machine.specs.State.{State};
ghost use Rattle.machine.specs.Events.{events_of, event_count};
ghost use Rattle.machine.specs.Refusal.{events_fit_below};
ghost use Rattle.devices.specs.Cursor.{Behind, Ordered, event_of};
ghost use Rattle.trace.specs.Trace.{entry_bytes, trace_bytes, effect_bits, event_entry};
ghost use Rattle.trace.specs.Before.{events_before};
ghost use Rattle.trace_record.specs.declared.Before.{Before};
ghost use Rattle.trace_step.specs.Steps.{as_seen, step_written};

use devices::{Event, event_at, events_waiting, step_at};
use machine::{Act, Lines};
use trace_record::{Before, Told, add_act, asks, kind_of, put_record};

// What an event does to a device with this status byte, so many of its events waiting.
fn event_bits(t: u8, waiting: Lines) -> u16
    ensures { result ≡ effect_bits t waiting }
{
    if t / 16 % 2 != 1 {
        return 0;
    }
    1 + 2 * (t / 4 % 2 == 1) as u16 + 4 * (t % 2 == 1) as u16 + 8 * (waiting == 15) as u16
}

// How many events are due at step `count`, from record `next` on; earlier ones are passed over.
pub fn count_due(events: &[u8], next: usize, count: u32) -> usize
    requires { Behind events.now next count × Ordered events.now }
    ensures { ((s : State)
        → result ≡ length (events_before s count (events_of events.now)))
        × (result ≤ length events.now) }
{
    let n = events.len() / 8;
    let mut due: usize = 0;
    for at in next..n {
        let step = step_at(events, at);
        if count < step {
            return due;
        }
        if step == count {
            due += 1;
        }
    }
    due
}

// An event written as record k of the trace, the device's bytes and count as before the step; the
// other bytes stay.
fn add_event(trace: &mut [u8], k: usize, b: Before, e: Event, devices: &[u8; 16], lines: Lines)
    requires { (16 * k + 16 ≤ length trace.old) × (e.device < 8) }
    ensures { trace.new ≡ sets trace.old (16 * k)
        (entry_bytes (event_entry (as_seen b devices.now lines)
        (as_seen b devices.now lines) (event_of e))) }
{
    let t = devices[2 * e.device as usize];
    let told = Told {
        number: e.device,
        address: event_bits(t, events_waiting(lines, e.device)),
        value: e.byte as u16,
    };
    put_record(trace, k, b, 0, told);
}

// The records of the events due at a step added after k records, from record `next` of the list
// on: each device's bytes and count are those before the step. The records then there.
pub fn add_events(
    trace: &mut [u8],
    k: usize,
    b: Before,
    events: &[u8],
    next: usize,
    devices: &[u8; 16],
    lines: Lines,
) -> usize
    requires { Behind events.now next b.step × Ordered events.now
        × (events_fit_below events.now (event_count events.now) ≡ true)
        × (16 * (k + length (events_before (as_seen b devices.now lines) b.step (events_of
        events.now))) ≤ length trace.old) }
    ensures added { result ≡ k + length (events_before (as_seen b devices.now lines)
        b.step (events_of events.now)) }
    ensures trace { trace.new ≡ sets trace.old (16 * k)
        (trace_bytes (events_before (as_seen b devices.now lines) b.step
        (events_of events.now))) }
{
    let n = events.len() / 8;
    let mut added = k;
    for at in next..n {
        let e = event_at(events, at);
        if b.step < e.step {
            return added;
        }
        if e.step == b.step {
            add_event(trace, added, b, e, devices, lines);
            added += 1;
        }
    }
    added
}

// The records that a step adds after k records, written: those of its events, if some are due and
// asked for, and that of its act. The records then there.
pub fn add_step(
    trace: &mut [u8],
    k: usize,
    b: Before,
    kinds: u32,
    wanted: bool,
    events: &[u8],
    next: usize,
    devices: &[u8; 16],
    lines: Lines,
    a: Act,
    seen: u16,
    pc: u16,
    psw: u16,
) -> usize
    requires { Behind events.now next b.step × Ordered events.now
        × (events_fit_below events.now (event_count events.now) ≡ true)
        × (16 * (k + length (step_written b kinds wanted devices.now lines (events_of events.now) a
        seen pc psw)) ≤ length trace.old) }
    ensures added { result ≡ k + length (step_written b kinds wanted devices.now lines
        (events_of events.now) a seen pc psw) }
    ensures trace { trace.new ≡ sets trace.old (16 * k)
        (trace_bytes (step_written b kinds wanted devices.now lines
        (events_of events.now) a seen pc psw)) }
{
    if wanted & asks(kinds, 0) {
        let j = add_events(trace, k, b, events, next, devices, lines);
        return add_act(trace, j, b, kinds, a, seen, pc, psw);
    }
    add_act(trace, k, b, kinds, a, seen, pc, psw)
}

// How many records a step adds.
pub fn needed(kinds: u32, wanted: bool, events: &[u8], next: usize, count: u32, a: Act) -> usize
    requires { Behind events.now next count × Ordered events.now }
    ensures { (b : Before) (m : List ℕ) (l x p w : ℕ) → b.step ≡ count
        → result ≡ length (step_written b kinds wanted m l (events_of events.now) a x p w) }
{
    let act = asks(kinds, kind_of(a)) as usize;
    if wanted & asks(kinds, 0) {
        let due = count_due(events, next, count);
        return due + act;
    }
    act
}
