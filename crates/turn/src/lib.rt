// What one turn of a run's loop is made of: the event that it awaits and the events due at a step, how
// many steps a stretch may do at once and the machine after it, and why a run ended.
#![tactic(auto)]

ghost use Rattle.std.specs.Prelude.{◌≡◌, Bool, true, cond, ◌+◌, ◌-◌, ◌≤◌, length};
ghost use Rattle.machine.specs.declared.Reason.TheVariants.{Done, Halted, NoRoom};
ghost use Rattle.machine.specs.State.{Core};
ghost use Rattle.machine.specs.Events.{events_of, event_count};
ghost use Rattle.machine.specs.Devices.{deliver_at};
ghost use Rattle.machine.specs.Refusal.{events_fit_below};
ghost use Rattle.machine.specs.Run.{reason_number};
ghost use Rattle.devices.specs.Cursor.{Ordered, state_from};
ghost use Rattle.turn.specs.Due.{due_of, Awaits};

use machine::{Lines, Reason, Rest};
use stretch::Progress;

// The step of record k, past every step where there is none.
// Kept: a number past every step makes the test of each step one comparison; an Option makes it two.
pub fn due_at(events: &[u8], k: usize) -> u64
    ensures { result ≡ due_of events.now k }
{
    if k < events.len() / 8 {
        return devices::step_at(events, k) as u64;
    }
    4294967296
}

// The first event record not behind, and its step.
#[derive(Clone, Copy)]
pub struct Awaited {
    pub next: usize,
    pub due: u64,
}

// The lines after the events of a step, and the record then awaited.
#[derive(Clone, Copy)]
pub struct Delivery {
    pub lines: Lines,
    pub at: Awaited,
}

// The record awaited from record k on.
pub fn awaiting(events: &[u8], k: usize) -> Awaited
    ensures { (result.next ≡ k) × (result.due ≡ due_of events.now k) }
{
    Awaited {
        next: k,
        due: due_at(events, k),
    }
}

// Point 1 of step `count`: applies the events that are due; where none is, looks at no record.
pub fn deliver_due(
    memory: &mut [u8; 65536],
    events: &[u8],
    at: Awaited,
    count: u32,
    lines: Lines,
) -> Delivery
    requires { Awaits events.now at.next at.due count × Ordered events.now
        × (events_fit_below events.now (event_count events.now) ≡ true) }
    ensures state { (c : Core) (h : Bool)
        → state_from c result.lines h count memory.new
        ≡ deliver_at count (events_of events.now)
        (state_from c lines h count memory.old) }
    ensures awaits { Awaits events.now result.at.next result.at.due (count + 1) }
{
    if (count as u64) < at.due {
        return Delivery { lines, at };
    }
    let d = devices::deliver(memory, events, at.next, count, lines);
    let next = awaiting(events, d.next);
    Delivery {
        lines: d.lines,
        at: next,
    }
}

// How many steps a stretch may do at once, at most `left`: those before the next event is due, none
// where there is to be no stretch.
pub fn at_once(none: bool, count: u32, due: u64, left: u32) -> u32
    ensures { (result ≤ left) × (result ≤ due - count) × (none ≡ true → result ≡ 0) }
{
    let c = count as u64;
    if none | (due <= c) {
        return 0;
    }
    if due - c < left as u64 {
        return (due - c) as u32;
    }
    left
}

// The machine after a stretch that might have had n steps.
pub fn gone_on(t: Rest, n: u32, p: Progress) -> Rest
    requires { (p.left ≤ n) × (t.count + n ≤ 4294967295) }
    ensures { result ≡ record {
      psw = p.psw;
      cex = p.cex;
      lines = t.lines;
      halted = t.halted;
      count = t.count + (n - p.left);
    } }
{
    Rest {
        psw: p.psw,
        cex: p.cex,
        lines: t.lines,
        halted: t.halted,
        count: t.count + (n - p.left),
    }
}

// Why a run ended.
pub fn reason_of(halted: bool, short: bool) -> Reason
    ensures { result ≡ cond short NoRoom (cond halted Halted Done) }
{
    if short {
        return Reason::NoRoom;
    }
    if halted {
        return Reason::Halted;
    }
    Reason::Done
}

// The number of a reason.
// Kept: the numbers are those of the reply to C.
pub fn reason_number(x: Reason) -> u64
    ensures { (result ≡ reason_number x) × (result ≤ 2) }
{
    match x {
        Reason::Done => 0,
        Reason::Halted => 1,
        Reason::NoRoom => 2,
    }
}
