// Events: each is applied on its step, by an index into the list that only moves forward.
#![tactic(auto)]

ghost use Rattle.std.specs.Prelude.{◌≡◌, Bool, true, ℕ, ◌+◌, ◌*◌, ◌^◌, ◌<◌, ◌≤◌, length};
ghost use Rattle.machine.specs.State.{Core};
ghost use Rattle.machine.specs.Memory.{commit};
ghost use Rattle.machine.specs.Events.{event_at, event_count, events_of};
ghost use Rattle.machine.specs.Devices.{event_status, events_waiting, waiting, raised, fallen};
ghost use Rattle.machine.specs.Devices.{event_writes, event_on, deliver_at};
ghost use Rattle.machine.specs.Refusal.{events_fit_below};
ghost use Rattle.devices.specs.Cursor.{Behind, Ordered, state_from, event_of};

use machine::Lines;

// The lines after an event or a list of them, and the index of the first record not yet due.
#[derive(Clone, Copy)]
pub struct Delivered {
    pub lines: Lines,
    pub next: usize,
}

// An event: its step, its device and the byte that it brings.
#[derive(Clone, Copy)]
pub struct Event {
    pub step: u32,
    pub device: u8,
    pub byte: u8,
}

// One event of device d, as the lines count it.
fn one_event(d: u8) -> Lines
    requires { d < 8 }
    ensures { result ≡ 2 ^ (4 * d) }
{
    1 << (4 * d)
}

// How many events of device d wait?
pub fn events_waiting(lines: Lines, d: u8) -> Lines
    requires { d < 8 }
    ensures { result ≡ events_waiting lines d }
{
    (lines >> (4 * d)) % 16
}

// Does the line of device d wait?
pub fn waits(lines: Lines, d: u8) -> bool
    requires { d < 8 }
    ensures { result ≡ waiting lines d }
{
    0 < events_waiting(lines, d)
}

// The lines with one event of device d more, unless it has 15, or with one taken.
fn raise(lines: Lines, d: u8) -> Lines
    requires { d < 8 }
    ensures { result ≡ raised lines d }
{
    if events_waiting(lines, d) < 15 {
        return lines + one_event(d);
    }
    lines
}

pub fn fall(lines: Lines, d: u8) -> Lines
    requires { d < 8 }
    ensures { result ≡ fallen lines d }
{
    if waits(lines, d) {
        return lines - one_event(d);
    }
    lines
}

// A status byte after an event: OF if DBA was set, then DBA.
fn event_status(t: u8) -> u8
    ensures { result ≡ event_status t }
{
    if t / 4 % 2 == 1 {
        return t / 16 * 16 + 12 + t % 4;
    }
    t / 8 * 8 + 4 + t % 4
}

// The writes of an event on an enabled device whose status byte is t.
fn receive(mem: &mut [u8; 65536], e: Event, t: u8)
    requires { e.device < 8 }
    ensures { mem.new ≡ commit (event_writes (event_of e) t) mem.old }
{
    let i = 2 * e.device as usize;
    if t / 2 % 2 == 1 {
        mem[i + 1] = e.byte;
    }
    mem[i] = event_status(t);
}

// One event: the lines after it. A device with ENA clear is left alone.
fn event_on(mem: &mut [u8; 65536], lines: Lines, e: Event) -> Lines
    requires { e.device < 8 }
    ensures { (c : Core) (h : Bool) (n : ℕ) → state_from c result h n mem.new
        ≡ event_on (event_of e) (state_from c lines h n mem.old) }
{
    let t = mem[2 * e.device as usize];
    if t / 16 % 2 != 1 {
        return lines;
    }
    receive(mem, e, t);
    if t % 2 == 1 {
        return raise(lines, e.device);
    }
    lines
}

// The step of record k.
pub fn step_at(events: &[u8], k: usize) -> u32
    requires { 8 * k + 8 ≤ length events.now }
    ensures { result ≡ (event_at events.now k).step }
{
    little_endian::four_at(events, 8 * k)
}

// The event of record k.
pub fn event_at(events: &[u8], k: usize) -> Event
    requires { 8 * k + 8 ≤ length events.now }
    ensures { event_of result ≡ event_at events.now k }
{
    Event {
        step: step_at(events, k),
        device: events[8 * k + 4],
        byte: events[8 * k + 5],
    }
}

// Applies the events due at step `count`, from record `next` on; earlier ones are passed over.
pub fn deliver(
    mem: &mut [u8; 65536],
    events: &[u8],
    next: usize,
    count: u32,
    lines: Lines,
) -> Delivered
    requires behind_2 { Behind events.now next count }
    requires ordered { Ordered events.now }
    requires events_value { events_fit_below events.now (event_count events.now) ≡ true }
    ensures state { (c : Core) (h : Bool)
        → state_from c result.lines h count mem.new
        ≡ deliver_at count (events_of events.now)
        (state_from c lines h count mem.old) }
    ensures behind { Behind events.now result.next (count + 1) }
{
    let n = events.len() / 8;
    let mut l = lines;
    for at in next..n {
        let e = event_at(events, at);
        if count < e.step {
            return Delivered { lines: l, next: at };
        }
        if e.step == count {
            l = event_on(mem, l, e);
        }
    }
    Delivered { lines: l, next: n }
}
