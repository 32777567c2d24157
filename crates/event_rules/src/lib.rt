// The rules of an event list: its length, the fields of its records, their order, twins; and the first
// of them that a list breaks.
#![tactic(auto)]

ghost use Rattle.std.specs.Prelude.{◌≡◌, true, false, cond, List, ℕ, suc, ◌+◌, ◌*◌, ◌<◌, ◌≤◌, ltb, length, drop};
ghost use Rattle.word.specs.Psw.{bit_of, put_bit};
ghost use Rattle.machine.specs.Events.{event_count};
ghost use Rattle.machine.specs.Refusal.{events_fit, rules_of, first_broken};
ghost use Rattle.machine.specs.Refusal.{event_fits, events_fit_below, in_order, in_order_below};
ghost use Rattle.machine.specs.Refusal.{twins_below};
ghost use Rattle.devices.specs.Cursor.{Ordered};

use devices::step_at;
use little_endian::{four_at, two_at};
use machine::{Refusal, Verdict};

// Rule 5: a multiple of 8 bytes, at most 4,096 records.
fn events_fit(n: usize) -> bool
    ensures { result ≡ events_fit n }
{
    n % 8 == 0 && n <= 32768
}

// Rule 6, of record k: device at most 7, bytes 6-7 zero.
fn event_fits(events: &[u8], k: usize) -> bool
    requires { 8 * k + 8 ≤ length events.now }
    ensures { result ≡ event_fits events.now k }
{
    events[8 * k + 4] < 8 && two_at(events, 8 * k + 6) == 0
}

// Rule 6, of the first `count` records.
fn fields_fit(events: &[u8], count: usize) -> bool
    requires { 8 * count ≤ length events.now }
    ensures { result ≡ events_fit_below events.now count }
{
    for k in 0..count {
        if !event_fits(events, k) {
            return false;
        }
    }
    true
}

// Rule 7, of record k and the one after it: the step does not fall.
fn in_order(events: &[u8], k: usize) -> bool
    requires { 8 * k + 16 ≤ length events.now }
    ensures { result ≡ in_order events.now k }
{
    four_at(events, 8 * k) <= four_at(events, 8 * (k + 1))
}

// Rule 7: how many records come before the first that breaks it, all of them where none does.
fn records_in_order(events: &[u8]) -> usize
    ensures within { result ≤ event_count events.now }
    ensures before { in_order_below events.now result ≡ true }
    ensures first { result < event_count events.now
        → in_order_below events.now (suc result) ≡ false }
{
    let n = events.len() / 8;
    for k in 1..n {
        if !in_order(events, k - 1) {
            return k;
        }
    }
    n
}

// The marks of a record's step, from those of the step before it in the list: none is set yet where
// the step has risen.
fn marks_on(step: u32, before: u32, marks: u8) -> u8
    ensures { result ≡ cond (ltb before step) 0 marks }
{
    if before < step { 0 } else { marks }
}

// Is the mark of device d set?
fn marked(marks: u8, d: u8) -> bool
    requires { d < 8 }
    ensures { result ≡ bit_of d marks }
{
    (marks >> d) % 2 == 1
}

// The marks with that of device d set.
fn mark(marks: u8, d: u8) -> u8
    requires { d < 8 }
    ensures { result ≡ put_bit d marks true }
{
    marks | 1 << d
}

// Rule 13: do two records share step and device? One pass that marks the devices of the current
// step, which finds them in every list in order, since the records of a step stand together there.
fn has_twins(events: &[u8]) -> bool
    requires { events_fit_below events.now (event_count events.now) ≡ true }
    ensures { Ordered events.now
        → result ≡ twins_below events.now (event_count events.now) }
{
    let mut before: u32 = 0;
    let mut marks: u8 = 0;
    for k in 0..events.len() / 8 {
        let step = step_at(events, k);
        let device = events[8 * k + 4];
        marks = marks_on(step, before, marks);
        if marked(marks, device) {
            return true;
        }
        marks = mark(marks, device);
        before = step;
    }
    false
}

// Are all records fit, each of a later step than the one before it? Then the list breaks no rule.
fn rising(events: &[u8]) -> bool
    ensures { result ≡ true
        → (events_fit_below events.now (event_count events.now) ≡ true)
        × (in_order_below events.now (event_count events.now) ≡ true)
        × (twins_below events.now (event_count events.now) ≡ false) }
{
    let mut least: u64 = 0;
    for k in 0..events.len() / 8 {
        if !event_fits(events, k) {
            return false;
        }
        let step = step_at(events, k) as u64;
        if step < least {
            return false;
        }
        least = step + 1;
    }
    true
}

// The first rule of a start that the event list breaks, where none before them is broken. It stands
// apart from the others, since a call with few steps then compiles best.
pub fn events_verdict(events: &[u8]) -> Verdict
    ensures { (memory r : List ℕ) (n : ℕ)
        → result ≡ first_broken (drop 5 (rules_of memory r events.now n)) }
{
    if !events_fit(events.len()) {
        return Err(Refusal::EventsLength);
    }
    if rising(events) {
        return Ok(());
    }
    let count = events.len() / 8;
    let ordered = records_in_order(events);
    let fit = fields_fit(events, count);
    if !fit {
        return Err(Refusal::EventFields);
    }
    let twins = has_twins(events);
    if ordered < count {
        return Err(Refusal::EventOrder);
    }
    if twins {
        return Err(Refusal::EventTwins);
    }
    Ok(())
}
