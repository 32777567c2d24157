// Whether a run's buffers and step count are accepted, or the first rule that they break; `fields` has
// the same of a machine that is held open.
#![tactic(auto)]

ghost use Rattle.std.specs.Prelude.{◌≡◌, cond, ◌≤◌, ltb, length};
ghost use Rattle.machine.specs.Record.{four_at};
ghost use Rattle.machine.specs.Refusal.{record_fits, verdict_of, call_verdict, refusal_number};

use little_endian::{four_at, two_at};
use machine::{Refusal, Verdict};

pub mod fields;

// Rule 4: the bits and bytes of a record that are zero, and a halted mark of 0 or 1. The answer is
// the same in any order; in this one the run around it compiles best.
fn record_fits(r: &[u8]) -> bool
    requires { length r.now ≡ 32 }
    ensures { result ≡ record_fits r.now }
{
    if 128 <= two_at(r, 18) {
        return false;
    }
    if r[20] != 0 {
        return false;
    }
    if two_at(r, 16) / 512 % 16 != 0 {
        return false;
    }
    if 2 <= r[21] {
        return false;
    }
    two_at(r, 30) == 0
}

// The step count of a record, 0 where the record ends before it does.
fn count_of(r: &[u8]) -> u32
    ensures { result ≡ cond (ltb (length r.now) 26) 0 (four_at r.now 22) }
{
    if r.len() < 26 { 0 } else { four_at(r, 22) }
}

// The first rule of a start that is broken, in the order in which they are tested.
pub fn verdict(memory: &[u8], state: &[u8], events: &[u8], n: u64) -> Verdict
    ensures { result
        ≡ verdict_of memory.now state.now events.now n }
{
    if memory.len() != 65536 {
        return Err(Refusal::MemoryLength);
    }
    if 1000000 < n {
        return Err(Refusal::StepCount);
    }
    let sum = count_of(state) as u64 + n;
    if state.len() != 32 {
        return Err(Refusal::RecordLength);
    }
    if 4294967295 < sum {
        return Err(Refusal::StepCount); // the sum of 2, compared once 3 has passed
    }
    if !record_fits(state) {
        return Err(Refusal::RecordBits);
    }
    event_rules::events_verdict(events)
}

// The papers' number of a verdict; 0 stands for none.
pub fn refusal_number(v: Verdict) -> u64
    ensures { (result ≡ refusal_number v) × (result ≤ 255) }
{
    match v {
        Ok(()) => 0,
        Err(refused) => refused as u64,
    }
}

// The first rule of a run call that is broken: those of its start, and then that of its log.
pub fn call_verdict(memory: &[u8], state: &[u8], events: &[u8], log: &[u8], n: u64) -> Verdict
    ensures { result ≡ call_verdict memory.now state.now
        events.now log.now n }
{
    verdict(memory, state, events, n)?;
    if log.len() % 8 != 0 {
        return Err(Refusal::LogLength);
    }
    Ok(())
}
