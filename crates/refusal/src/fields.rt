// Whether an advance of a machine that is held open is accepted, judged by the machine's fields.
ghost use Rattle.std.specs.Prelude.{◌≡◌};
ghost use Rattle.machine.specs.State.{state_of};
ghost use Rattle.machine.specs.Record.{record_of};
ghost use Rattle.machine.specs.Refusal.{verdict_of, call_verdict};

use machine::{Machine, Refusal, Verdict};

// The first rule of a start from a machine's own record that is broken. The record is not written:
// of its length and of its bytes that are no field no rule can be broken.
pub fn start_verdict(m: Machine, memory: &[u8], events: &[u8], n: u64) -> Verdict
    ensures { result ≡ verdict_of memory.now (record_of (state_of m memory.now))
        events.now n }
{
    if memory.len() != 65536 {
        return Err(Refusal::MemoryLength);
    }
    if 1000000 < n {
        return Err(Refusal::StepCount);
    }
    if 4294967295 < m.rest.count as u64 + n {
        return Err(Refusal::StepCount);
    }
    if m.rest.psw / 512 % 16 != 0 {
        return Err(Refusal::RecordBits);
    }
    if 128 <= m.rest.cex {
        return Err(Refusal::RecordBits);
    }
    event_rules::events_verdict(events)
}

// The first rule of an advance that is broken: those of its start, and then that of its log.
pub fn advance_verdict(m: Machine, memory: &[u8], events: &[u8], log: &[u8], n: u64) -> Verdict
    ensures { result ≡ call_verdict memory.now
        (record_of (state_of m memory.now)) events.now log.now n }
{
    start_verdict(m, memory, events, n)?;
    if log.len() % 8 != 0 {
        return Err(Refusal::LogLength);
    }
    Ok(())
}
