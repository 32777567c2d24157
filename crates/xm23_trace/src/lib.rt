// The exported call of a traced run on its raw buffers: refused, or the traced run of what they hold.
// An object of its own in the archive: with no other loop in it the compiler lays the general step
// into this one.
#![tactic(auto)]

ghost use Rattle.std.specs.Prelude.{◌≡◌, ◌≢◌, ◌≤◌, MatchResult};
ghost use Rattle.machine.specs.Run.{reason_number};
ghost use Rattle.machine.specs.Call.{reply_number};
ghost use Rattle.trace.specs.Call.{refusal_of};
ghost use Rattle.xm23_trace.specs.Api.{trace_call_of};

use trace_run::Ran;

// The first rule that is broken, by its number: those of a start, and then that of the trace and
// the kinds.
fn refusal_of(
    memory: &[u8],
    state: &[u8],
    events: &[u8],
    trace: &[u8],
    kinds: u32,
    n: u64,
) -> Result<(), u64>
    ensures { MatchResult result
        (λ _. refusal_of memory.now state.now events.now trace.now kinds n ≡ 0)
        (λ k. (k ≡ refusal_of memory.now state.now events.now trace.now kinds n) × (k ≢ 0)) }
{
    if let Err(refused) = refusal::verdict(memory, state, events, n) {
        return Err(refusal::refusal_number(Err(refused)));
    }
    if trace.len() % 16 != 0 {
        return Err(21);
    }
    if 4095 < kinds {
        return Err(21);
    }
    Ok(())
}

// What a traced run replies: reason, steps and records, each in its bits.
fn reply_of(r: Ran) -> u64
    requires { (r.steps ≤ 1000000) × (r.added ≤ 1004096) }
    ensures { result ≡ reply_number 0 (reason_number r.reason) r.steps r.added }
{
    let reason = r.reason;
    256 * turn::reason_number(reason) + 65536 * r.steps as u64 + 1099511627776 * r.added as u64
}

// The run of xm23_run with no log, and a record of 16 bytes for each thing of the kinds asked for:
// refusal in bits 7-0, reason in bits 15-8, steps in bits 39-16, records in bits 63-40. Refused,
// every buffer stays as it was; bytes of the trace past its records are kept.
#[unsafe(no_mangle)]
pub extern "C" fn xm23_trace(
    memory: &mut [u8],
    state: &mut [u8],
    events: &[u8],
    trace: &mut [u8],
    kinds: u32,
    n: u64,
) -> u64
    ensures reply { result ≡ (trace_call_of memory.old state.old
        events.now trace.old kinds n).reply }
    ensures memory { memory.new ≡ (trace_call_of memory.old
        state.old events.now trace.old kinds n).memory }
    ensures state { state.new ≡ (trace_call_of memory.old
        state.old events.now trace.old kinds n).state }
    ensures trace { trace.new ≡ (trace_call_of memory.old
        state.old events.now trace.old kinds n).trace }
{
    if let Err(refused) = refusal_of(memory, state, events, trace, kinds, n) {
        return refused;
    }
    let m = state_record::read_record(state);
    let whole = memory.as_mut_array().unwrap();
    let r = trace_run::run_traced(m, whole, events, trace, kinds, n as u32);
    state_record::write_record(state, r.machine);
    reply_of(r)
}
