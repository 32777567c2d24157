// The run call for C: an object of its own in the archive. What stands below it has one caller
// there, so that the compiler lays a short call into one function.
#![tactic(auto)]

ghost use Rattle.std.specs.Prelude.{◌≡◌};
ghost use Rattle.xm23_run.specs.Api.{run_call_of, deepest_left, Resumption};

// A run of n steps of the machine that the state record holds, with the event list and a log of
// what its output devices show: refusal in bits 7-0, reason in bits 15-8, steps done in bits 39-16,
// log records added in bits 63-40; `deepest` becomes the most frames that were open together.
// Refused, memory, record, log and `deepest` stay as they were.
#[unsafe(no_mangle)]
pub extern "C" fn xm23_run(
    memory: &mut [u8],
    state: &mut [u8],
    events: &[u8],
    log: &mut [u8],
    deepest: &mut u32,
    n: u64,
) -> u64
    ensures reply { result ≡ (run_call_of memory.old state.old
        events.now log.old n).reply }
    ensures memory { memory.new ≡ (run_call_of memory.old
        state.old events.now log.old n).memory }
    ensures state { state.new ≡ (run_call_of memory.old
        state.old events.now log.old n).state }
    ensures log { log.new ≡ (run_call_of memory.old
        state.old events.now log.old n).log }
    ensures deepest { deepest.new ≡ deepest_left memory.old
        state.old events.now log.old n deepest.old }
    ensures resumption { Resumption memory.old state.old
        events.now log.old n memory.new state.new }
{
    xm23_run::xm23_run(memory, state, events, log, deepest, n)
}
