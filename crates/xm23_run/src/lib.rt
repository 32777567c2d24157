// A run of n steps with an output log, and the call of it on its raw buffers, which xm23_run_c
// exports.
#![tactic(auto)]

ghost use Rattle.std.specs.Prelude.{◌≡◌, true, ◌+◌, ◌≤◌, length};
ghost use Rattle.machine.specs.State.{state_of};
ghost use Rattle.machine.specs.Events.{event_count};
ghost use Rattle.machine.specs.Refusal.{events_fit_below};
ghost use Rattle.devices.specs.Cursor.{Behind, Ordered};
ghost use Rattle.run_answer.specs.Leaves.{RunLeaves};
ghost use Rattle.xm23_run.specs.Api.{run_call_of, deepest_left, Resumption};

use journal_record::Ring;
use machine::{Depth, Machine};
use run_answer::Ran;

// A run whose steps are not kept. A short one is a stretch alone.
pub fn run(
    m: Machine,
    memory: &mut [u8; 65536],
    events: &[u8],
    from: usize,
    log: &mut [u8],
    begun: Depth,
    n: u32,
) -> Ran
    requires { (m.rest.count + n ≤ 4294967295) × Ordered events.now
        × (events_fit_below events.now (event_count events.now) ≡ true)
        × Behind events.now from m.rest.count × (begun.opened + n ≤ 4294967295) }
    ensures { RunLeaves events.now (state_of m memory.old)
        log.old begun n result memory.new log.new }
{
    let mut nowhere: [u8; 0] = [0; 0];
    let none = Ring { kept: 0, place: 0 };
    let mut regs = m.regs;
    let t = m.rest;
    let u = turn::at_once(t.halted, t.count, turn::due_at(events, from), n);
    let p = stretch::stretch(&mut regs, memory, t.psw, t.cex, t.lines, u);
    let done = u - p.left;
    let s = turn::gone_on(t, u, p);
    if done == n {
        return run_answer::ended(regs, s, n, n, 0, from, begun, none);
    }
    let mut r = kept_run::run_kept(
        Machine { regs, rest: s },
        memory,
        events,
        from,
        log,
        begun,
        &mut nowhere,
        none,
        n - done,
    );
    r.steps += done;
    r
}

// A run of n steps of the machine that the state record holds, with the event list and a log of
// what its output devices show: refusal in bits 7-0, reason in bits 15-8, steps done in bits 39-16,
// log records added in bits 63-40; `deepest` becomes the most frames that were open together.
// Refused, memory, record, log and `deepest` stay as they were.
pub fn xm23_run(
    memory: &mut [u8],
    state: &mut [u8],
    events: &[u8],
    log: &mut [u8],
    deepest: &mut u32,
    n: u64,
) -> u64
    ensures reply { result ≡ (run_call_of memory.old state.old
        events.now log.old n).reply }
    ensures memory { memory.new ≡ (run_call_of memory.old
        state.old events.now log.old n).memory }
    ensures state { state.new ≡ (run_call_of memory.old
        state.old events.now log.old n).state }
    ensures log { log.new ≡ (run_call_of memory.old
        state.old events.now log.old n).log }
    ensures deepest { deepest.new ≡ deepest_left memory.old
        state.old events.now log.old n deepest.old }
    ensures resumption { Resumption memory.old state.old
        events.now log.old n memory.new state.new }
{
    if let Err(refused) = refusal::call_verdict(memory, state, events, log, n) {
        return refusal::refusal_number(Err(refused));
    }
    let m = state_record::read_record(state);
    let none = Depth {
        opened: 0,
        deepest: 0,
    };
    let whole = memory.as_mut_array().unwrap();
    let r = run(m, whole, events, 0, log, none, n as u32);
    state_record::write_record(state, r.machine);
    *deepest = r.depth.deepest;
    run_answer::reply_of(r)
}
