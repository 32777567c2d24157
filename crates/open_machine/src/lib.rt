// A machine that is held open and advanced by calls, each a run of some steps over the memory and
// the log lent to it: by value, and in place.
#![tactic(auto)]

ghost use Rattle.std.specs.Prelude.{◌≡◌};
ghost use Rattle.machine.specs.State.{state_of};
ghost use Rattle.open_machine.specs.Advance.{AdvanceLeaves, step_advance};

use machine::{Depth, Machine};

// The machine that an advance leaves, and its reply: bits 7-0 the refusal (0: none), 15-8 the
// reason, 39-16 the steps done, 63-40 the log records added.
#[derive(Clone, Copy)]
pub struct Advanced {
    pub machine: Machine,
    pub reply: u64,
}

// A machine advanced by n steps, fewer if it halts or the log is full; `deepest` becomes the most
// frames that were open together in them. It is turned back as the run call is on the machine's
// record; machine, memory, log and `deepest` are then as handed over.
pub fn advance_by_value(
    m: Machine,
    memory: &mut [u8],
    events: &[u8],
    log: &mut [u8],
    deepest: &mut u32,
    n: u64,
) -> Advanced
    ensures { AdvanceLeaves (state_of m memory.old) events.now
        log.old n deepest.old result.reply
        (state_of result.machine memory.new) log.new deepest.new }
{
    if let Err(refused) = refusal::fields::advance_verdict(m, memory, events, log, n) {
        return Advanced {
            machine: m,
            reply: refusal::refusal_number(Err(refused)),
        };
    }
    let none = Depth {
        opened: 0,
        deepest: 0,
    };
    let whole = memory.as_mut_array().unwrap();
    let r = xm23_run::run(m, whole, events, 0, log, none, n as u32);
    *deepest = r.depth.deepest;
    let machine = r.machine;
    let reply = run_answer::reply_of(r);
    Advanced { machine, reply }
}

// A machine advanced by one step over the by-value step, with no log: what it shows is not kept.
pub fn step_by_value(m: Machine, memory: &mut [u8], events: &[u8]) -> Advanced
    ensures { (result.reply
        ≡ (step_advance (state_of m memory.old) events.now).reply)
        × (state_of result.machine memory.new
        ≡ (step_advance (state_of m memory.old) events.now).state) }
{
    if let Err(refused) = refusal::fields::start_verdict(m, memory, events, 1) {
        return Advanced {
            machine: m,
            reply: refusal::refusal_number(Err(refused)),
        };
    }
    let whole = memory.as_mut_array().unwrap();
    let x = step::step(m, whole, events, 0);
    let after = x.machine;
    let taken = !m.rest.halted;
    let reply = 256 * after.rest.halted as u64 + 65536 * taken as u64;
    Advanced {
        machine: after,
        reply,
    }
}

// The open machine, advanced in place by n steps, fewer if it halts or the log is full. Turned
// back, machine, memory, log and `deepest` are as handed over.
pub fn advance(
    m: &mut Machine,
    memory: &mut [u8],
    events: &[u8],
    log: &mut [u8],
    deepest: &mut u32,
    n: u64,
) -> u64
    ensures { AdvanceLeaves (state_of m.old memory.old)
        events.now log.old n deepest.old result
        (state_of m.new memory.new) log.new deepest.new }
{
    let r = advance_by_value(*m, memory, events, log, deepest, n);
    *m = r.machine;
    r.reply
}
