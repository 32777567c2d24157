// A step's plan performed, and the whole step: events, plan and performance. Registers and memory
// are lent.
#![tactic(auto)]

ghost use Rattle.std.specs.Prelude.{◌≡◌, true, ℕ, ◌+◌, ◌<◌, length};
ghost use Rattle.machine.specs.State.{core_of, state_of, state_with};
ghost use Rattle.machine.specs.Memory.{commit, value_at};
ghost use Rattle.machine.specs.Devices.{load_writes};
ghost use Rattle.machine.specs.Effect.{loaded};
ghost use Rattle.machine.specs.Events.{events_of, event_count};
ghost use Rattle.machine.specs.Refusal.{events_fit_below};
ghost use Rattle.machine.specs.Step.{perform, closed, step_of};
ghost use Rattle.devices.specs.Cursor.{Behind, Ordered};
ghost use Rattle.step_plan.specs.Planned.{Within};

use machine::{Act, ByteAddr, Lines, Machine, Rest};
use step_plan::Planned;

// A load into register dst: the value is written last, and a byte keeps the high byte. The CEX
// state after it.
fn load(
    regs: &mut [u16; 8],
    mem: &mut [u8; 65536],
    cex: u16,
    byte: bool,
    at: ByteAddr,
    dst: u8,
) -> u16
    requires { dst < 8 }
    ensures core { (psw : ℕ) → core_of regs.new psw result ≡
        loaded (core_of regs.old psw cex) byte dst
        (value_at byte mem.old at.0) }
    ensures memory { mem.new ≡
        commit (load_writes byte mem.old at.0) mem.old }
{
    let v = memory::load(mem, byte, at);
    let w = word::with_low(byte, operands::get(regs, dst), v);
    operands::put(regs, cex, dst, w)
}

// The machine that a step leaves: the count has gained 1.
fn after(psw: u16, cex: u16, lines: Lines, halted: bool, count: u32) -> Rest
    requires { count < 4294967295 }
    ensures { result ≡ record {
      psw = psw;
      cex = cex;
      lines = lines;
      halted = halted;
      count = count + 1;
    } }
{
    Rest {
        psw,
        cex,
        lines,
        halted,
        count: count + 1,
    }
}

// The act of a plan done: what the step leaves. `lines` and `count` are from before the act.
pub fn perform(
    regs: &mut [u16; 8],
    mem: &mut [u8; 65536],
    lines: Lines,
    count: u32,
    p: Planned,
) -> Rest
    requires { (count < 4294967295) × Within p.act }
    ensures { state_with regs.new result mem.new ≡
        closed (perform p.act (core_of regs.old p.psw p.cex) lines
        mem.old) count mem.old }
{
    let a = p.act;
    match a {
        Act::Stopped | Act::Halt => after(p.psw, p.cex, lines, true, count),
        Act::Pull => {
            let f = entry::pull(regs, mem);
            after(f.psw, f.cex, lines, false, count)
        }
        Act::Chain(d) => {
            let psw = entry::chain(regs, mem, p.psw, d);
            after(psw, 0, devices::fall(lines, d), false, count)
        }
        Act::Accept(d) => {
            let psw = entry::enter(regs, mem, p.psw, p.cex, d, false);
            after(psw, 0, devices::fall(lines, d), false, count)
        }
        Act::Sleep | Act::Skip | Act::Plain => after(p.psw, p.cex, lines, false, count),
        Act::Fault(v) => {
            let psw = entry::enter(regs, mem, p.psw, p.cex, v, true);
            after(psw, 0, lines, false, count)
        }
        Act::Trap(v) => {
            let psw = entry::enter(regs, mem, p.psw, p.cex, v, false);
            after(psw, 0, lines, false, count)
        }
        Act::Loads { byte, at, dst } => {
            let cex = load(regs, mem, p.cex, byte, at, dst);
            after(p.psw, cex, lines, false, count)
        }
        Act::Stores { byte, at, value } => {
            memory::store(mem, byte, at, value);
            after(p.psw, p.cex, lines, false, count)
        }
    }
}

// The machine and the index of the first record not yet due, after one step.
#[derive(Clone, Copy)]
pub struct Stepped {
    pub machine: Machine,
    pub next: usize,
}

// One step of a machine by value, with its event list.
pub fn step(m: Machine, memory: &mut [u8; 65536], events: &[u8], next: usize) -> Stepped
    requires { (m.rest.count < 4294967295) × (Behind events.now next m.rest.count)
        × (Ordered events.now) × (events_fit_below events.now (event_count events.now) ≡ true) }
    ensures state { state_of result.machine memory.new ≡
        step_of (events_of events.now) (state_of m memory.old) }
    ensures behind { Behind events.now result.next (m.rest.count + 1) }
{
    let t = m.rest;
    if t.halted {
        return Stepped { machine: m, next };
    }
    let due = devices::deliver(memory, events, next, t.count, t.lines);
    let mut regs = m.regs;
    let p = step_plan::plan(&mut regs, memory, t, due.lines);
    let rest = perform(&mut regs, memory, due.lines, t.count, p);
    Stepped {
        machine: Machine { regs, rest },
        next: due.next,
    }
}
