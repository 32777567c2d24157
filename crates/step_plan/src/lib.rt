// What a step does, as the definitions have it: its plan, which has written no memory. Registers and
// memory are lent.
#![tactic(auto)]

ghost use Rattle.std.specs.Prelude.{◌≡◌, ℕ, false, List, length, set, slice_index, slice_set};
ghost use Rattle.machine.specs.State.{Core, core_of, core_with};
ghost use Rattle.machine.specs.Cex.{skips?, lowered};
ghost use Rattle.machine.specs.Step.{Plan, advanced, faulting, allowed, odd?};
ghost use Rattle.machine.specs.Step.{instruction_of, chosen, plan_of};
ghost use Rattle.machine_laws.specs.Bounds.{Quits};
ghost use Rattle.devices.specs.Cursor.{state_from};
ghost use Rattle.step_plan.specs.Planned.{plan_with, Asked, Within};
ghost use Rattle.step_plan.specs.Interrupt.{leaving};

use execute::Executed;
use machine::{Access, Act, ByteAddr, Lines, Rest};

// What a step does, and the PSW and the CEX state that it starts from. The registers that it starts
// from are those lent to `plan`.
#[derive(Clone, Copy)]
pub struct Planned {
    pub psw: u16,
    pub cex: u16,
    pub act: Act,
}

// A fault v. With FLT set the machine halts, PC and CEX state as they were before the step; else
// the CEX state is `left`.
fn faulted(regs: &mut [u16; 8], psw: u16, cex: u16, pc: u16, left: u16, v: u8) -> Planned
    ensures { plan_with regs.new result ≡
        faulting (core_of (slice_set regs.old 7 pc) psw cex)
        (core_of regs.old psw left) v }
{
    if word::faulted(psw) {
        regs[7] = pc;
        return Planned {
            psw,
            cex,
            act: Act::Halt,
        };
    }
    Planned {
        psw,
        cex: left,
        act: Act::Fault(v),
    }
}

// Is a word asked for at an odd address?
fn odd(a: Access) -> bool
    ensures { result ≡ odd? a }
{
    match a {
        Access::Load { byte, at, .. } | Access::Store { byte, at, .. } => !byte & (at.0 % 2 == 1),
        _ => false,
    }
}

// What an instruction asked for, which is no odd word, granted. `psw`, `cex` and `pc` are from
// before the step, `d` and the registers are as the instruction left them.
fn grant(
    regs: &mut [u16; 8],
    mem: &[u8; 65536],
    psw: u16,
    cex: u16,
    pc: u16,
    d: Executed,
) -> Planned
    requires { Asked d.access }
    ensures { (b : Core) → b.psw ≡ psw → b.cex ≡ cex → slice_index b.regs 7 ≡ pc →
        (Quits d.access → core_of regs.old d.psw d.cex ≡ advanced b) →
        plan_with regs.new result ≡
        allowed b (core_of regs.old d.psw d.cex) d.access mem.now }
{
    let a = d.access;
    match a {
        Access::Nothing => Planned {
            psw: d.psw,
            cex: d.cex,
            act: Act::Plain,
        },
        Access::Load { byte, at, dst } => Planned {
            psw: d.psw,
            cex: d.cex,
            act: Act::Loads { byte, at, dst },
        },
        Access::Store { byte, at, value } => Planned {
            psw: d.psw,
            cex: d.cex,
            act: Act::Stores { byte, at, value },
        },
        Access::Fault(v) => faulted(regs, psw, cex, pc, d.cex, v),
        Access::Trap(v) => {
            if word::current_priority(psw) < entry::priority_of(mem, v) {
                return Planned {
                    psw: d.psw,
                    cex: d.cex,
                    act: Act::Trap(v),
                };
            }
            faulted(regs, psw, cex, pc, d.cex, 10)
        }
    }
}

// Does a CEX block skip the next instruction?
fn skips(cex: u16) -> bool
    ensures { result ≡ skips? cex }
{
    if cex % 64 == 0 {
        return false;
    }
    if cex / 8 % 8 == 0 {
        return (0 < cex % 8) & (cex / 64 % 2 == 1);
    }
    cex / 64 % 2 != 1
}

// The CEX state with the count of the next instruction lowered.
fn lower(cex: u16) -> u16
    ensures { result ≡ lowered cex }
{
    if cex % 64 == 0 {
        return cex;
    }
    if cex / 8 % 8 == 0 {
        return cex - 1;
    }
    cex - 8
}

// Points 4 to 7: asleep, an odd PC, a CEX block that skips, else fetch, decode, execute. An odd
// word access takes back what the instruction did to the registers.
fn instruction(regs: &mut [u16; 8], mem: &[u8; 65536], psw: u16, cex: u16) -> Planned
    ensures { plan_with regs.new result ≡
        instruction_of (core_of regs.old psw cex) mem.now }
{
    if word::asleep(psw) {
        return Planned {
            psw,
            cex,
            act: Act::Sleep,
        };
    }
    let pc = regs[7];
    let left = lower(cex);
    if pc % 2 == 1 {
        return faulted(regs, psw, cex, pc, cex, 9);
    }
    let before = *regs;
    let next = pc.wrapping_add(2);
    regs[7] = next;
    if skips(cex) {
        return Planned {
            psw,
            cex: left,
            act: Act::Skip,
        };
    }
    let w = memory::read_word(mem, memory::word_of(ByteAddr(pc)));
    let d = execute::execute(regs, psw, left, isa_decode::decode(w));
    let asked = d.access;
    if odd(asked) {
        *regs = before;
        regs[7] = next;
        return faulted(regs, psw, cex, pc, left, 9);
    }
    grant(regs, mem, psw, cex, pc, d)
}

// Point 2, a return: a line above the previous priority is chained, else the frame is pulled. No
// vector is read where no line waits.
fn leave(mem: &[u8; 65536], lines: Lines, psw: u16, cex: u16) -> Planned
    ensures plan { (regs : List ℕ) (p : Plan) → plan_with regs result ≡
        chosen (leaving (core_of regs psw cex) lines mem.now) (core_of regs psw cex) p }
    ensures within { Within result.act }
{
    if lines != 0 {
        if let Some(d) = entry::best_above(mem, lines, word::previous_priority(psw)) {
            return Planned {
                psw,
                cex,
                act: Act::Chain(d),
            };
        }
    }
    Planned {
        psw,
        cex,
        act: Act::Pull,
    }
}

// Points 2 to 7 of a machine that is not halted, its due events applied, with the lines that they
// leave: what its step does. Memory is only read; the registers become those that the act starts
// from.
pub fn plan(regs: &mut [u16; 8], mem: &[u8; 65536], t: Rest, lines: Lines) -> Planned
    requires { t.halted ≡ false }
    ensures plan { plan_with regs.new result ≡
        plan_of (state_from (core_with regs.old t) lines t.halted t.count
        mem.now) }
    ensures within { Within result.act }
{
    if !word::asleep(t.psw) & (regs[7] == 0xFFFF) {
        return leave(mem, lines, t.psw, t.cex);
    }
    if let Some(d) = entry::line_above(mem, lines, word::current_priority(t.psw)) {
        return Planned {
            psw: t.psw,
            cex: t.cex,
            act: Act::Accept(d),
        };
    }
    instruction(regs, mem, t.psw, t.cex)
}
