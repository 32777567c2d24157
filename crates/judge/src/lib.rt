// A judged run: the steps of a run, each watched, and the whole judge call on its raw buffers.
#![tactic(auto)]

ghost use Rattle.std.specs.Prelude.{◌≡◌, true, false, cond, List, ℕ, ◌&&◌, ◌+◌, ◌<◌, ◌≤◌, eqb, length, replicate, get_or};
ghost use Rattle.machine.specs.State.{State, state_of, state_with};
ghost use Rattle.machine.specs.Events.{events_of, event_count};
ghost use Rattle.machine.specs.Refusal.{events_fit_below};
ghost use Rattle.machine.specs.Step.{plan_of};
ghost use Rattle.step_plan.specs.Planned.{plan_with, Within};
ghost use Rattle.devices.specs.Cursor.{Ordered};
ghost use Rattle.soundness.specs.Findings.{Kind, Finding, Seen};
ghost use Rattle.soundness.specs.Judge.{holds?, begun, judged_run, findings_bytes};
ghost use Rattle.findings.specs.Told.{told_after};
ghost use Rattle.judge_step.specs.Look.{Begins, Looks};
ghost use Rattle.judge.specs.Taken.{watch_with, TakenIs};
ghost use Rattle.judge.specs.Reached.{told_by, JudgedIs};

use judge_step::Look;
use machine::{Act, Lines, Machine, Rest};
use open_frames::{Frames, Open};
use step_plan::Planned;

// Who writes in a step: 1 the application, 2 a handler or an entry.
fn writer(mine: bool) -> u8
    ensures { result ≡ cond mine 1 2 }
{
    if mine { 1 } else { 2 }
}

// The breaches of step `done`, which begins at `from` and leaves this PSW, told; of most there are
// none.
fn tell(
    findings: &mut [u8],
    l: Look,
    act: Act,
    f: &Frames,
    psw: u16,
    from: u16,
    start: u32,
    done: u32,
)
    requires { (length findings.old ≡ 144) × (f.now.open.held ≤ 256) }
    ensures { (regs mem w : List ℕ) (z : Seen)
        → Begins act regs mem f.now w z → get_or regs 7 0 ≡ from
        → z.leaves.core.psw ≡ psw → Looks l z → (x : Kind → Finding)
        → findings.old ≡ findings_bytes start x
        → findings.new ≡ findings_bytes start (told_after done z x) }
{
    if judge_step::tells(findings, l, act, f, psw) {
        let h = open_frames::runs(f);
        let x = judge_step::shown(l, act, f, psw, from);
        findings::tell_step(findings, x, start, done, h);
    }
}

// Step `done` of a judged run, planned from the registers `before`, taken: looked at, marked, done,
// told, and its frames kept.
fn take(
    regs: &mut [u16; 8],
    before: &[u16; 8],
    memory: &mut [u8; 65536],
    frames: &mut Frames,
    writers: &mut [u8],
    findings: &mut [u8],
    lines: Lines,
    count: u32,
    start: u32,
    done: u32,
    p: Planned,
) -> Rest
    requires { (length writers.old ≡ 65536) × (length findings.old ≡ 144)
        × (frames.old.open.held ≤ 256) × (frames.old.open.owns ≤ 4000000000)
        × (count < 4294967295) × Within p.act
        × ((eqb frames.old.open.held 256 && holds? p.act frames.old.open.owns (eqb
        frames.old.open.held 0)) ≡ false) }
    ensures step { (b : State) → b.core.regs ≡ before.now
        → b.mem ≡ memory.old → b.lines ≡ lines → b.count ≡ count
        → plan_with regs.old p ≡ plan_of b
        → TakenIs b (state_with regs.new result memory.new) done start
        (watch_with frames.old writers.old) (watch_with frames.new writers.new)
        findings.old findings.new }
    ensures bounds { (frames.new.open.held ≤ 256)
        × (frames.new.open.owns ≤ frames.old.open.owns + 1) }
{
    let act = p.act;
    let l = judge_step::looked(frames, writers, act, before, memory);
    writers::mark_writes(writers, memory, act, regs[6], writer(l.mine));
    let t = step::perform(regs, memory, lines, count, p);
    tell(findings, l, act, frames, t.psw, before[7], start, done);
    open_frames::watch_after(frames, act, done, regs, memory);
    t
}

// Would the act make one device's frame more than there are places for?
fn too_deep(act: Act, o: Open) -> bool
    ensures { result ≡ (eqb o.held 256 && holds? act o.owns (eqb o.held 0)) }
{
    o.held == 256 && held_frames::holds(act, o.owns, o.held == 0)
}

// What a judged run leaves beside its buffers: the machine, the frames open, whether a step was
// not taken because it would have opened one too many, and the steps done.
#[derive(Clone, Copy)]
pub struct Judged {
    pub machine: Machine,
    pub frames: Open,
    pub deep: bool,
    pub steps: u32,
}

// A judged run of n steps, fewer if the machine halts or would be too deep. The marks are clear and
// the findings tell of the start. A step that is not taken gives back the registers that its plan
// changed and the device bytes that its events changed.
pub fn judge_run(
    m: Machine,
    memory: &mut [u8; 65536],
    events: &[u8],
    writers: &mut [u8],
    findings: &mut [u8],
    n: u32,
) -> Judged
    requires { (m.rest.count + n ≤ 4294967295) × Ordered events.now
        × (events_fit_below events.now (event_count events.now) ≡ true) × (n ≤ 1000000)
        × (writers.old ≡ replicate 65536 0) × (length findings.old ≡ 144)
        × (findings.old ≡ findings_bytes m.rest.count (told_by (state_of m memory.old) (begun
        (state_of m memory.old)))) }
    ensures { JudgedIs (state_of m memory.old) m.rest.count
        (judged_run (events_of events.now) (state_of m memory.old) n)
        (state_of result.machine memory.new) result.steps result.frames result.deep
        writers.new findings.new }
{
    let start = m.rest.count;
    let mut regs = m.regs;
    let mut t = m.rest;
    let mut devices: [u8; 16] = [0; 16];
    let mut frames = open_frames::no_frames();
    let mut at = turn::awaiting(events, 0);
    let mut done: u32 = 0;
    let mut deep = false;
    // Kept: a run ends where it halts too, so that the steps are no range; d.at is carried on.
    while (done < n) & !t.halted {
        let before = regs;
        let full = frames.open.held == 256;
        output_log::keep(memory, full, &mut devices);
        let d = turn::deliver_due(memory, events, at, t.count, t.lines);
        let p = step_plan::plan(&mut regs, memory, t, d.lines);
        if too_deep(p.act, frames.open) {
            regs = before;
            output_log::put_back(memory, full, &devices);
            deep = true;
            break;
        }
        t = take(
            &mut regs,
            &before,
            memory,
            &mut frames,
            writers,
            findings,
            d.lines,
            t.count,
            start,
            done,
            p,
        );
        at = d.at;
        done += 1;
    }
    Judged {
        machine: Machine { regs, rest: t },
        frames: frames.open,
        deep,
        steps: done,
    }
}
