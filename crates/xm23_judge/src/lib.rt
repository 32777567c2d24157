// The exported call of a judged run on its raw buffers: its refusals, the start told, the judged run,
// frames left open told, and its reply. An object of its own in the archive: with no other loop in
// it the compiler lays the general step into this one.
#![tactic(auto)]

ghost use Rattle.std.specs.Prelude.{◌≡◌, ◌≢◌, MatchResult, cond, List, ℕ, ◌+◌, ◌*◌, ◌≤◌, eqb, length, replicate};
ghost use Rattle.machine.specs.State.{State, state_of};
ghost use Rattle.soundness.specs.Findings.{start_faults};
ghost use Rattle.machine.specs.Record.{state_in};
ghost use Rattle.machine.specs.Call.{reply_number};
ghost use Rattle.machine_laws.specs.Passed.{Passed};
ghost use Rattle.soundness.specs.Judge.{Judging, begun, closing_told, findings_bytes};
ghost use Rattle.soundness.specs.Judge.{judge_refusal, judge_accepted, judged_on, judge_call_of};
ghost use Rattle.soundness.specs.Watch.{open_in};
ghost use Rattle.open_frames.specs.Open.{handler_of};
ghost use Rattle.judge.specs.Reached.{told_by};
ghost use Rattle.xm23_judge.specs.Api.{Judgement};

use findings::{Breach, Kind};
use machine::Machine;
use open_frames::Open;

// No frame is open.
fn none(o: Open) -> bool
    ensures { result ≡ eqb (o.owns + o.held) 0 }
{
    o.owns == 0 && o.held == 0
}

// Frames left open told, of a run from s that x is.
fn tell_close(findings: &mut [u8], start: u32, o: Open)
    requires { length findings.old ≡ 144 }
    ensures { (s : State) (x : Judging)
        → findings.old ≡ findings_bytes start (told_by s x)
        → eqb (o.owns + o.held) 0 ≡ eqb (open_in x.watch) 0
        → handler_of o.oldest ≡ x.watch.oldest
        → findings.new ≡ findings_bytes start (closing_told s x) }
{
    if none(o) {
        return;
    }
    let h = o.oldest;
    let nothing = Breach {
        detail: 0,
        address: 0,
    };
    findings::note(findings, Kind::Unclosed, start, h.opened, nothing, h);
}

// The start is asleep, halted, or has a line waiting: bits 0, 1 and 2.
fn start_faults(m: Machine) -> u8
    ensures { (mem : List ℕ) → result ≡ start_faults (state_of m mem) }
{
    let t = m.rest;
    word::asleep(t.psw) as u8 + 2 * t.halted as u8 + 4 * (t.lines != 0) as u8
}

// The start told, in findings that are clear.
fn tell_start(findings: &mut [u8], m: Machine)
    requires { findings.old ≡ replicate 144 0 }
    ensures { (mem : List ℕ) → findings.new
        ≡ findings_bytes m.rest.count (told_by (state_of m mem) (begun (state_of m mem))) }
{
    let x = start_faults(m);
    if x == 0 {
        return;
    }
    let o = open_frames::none_open();
    let h = o.oldest;
    let regs = m.regs;
    let fault = Breach {
        detail: x,
        address: regs[7],
    };
    findings::note(findings, Kind::Started, m.rest.count, 0, fault, h);
}

// Why a judged run ended.
fn reason(deep: bool, halted: bool) -> u64
    ensures { (result ≡ cond deep 2 (cond halted 1 0)) × (result ≤ 2) }
{
    if deep { 2 } else { halted as u64 }
}

// What a judged run replies: reason, steps and kinds, each in its bits.
fn reply_of(deep: bool, halted: bool, steps: u32, kinds: u32) -> u64
    requires { (steps ≤ 1000000) × (kinds ≤ 511) }
    ensures { result ≡ reply_number 0 (cond deep 2 (cond halted 1 0)) steps kinds }
{
    256 * reason(deep, halted) + 65536 * steps as u64 + 1099511627776 * kinds as u64
}

// The judged run of a call that is not refused, and its reply.
fn judged(
    memory: &mut [u8],
    state: &mut [u8],
    events: &[u8],
    writers: &mut [u8],
    findings: &mut [u8],
    n: u32,
) -> u64
    requires { Passed memory.old state.old events.now n
        × (length writers.old ≡ 65536) × (length findings.old ≡ 144) }
    ensures reply { result ≡ (judge_accepted (state_in state.old memory.old)
        (judged_on memory.old state.old events.now n)).reply }
    ensures memory { memory.new
        ≡ (judge_accepted (state_in state.old memory.old)
        (judged_on memory.old state.old events.now n)).memory }
    ensures state { state.new
        ≡ (judge_accepted (state_in state.old memory.old)
        (judged_on memory.old state.old events.now n)).state }
    ensures writers { writers.new
        ≡ (judge_accepted (state_in state.old memory.old)
        (judged_on memory.old state.old events.now n)).writers }
    ensures findings { findings.new
        ≡ (judge_accepted (state_in state.old memory.old)
        (judged_on memory.old state.old events.now n)).findings }
{
    writers.fill(0);
    findings.fill(0);
    let m = state_record::read_record(state);
    tell_start(findings, m);
    let whole = memory.as_mut_array().unwrap();
    let r = judge::judge_run(m, whole, events, writers, findings, n);
    tell_close(findings, m.rest.count, r.frames);
    state_record::write_record(state, r.machine);
    reply_of(
        r.deep,
        r.machine.rest.halted,
        r.steps,
        findings::kinds(findings),
    )
}

// The first rule that a call breaks, by its number.
fn refusal_of(
    memory: &[u8],
    state: &[u8],
    events: &[u8],
    writers: &[u8],
    findings: &[u8],
    n: u64,
) -> Result<(), u64>
    ensures { MatchResult result
        (λ _. judge_refusal memory.now state.now events.now writers.now findings.now n ≡ 0)
        (λ k. (k ≡ judge_refusal memory.now state.now events.now writers.now findings.now n)
        × (k ≢ 0)) }
{
    if let Err(refused) = refusal::verdict(memory, state, events, n) {
        return Err(refusal::refusal_number(Err(refused)));
    }
    if writers.len() != 65536 {
        return Err(20);
    }
    if findings.len() != 144 {
        return Err(20);
    }
    Ok(())
}

// The judge call: refused, it replies the refusal's number and leaves every buffer as it was; else
// it replies reason, steps and kinds found, and leaves the memory and the state record of the run,
// who wrote each byte last, and the findings.
fn judge_call(
    memory: &mut [u8],
    state: &mut [u8],
    events: &[u8],
    writers: &mut [u8],
    findings: &mut [u8],
    n: u64,
) -> u64
    ensures reply { result ≡ (judge_call_of memory.old state.old
        events.now writers.old findings.old n).reply }
    ensures memory { memory.new ≡ (judge_call_of memory.old
        state.old events.now writers.old
        findings.old n).memory }
    ensures state { state.new ≡ (judge_call_of memory.old
        state.old events.now writers.old
        findings.old n).state }
    ensures writers { writers.new ≡ (judge_call_of memory.old
        state.old events.now writers.old
        findings.old n).writers }
    ensures findings { findings.new ≡ (judge_call_of memory.old
        state.old events.now writers.old
        findings.old n).findings }
{
    if let Err(refused) = refusal_of(memory, state, events, writers, findings, n) {
        return refused;
    }
    judged(memory, state, events, writers, findings, n as u32)
}

// The run of xm23_run, lent a log long enough, judged: which premises of resumption it broke, each
// first where and by whom, in `findings`, and who wrote each byte last, in `writers`. Refusal in
// bits 7-0, reason in bits 15-8, steps done in bits 39-16, the kinds found in bits 63-40, none if the
// handlers were sound. Refused, all four buffers stay as they were.
#[unsafe(no_mangle)]
pub extern "C" fn xm23_judge(
    memory: &mut [u8],
    state: &mut [u8],
    events: &[u8],
    writers: &mut [u8],
    findings: &mut [u8],
    n: u64,
) -> u64
    ensures reply { result ≡ (judge_call_of memory.old state.old
        events.now writers.old findings.old n).reply }
    ensures memory { memory.new ≡ (judge_call_of memory.old
        state.old events.now writers.old
        findings.old n).memory }
    ensures state { state.new ≡ (judge_call_of memory.old
        state.old events.now writers.old
        findings.old n).state }
    ensures writers { writers.new ≡ (judge_call_of memory.old
        state.old events.now writers.old
        findings.old n).writers }
    ensures findings { findings.new ≡ (judge_call_of memory.old
        state.old events.now writers.old
        findings.old n).findings }
    ensures judgement { Judgement memory.old state.old
        events.now result memory.new state.new writers.new
        findings.new }
{
    judge_call(memory, state, events, writers, findings, n)
}
