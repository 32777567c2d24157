// The loop of a run: n steps with an output log, and with a journal, where one is lent.
#![tactic(auto)]

ghost use Rattle.std.specs.Prelude.{◌≡◌, true, ◌&&◌, ◌||◌, ◌+◌, ◌/◌, ◌≤◌, leb, length};
ghost use Rattle.machine.specs.State.{state_of};
ghost use Rattle.machine.specs.Events.{events_of, event_count};
ghost use Rattle.machine.specs.Refusal.{events_fit_below};
ghost use Rattle.devices.specs.Cursor.{Behind, Ordered};
ghost use Rattle.stretch_memory.specs.Served.{running};
ghost use Rattle.free_run.specs.Free.{Goes};
ghost use Rattle.journal_record.specs.Ring.{Lends, journal_with};
ghost use Rattle.run_answer.specs.Leaves.{RunLeaves, run_lent};
ghost use Rattle.kept_run.specs.Kept.{kept_over};

use journal_record::{Ring, keep_step};
use machine::{Depth, Machine, Rest};
use run_answer::Ran;
use stretch::Progress;

// Are the device bytes before a step wanted: for its record, or because it may be given up after
// its events?
fn wants(lent: bool, full: bool, due: u64, count: u32) -> bool
    ensures { result ≡ lent || (full && leb due count) }
{
    lent | (full & (due <= count as u64))
}

// What a free run leaves beside registers, memory and log: the rest of the machine, how deep it is,
// the log records there, the steps done.
#[derive(Clone, Copy)]
struct Gone {
    rest: Rest,
    depth: Depth,
    added: usize,
    done: u32,
}

// The free run of a turn, u steps at most.
fn go_free(
    regs: &mut [u16; 8],
    memory: &mut [u8; 65536],
    log: &mut [u8],
    t: Rest,
    depth: Depth,
    added: usize,
    u: u32,
) -> Gone
    requires { (t.count + u ≤ 4294967295) × (depth.opened + u ≤ 4294967295) × (added ≤ length log.old / 8) }
    ensures goes { Goes u
        (running regs.old t.psw t.cex t.lines t.count memory.old)
        depth added log.old
        (running regs.new result.rest.psw result.rest.cex t.lines (t.count + result.done)
        memory.new)
        result.depth result.added log.new result.done }
    ensures rest { result.rest ≡ record {
      psw = result.rest.psw;
      cex = result.rest.cex;
      lines = t.lines;
      halted = t.halted;
      count = t.count + result.done;
    } }
    ensures few { result.done ≤ u }
{
    let q = free_run::run_free(
        regs, memory, log, t.psw, t.cex, t.lines, t.count, depth, added, u,
    );
    let p = Progress {
        psw: q.psw,
        cex: q.cex,
        left: q.left,
    };
    let depth = q.depth;
    Gone {
        rest: turn::gone_on(t, u, p),
        depth,
        added: q.added,
        done: u - q.left,
    }
}

// A run of n steps, fewer if the machine halts or the log has no room for what a step would show,
// each step kept in the journal, if one is lent. The machine is taken apart where the loop begins
// and put together where it ends. Each turn is one step and then, where it may, a free run: no
// journal is lent then, and no event is due in it. A step that is not taken gives back the
// registers that its plan changed and the device bytes that its events changed.
pub fn run_kept(
    m: Machine,
    memory: &mut [u8; 65536],
    events: &[u8],
    from: usize,
    log: &mut [u8],
    begun: Depth,
    journal: &mut [u8],
    begins: Ring,
    n: u32,
) -> Ran
    requires { (m.rest.count + n ≤ 4294967295) × Ordered events.now
        × (events_fit_below events.now (event_count events.now) ≡ true)
        × Behind events.now from m.rest.count × (begun.opened + n ≤ 4294967295)
        × Lends journal.old begins }
    ensures run { RunLeaves events.now (state_of m memory.old)
        log.old begun n result memory.new log.new }
    ensures journal { journal_with journal.new result.ring
        ≡ kept_over journal.old begins (events_of events.now)
        (state_of m memory.old) (run_lent events.now
        (state_of m memory.old) log.old n).steps }
{
    let room = log.len() / 8;
    let lent = journal.len() != 0;
    let mut regs = m.regs;
    let mut t = m.rest;
    let mut devices: [u8; 16] = [0; 16];
    let mut at = turn::awaiting(events, from);
    let mut done: u32 = 0;
    let mut added: usize = 0;
    let mut depth = begun;
    let mut ring = begins;
    // Kept: no count over a range, since a turn's free run does many steps.
    while (done < n) & !t.halted {
        let held = Machine { regs, rest: t };
        let wanted = wants(lent, added == room, at.due, t.count);
        output_log::keep(memory, wanted, &mut devices);
        let d = turn::deliver_due(memory, events, at, t.count, t.lines);
        let p = step_plan::plan(&mut regs, memory, t, d.lines);
        let act = p.act;
        let shown = output_log::shown_by(memory, act);
        if output_log::lacks_room(shown, added, room) {
            regs = held.regs;
            output_log::put_back(memory, wanted, &devices);
            break;
        }
        added = output_log::add(log, added, t.count, shown);
        depth = frame_depth::moved(act, depth);
        ring = keep_step(journal, ring, held, &devices, memory, act, regs[6]);
        t = step::perform(&mut regs, memory, d.lines, t.count, p);
        at = d.at;
        done += 1;
        let u = turn::at_once(lent | t.halted, t.count, at.due, n - done);
        if 0 < u {
            let q = go_free(&mut regs, memory, log, t, depth, added, u);
            t = q.rest;
            depth = q.depth;
            added = q.added;
            done += q.done;
        }
    }
    run_answer::ended(regs, t, n, done, added, at.next, depth, ring)
}
