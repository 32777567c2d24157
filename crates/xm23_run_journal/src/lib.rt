// The exported call of a run whose steps are kept in a journal, on its raw buffers and numbers. An
// object of its own in the archive: what stands below it has one caller there.
#![tactic(auto)]

ghost use Rattle.std.specs.Prelude.{◌≡◌};
ghost use Rattle.journal.specs.Ring.{journal_of};
ghost use Rattle.journal.specs.Call.{journal_verdict, run_journal_of};
ghost use Rattle.xm23_run_journal.specs.Api.{journal_deepest_left, JournalResumption};

use journal_record::Ring;
use machine::{Depth, Refusal, Verdict};

// The first rule that is broken: those of the run call, and then that of the journal.
fn journal_verdict(
    memory: &[u8],
    state: &[u8],
    events: &[u8],
    log: &[u8],
    journal: &[u8],
    ring: Ring,
    n: u64,
) -> Verdict
    ensures { result ≡ journal_verdict memory.now state.now
        events.now log.now
        (journal_of journal.now ring.kept ring.place) n }
{
    refusal::call_verdict(memory, state, events, log, n)?;
    if !journal_rules::journal_fits(journal, ring.kept, ring.place) {
        return Err(Refusal::JournalFit);
    }
    Ok(())
}

// The run of xm23_run with each of its steps kept in a journal of 64-byte records: the same reply.
// `kept` is the number of records kept and `place` the next place. Refused, memory, record, log,
// journal and all three numbers stay as they were.
#[unsafe(no_mangle)]
pub extern "C" fn xm23_run_journal(
    memory: &mut [u8],
    state: &mut [u8],
    events: &[u8],
    log: &mut [u8],
    deepest: &mut u32,
    journal: &mut [u8],
    kept: &mut u32,
    place: &mut u32,
    n: u64,
) -> u64
    ensures reply { result ≡ (run_journal_of
        memory.old state.old events.now
        log.old (journal_of journal.old kept.old
        place.old) n).closing.reply }
    ensures memory { memory.new ≡ (run_journal_of
        memory.old state.old events.now
        log.old (journal_of journal.old kept.old
        place.old) n).closing.memory }
    ensures state { state.new ≡ (run_journal_of
        memory.old state.old events.now
        log.old (journal_of journal.old kept.old
        place.old) n).closing.state }
    ensures log { log.new ≡ (run_journal_of
        memory.old state.old events.now
        log.old (journal_of journal.old kept.old
        place.old) n).closing.log }
    ensures deepest { deepest.new ≡ journal_deepest_left
        memory.old state.old events.now
        log.old (journal_of journal.old kept.old
        place.old) n
        deepest.old }
    ensures resumption { JournalResumption
        memory.old state.old events.now
        log.old (journal_of journal.old kept.old
        place.old) n
        memory.new state.new }
    ensures journal { journal.new ≡ (run_journal_of
        memory.old state.old events.now
        log.old (journal_of journal.old kept.old
        place.old) n).journal.bytes }
    ensures number { kept.new ≡ (run_journal_of
        memory.old state.old events.now
        log.old (journal_of journal.old kept.old
        place.old) n).journal.kept }
    ensures place { place.new ≡ (run_journal_of
        memory.old state.old events.now
        log.old (journal_of journal.old kept.old
        place.old) n).journal.place }
{
    let begins = Ring {
        kept: *kept,
        place: *place,
    };
    if let Err(refused) = journal_verdict(memory, state, events, log, journal, begins, n) {
        return refusal::refusal_number(Err(refused));
    }
    let m = state_record::read_record(state);
    let none = Depth {
        opened: 0,
        deepest: 0,
    };
    let whole = memory.as_mut_array().unwrap();
    let r = kept_run::run_kept(m, whole, events, 0, log, none, journal, begins, n as u32);
    state_record::write_record(state, r.machine);
    *deepest = r.depth.deepest;
    *kept = r.ring.kept;
    *place = r.ring.place;
    run_answer::reply_of(r)
}
