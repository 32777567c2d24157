// The rules of a call that is lent a journal, and the first that going back breaks.
#![tactic(auto)]

ghost use Rattle.std.specs.Prelude.{◌≡◌};
ghost use Rattle.journal.specs.Ring.{journal_of, journal_fits};
ghost use Rattle.journal.specs.Back.{lent_of};
ghost use Rattle.journal.specs.Call.{back_verdict};

use machine::{Refusal, Verdict};

// Rule 14: is the journal one that a call may work with, by its length, the number kept and the
// next place?
pub fn journal_fits(journal: &[u8], kept: u32, place: u32) -> bool
    ensures { result ≡ journal_fits (journal_of journal.now kept place) }
{
    let n = journal.len();
    if n == 0 {
        return false;
    }
    if 65536 < n {
        return false;
    }
    if n % 64 != 0 {
        return false;
    }
    if n / 64 < kept as usize {
        return false;
    }
    (place as usize) < n / 64
}

// The first rule that going back breaks, in the order in which they are tested.
pub fn back_verdict(
    memory: &[u8],
    state: &[u8],
    journal: &[u8],
    kept: u32,
    place: u32,
    k: u64,
) -> Verdict
    ensures { result ≡ back_verdict k (lent_of memory.now state.now
        (journal_of journal.now kept place)) }
{
    let fits = journal_fits(journal, kept, place);
    if memory.len() != 65536 {
        return Err(Refusal::MemoryLength);
    }
    if state.len() != 32 {
        return Err(Refusal::RecordLength);
    }
    if !fits {
        return Err(Refusal::JournalFit);
    }
    if (kept as u64) < k {
        return Err(Refusal::StepsKept);
    }
    Ok(())
}
