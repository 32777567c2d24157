// Going back through the journal of steps: its records copied out unchecked, newest first.
#![tactic(auto)]

ghost use Rattle.std.specs.Prelude.{◌≡◌, ◌+◌, ◌*◌, ◌<◌, ◌≤◌, length};
ghost use Rattle.std.proofs.Math.Seq.{slice};
ghost use Rattle.machine.specs.Memory.{commit};
ghost use Rattle.journal.specs.Record.{placed, state_out, memory_out};
ghost use Rattle.journal.specs.Ring.{record_at, journal_of, places_of, preceding};
ghost use Rattle.journal.specs.Back.{lent_of, back_of};
ghost use Rattle.journal.specs.Call.{back_call_of};

use journal_record::Ring;

// Bytes from `from` on, n of them, copied to memory from address a on, wrapping.
fn put_bytes(memory: &mut [u8], journal: &[u8], from: usize, a: u16, n: usize)
    requires { (length memory.old ≡ 65536) × (from + n ≤ length journal.now) }
    ensures { memory.new ≡ commit (placed a
        (slice from (from + n) journal.now)) memory.old }
{
    let mut at = a;
    for i in 0..n {
        memory[at as usize] = journal[from + i];
        at = at.wrapping_add(1);
    }
}

// The state record of the record at place p.
fn put_state(state: &mut [u8], journal: &[u8], p: usize)
    requires { (length state.old ≡ 32) × (64 * p + 64 ≤ length journal.now) }
    ensures { state.new ≡ state_out (record_at journal.now p) }
{
    state.copy_from_slice(&journal[64 * p..64 * p + 32]);
}

// The record at place p copied out, fields in order.
fn copy_out(memory: &mut [u8], state: &mut [u8], journal: &[u8], p: usize)
    requires { (length memory.old ≡ 65536) × (length state.old ≡ 32)
        × (64 * p + 64 ≤ length journal.now) }
    ensures memory { memory.new
        ≡ memory_out (record_at journal.now p) memory.old }
    ensures state { state.new ≡ state_out (record_at journal.now p) }
{
    let o = 64 * p;
    put_state(state, journal, p);
    put_bytes(memory, journal, o + 32, 0, 16);
    let a = little_endian::two_at(journal, o + 48);
    put_bytes(memory, journal, o + 50, a, 8);
}

// The place before p.
fn place_before(places: u32, p: u32) -> u32
    requires { p < places }
    ensures { (result ≡ preceding places p) × (result < places) }
{
    if p == 0 { places - 1 } else { p - 1 }
}

// Back k steps, no more than are kept: the ring then. The journal's bytes stay.
fn go_back(memory: &mut [u8], state: &mut [u8], journal: &[u8], r: Ring, k: u32) -> Ring
    requires { (length memory.old ≡ 65536) × (length state.old ≡ 32)
        × (length journal.now ≤ 65536) × (r.place < places_of journal.now) × (k ≤ r.kept) }
    ensures { lent_of memory.new state.new
        (journal_of journal.now result.kept result.place)
        ≡ back_of k (lent_of memory.old state.old
        (journal_of journal.now r.kept r.place)) }
{
    let places = (journal.len() / 64) as u32;
    let mut p = r.place;
    for _ in 0..k {
        p = place_before(places, p);
        copy_out(memory, state, journal, p as usize);
    }
    Ring {
        kept: r.kept - k,
        place: p,
    }
}

// The call of going back: refused, it replies the refusal's number and leaves all as it was; else
// it replies 0, memory and state record are the oldest of the k records copied out, and both
// numbers are k lower, the place wrapping.
pub fn back_call(
    memory: &mut [u8],
    state: &mut [u8],
    journal: &[u8],
    kept: &mut u32,
    place: &mut u32,
    k: u64,
) -> u32
    ensures reply { result ≡ (back_call_of k (lent_of memory.old state.old
        (journal_of journal.now kept.old place.old))).reply }
    ensures lent { lent_of memory.new state.new
        (journal_of journal.now kept.new place.new)
        ≡ (back_call_of k (lent_of memory.old state.old
        (journal_of journal.now kept.old place.old))).lent }
{
    if let Err(refused) = journal_rules::back_verdict(memory, state, journal, *kept, *place, k) {
        return refusal::refusal_number(Err(refused)) as u32;
    }
    let r = Ring {
        kept: *kept,
        place: *place,
    };
    let x = go_back(memory, state, journal, r, k as u32);
    *kept = x.kept;
    *place = x.place;
    0
}
