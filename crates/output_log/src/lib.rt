// The output log of a run: what an act shows, a record added, and the device bytes before a step
// that may have to be given up, kept and put back.
#![tactic(auto)]

ghost use Rattle.std.specs.Prelude.{◌≡◌, true, cond, ℕ, ◌+◌, ◌*◌, ◌≤◌, ltb, length, take};
ghost use Rattle.std.proofs.lemmas.List.Edits.{sets};
ghost use Rattle.machine.specs.State.{State};
ghost use Rattle.machine.specs.Log.{shown, shown_on, logged_of, shown_bytes, log_bytes};
ghost use Rattle.output_log.specs.Showing.{stored_of, listed};

use machine::Act;

// A byte that a step shows on a device.
#[derive(Clone, Copy)]
pub struct Showing {
    pub device: u8,
    pub value: u8,
}

// A byte stored in the data byte of word d: it is shown where d is an output device with ENA set.
fn shown_on(mem: &[u8; 65536], d: u16, v: u8) -> Option<Showing>
    ensures { (n : ℕ) → listed n result ≡ shown_on n mem.now d v }
{
    if 8 <= d {
        return None;
    }
    let t = mem[2 * d as usize];
    if (t / 16 % 2 != 1) | (t / 2 % 2 == 1) {
        return None;
    }
    Some(Showing {
        device: d as u8,
        value: v,
    })
}

// The byte that a store leaves at the odd address of its word: its only byte, or its high one.
fn odd_byte(byte: bool, value: u16) -> u8
    ensures { result ≡ stored_of byte value }
{
    if byte {
        return (value % 256) as u8;
    }
    (value / 256) as u8
}

// What an act shows, in the memory that it starts from.
pub fn shown_by(mem: &[u8; 65536], a: Act) -> Option<Showing>
    ensures { (s : State) → s.mem ≡ mem.now
        → listed s.count result ≡ logged_of a s }
{
    match a {
        Act::Stores { byte, at, value } => {
            if byte & (at.0 % 2 != 1) {
                return None;
            }
            shown_on(mem, memory::word_of(at).0, odd_byte(byte, value))
        }
        _ => None,
    }
}

// Would what is shown pass the room, so many records being there?
pub fn lacks_room(x: Option<Showing>, added: usize, room: usize) -> bool
    requires { added ≤ room }
    ensures { (n : ℕ) → result ≡ ltb room (added + length (listed n x)) }
{
    x.is_some() & (added == room)
}

// Record k of the log written; the other bytes stay.
fn write_record(log: &mut [u8], k: usize, step: u32, x: Showing)
    requires { 8 * k + 8 ≤ length log.old }
    ensures { log.new
        ≡ sets log.old (8 * k) (shown_bytes (shown step x.device x.value)) }
{
    let i = 8 * k;
    little_endian::put_four(log, i, step);
    log[i + 4] = x.device;
    log[i + 5] = x.value;
    log[i + 6] = 0;
    log[i + 7] = 0;
}

// What the step of this count shows, added after k records; the records that are then there.
pub fn add(log: &mut [u8], k: usize, step: u32, x: Option<Showing>) -> usize
    requires { 8 * (k + length (listed step x)) ≤ length log.old }
    ensures added { result ≡ k + length (listed step x) }
    ensures log { log.new
        ≡ sets log.old (8 * k) (log_bytes (listed step x)) }
{
    match x {
        None => k,
        Some(s) => {
            write_record(log, k, step, s);
            k + 1
        }
    }
}

// The sixteen device bytes copied out where they are wanted.
pub fn keep(mem: &[u8; 65536], wanted: bool, kept: &mut [u8; 16])
    ensures bytes { wanted ≡ true → kept.new ≡ take 16 mem.now }
    ensures size { length kept.new ≡ 16 }
{
    if !wanted {
        return;
    }
    for i in 0..16 {
        kept[i] = mem[i];
    }
}

// The device bytes put back where they were wanted.
pub fn put_back(mem: &mut [u8; 65536], wanted: bool, kept: &[u8; 16])
    ensures { mem.new
        ≡ cond wanted (sets mem.old 0 kept.now) mem.old }
{
    if !wanted {
        return;
    }
    for i in 0..16 {
        mem[i] = kept[i];
    }
}
