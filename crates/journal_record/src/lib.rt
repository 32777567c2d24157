// One record of the journal, 64 bytes, and the ring that it is put into. It is written once the act
// of the step is known and before the act is done: memory then is as before the step but for the
// device bytes, which the step's events may have changed and which are lent as they were.
#![tactic(auto)]

ghost use Rattle.std.specs.Prelude.{◌≡◌, ℕ, ◌+◌, ◌*◌, ◌<◌, ◌≤◌, List, length, if◌then◌else◌};
ghost use Rattle.std.proofs.lemmas.List.Edits.{sets};
ghost use Rattle.machine.specs.State.{Core, sp, down, state_of};
ghost use Rattle.machine.specs.Memory.{byte_at, even};
ghost use Rattle.machine.specs.Record.{record_of};
ghost use Rattle.machine.specs.Devices.{device?};
ghost use Rattle.journal.specs.Record.{first_stored, address_of, bytes_from, fields_of};
ghost use Rattle.journal.specs.Ring.{following, one_more};
ghost use Rattle.journal_record.specs.Before.{Before};
ghost use Rattle.journal_record.specs.Ring.{Lends, journal_with, kept_in};

use machine::{Act, ByteAddr, Machine};

// The address of the word that a byte lies in: bit 0 dropped.
fn word_at(a: ByteAddr) -> u16
    ensures { result ≡ even a.0 }
{
    memory::byte_of(memory::word_of(a)).0
}

// The address of the last word that an entry pushes, bit 0 dropped.
fn frame_at(stack: u16) -> u16
    ensures { result ≡ even (down stack 8) }
{
    word_at(ByteAddr(stack.wrapping_sub(8)))
}

// The first byte of a store where it is outside the device bytes, else 0.
fn stored_at(byte: bool, at: ByteAddr) -> u16
    ensures { result
        ≡ (if device? (first_stored byte at.0) then 0 else first_stored byte at.0) }
{
    if at.0 < 16 {
        return 0;
    }
    if byte {
        return at.0;
    }
    word_at(at)
}

// The address of a step that does this act, SP being what the act starts from.
fn address_of(a: Act, stack: u16) -> u16
    ensures { (c : Core) → sp c ≡ stack → result ≡ address_of a c }
{
    match a {
        Act::Accept(..) | Act::Fault(..) | Act::Trap(..) => frame_at(stack),
        Act::Stores { byte, at, .. } => stored_at(byte, at),
        _ => 0,
    }
}

// The byte at an address before the events.
fn byte_before(devices: &[u8; 16], mem: &[u8; 65536], a: u16) -> u8
    ensures { (m : List ℕ) → Before m devices.now mem.now
        → result ≡ byte_at m a }
{
    let i = a as usize;
    if i < 16 {
        return devices[i];
    }
    mem[i]
}

// The eight bytes from an address on that meets no device byte and does not wrap.
// Kept: eight reads in a row, of which the compiler makes one.
fn eight_at(mem: &[u8; 65536], a: u16) -> [u8; 8]
    requires { (16 ≤ a) × (a ≤ 65528) }
    ensures { (m : List ℕ) (d : List ℕ) → Before m d mem.now
        → result ≡ bytes_from m a 8 }
{
    let i = a as usize;
    [
        mem[i],
        mem[i + 1],
        mem[i + 2],
        mem[i + 3],
        mem[i + 4],
        mem[i + 5],
        mem[i + 6],
        mem[i + 7],
    ]
}

// The first eight device bytes: those at address 0, which a step that writes nothing else has.
fn first_eight(devices: &[u8; 16]) -> [u8; 8]
    ensures { (m : List ℕ) (b : List ℕ) → Before m devices.now b
        → result ≡ bytes_from m 0 8 }
{
    [
        devices[0], devices[1], devices[2], devices[3], devices[4], devices[5], devices[6],
        devices[7],
    ]
}

// The eight bytes from any address on before the events, addresses wrapping.
fn eight_before(devices: &[u8; 16], mem: &[u8; 65536], a: u16) -> [u8; 8]
    ensures { (m : List ℕ) → Before m devices.now mem.now
        → result ≡ bytes_from m a 8 }
{
    if (16 <= a) & (a <= 65528) {
        return eight_at(mem, a);
    }
    if a == 0 {
        return first_eight(devices);
    }
    [
        byte_before(devices, mem, a),
        byte_before(devices, mem, a.wrapping_add(1)),
        byte_before(devices, mem, a.wrapping_add(2)),
        byte_before(devices, mem, a.wrapping_add(3)),
        byte_before(devices, mem, a.wrapping_add(4)),
        byte_before(devices, mem, a.wrapping_add(5)),
        byte_before(devices, mem, a.wrapping_add(6)),
        byte_before(devices, mem, a.wrapping_add(7)),
    ]
}

// Bytes put into a record from byte `at` on.
fn put_bytes(e: &mut [u8], at: usize, v: &[u8])
    requires { at + length v.now ≤ length e.old }
    ensures { e.new ≡ sets e.old at v.now }
{
    for i in 0..v.len() {
        e[at + i] = v[i];
    }
}

// All 64 bytes of a record.
fn fill(e: &mut [u8], m: Machine, devices: &[u8; 16], mem: &[u8; 65536], a: u16)
    requires { length e.old ≡ 64 }
    ensures { (b : List ℕ) → Before b devices.now mem.now
        → e.new
        ≡ fields_of (record_of (state_of m b)) (bytes_from b 0 16) a (bytes_from b a 8) }
{
    let eight = eight_before(devices, mem, a);
    state_record::write_record(&mut e[..32], m);
    put_bytes(e, 32, devices);
    little_endian::put_two(e, 48, a);
    put_bytes(e, 50, &eight);
    put_bytes(e, 58, &[0; 6]);
}

// The record at place p of the journal.
fn put_record(
    journal: &mut [u8],
    p: usize,
    m: Machine,
    devices: &[u8; 16],
    mem: &[u8; 65536],
    a: u16,
)
    requires { 64 * p + 64 ≤ length journal.old }
    ensures { (b : List ℕ) → Before b devices.now mem.now
        → journal.new ≡ sets journal.old (64 * p)
        (fields_of (record_of (state_of m b)) (bytes_from b 0 16) a (bytes_from b a 8)) }
{
    let from = 64 * p;
    let to = from + 64;
    fill(&mut journal[from..to], m, devices, mem, a);
}

// The number of records kept, and the place of the next.
#[derive(Clone, Copy)]
pub struct Ring {
    pub kept: u32,
    pub place: u32,
}

// One more kept, as far as there are places.
fn one_more(places: u32, kept: u32) -> u32
    requires { kept ≤ places }
    ensures { result ≡ one_more places kept }
{
    if kept < places {
        return kept + 1;
    }
    kept
}

// The place after p.
fn place_after(places: u32, p: u32) -> u32
    requires { p < places }
    ensures { result ≡ following places p }
{
    if p + 1 == places {
        return 0;
    }
    p + 1
}

// The record of a step put into the journal at the next place, and the ring after it. The machine
// is that before the step, `stack` the SP that the act starts from. A journal of no length is none.
pub fn keep_step(
    journal: &mut [u8],
    r: Ring,
    m: Machine,
    devices: &[u8; 16],
    mem: &[u8; 65536],
    a: Act,
    stack: u16,
) -> Ring
    requires { Lends journal.old r }
    ensures kept { (b : List ℕ) (c : Core) → Before b devices.now
        mem.now → sp c ≡ stack
        → journal_with journal.new result
        ≡ kept_in journal.old r (fields_of (record_of (state_of m b)) (bytes_from b 0 16)
        (address_of a c) (bytes_from b (address_of a c) 8)) }
    ensures lends { Lends journal.new result }
{
    if journal.len() == 0 {
        return r;
    }
    let places = (journal.len() / 64) as u32;
    put_record(
        journal,
        r.place as usize,
        m,
        devices,
        mem,
        address_of(a, stack),
    );
    Ring {
        kept: one_more(places, r.kept),
        place: place_after(places, r.place),
    }
}
