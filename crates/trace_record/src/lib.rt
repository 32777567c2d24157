// A record of a trace: its bytes, and what an act's record has.
#![tactic(auto)]

ghost use Rattle.std.specs.Prelude.{◌≡◌, ℕ, ◌+◌, ◌*◌, ◌<◌, ◌≤◌, List, length};
ghost use Rattle.std.proofs.lemmas.List.Edits.{sets};
ghost use Rattle.word.specs.Psw.{bit_of};
ghost use Rattle.machine.specs.State.{state_of};
ghost use Rattle.machine.specs.Memory.{value_at};
ghost use Rattle.trace.specs.Trace.{entry, entry_bytes, trace_bytes, kind_of, operand_of};
ghost use Rattle.trace_record.specs.Written.{entry_with, seen_of, told, told_of};
ghost use Rattle.trace_record.specs.Written.{head_bytes, tail_bytes, act_written};

use little_endian::{put_four, put_two};
use machine::{Act, ByteAddr, Machine};

// What stood before a step: the step count, PC, SP and PSW.
#[derive(Clone, Copy)]
pub struct Before {
    pub step: u32,
    pub pc: u16,
    pub sp: u16,
    pub psw: u16,
}

// What a record has of its own: a number, an address and a value.
#[derive(Clone, Copy)]
pub struct Told {
    pub number: u8,
    pub address: u16,
    pub value: u16,
}

// What every record of the step that begins in a machine has.
pub fn start_of(m: Machine) -> Before
    ensures { (mem : List ℕ) (k n a v : ℕ)
        → entry_with result k n a v ≡ entry (state_of m mem) k n a v }
{
    let regs = m.regs;
    Before {
        step: m.rest.count,
        pc: regs[7],
        sp: regs[6],
        psw: m.rest.psw,
    }
}

// Is a kind asked for?
pub fn asks(kinds: u32, kind: u8) -> bool
    requires { kind < 32 }
    ensures { result ≡ bit_of kind kinds }
{
    (kinds >> kind) % 2 == 1
}

// The kind of an act.
// Kept: the numbers are the record's byte, as C reads it.
pub fn kind_of(a: Act) -> u8
    ensures { (result ≡ kind_of a) × (result < 32) }
{
    match a {
        Act::Stopped => 12,
        Act::Pull => 1,
        Act::Chain(..) => 2,
        Act::Accept(..) => 3,
        Act::Sleep => 4,
        Act::Fault(..) => 5,
        Act::Halt => 6,
        Act::Skip => 7,
        Act::Trap(..) => 8,
        Act::Plain => 9,
        Act::Loads { .. } => 10,
        Act::Stores { .. } => 11,
    }
}

// What stands at an address: a byte, or the word that it lies in.
fn value_at(mem: &[u8; 65536], byte: bool, a: ByteAddr) -> u16
    ensures { result ≡ value_at byte mem.now a.0 }
{
    if byte {
        return memory::read_byte(mem, a) as u16;
    }
    memory::read_word(mem, memory::word_of(a))
}

// The value that an act is about to load.
pub fn seen_by(mem: &[u8; 65536], a: Act) -> u16
    ensures { result ≡ seen_of a mem.now }
{
    match a {
        Act::Loads { byte, at, .. } => value_at(mem, byte, at),
        _ => 0,
    }
}

// The operand of a store, of a byte its low byte.
fn operand(byte: bool, v: u16) -> u16
    ensures { result ≡ operand_of byte v }
{
    if byte {
        return v % 256;
    }
    v
}

fn telling(number: u8, address: u16, value: u16) -> Told
    ensures { result ≡ told number address value }
{
    Told {
        number,
        address,
        value,
    }
}

// Number, address and value of an act, with what it loaded and PC and PSW after it.
fn tell(a: Act, seen: u16, pc: u16, psw: u16) -> Told
    ensures { result ≡ told_of a seen pc psw }
{
    match a {
        Act::Pull => telling(0, pc, psw),
        Act::Chain(v) | Act::Accept(v) | Act::Fault(v) | Act::Trap(v) => telling(v, pc, psw),
        Act::Loads { byte, at, .. } => telling(byte as u8, at.0, seen),
        Act::Stores { byte, at, value } => telling(byte as u8, at.0, operand(byte, value)),
        _ => telling(0, 0, 0),
    }
}

// The first eight bytes of a record, and the last eight, at byte i; the other bytes stay.
fn put_head(trace: &mut [u8], i: usize, step: u32, kind: u8, x: Told)
    requires { i + 8 ≤ length trace.old }
    ensures { trace.new
        ≡ sets trace.old i (head_bytes step kind x.number x.address) }
{
    put_four(trace, i, step);
    trace[i + 4] = kind;
    trace[i + 5] = x.number;
    put_two(trace, i + 6, x.address);
}

fn put_tail(trace: &mut [u8], i: usize, value: u16, b: Before)
    requires { i + 8 ≤ length trace.old }
    ensures { trace.new
        ≡ sets trace.old i (tail_bytes value b.pc b.sp b.psw) }
{
    put_two(trace, i, value);
    put_two(trace, i + 2, b.pc);
    put_two(trace, i + 4, b.sp);
    put_two(trace, i + 6, b.psw);
}

// Record k of the trace written; the other bytes stay.
pub fn put_record(trace: &mut [u8], k: usize, b: Before, kind: u8, x: Told)
    requires { 16 * k + 16 ≤ length trace.old }
    ensures { trace.new
        ≡ sets trace.old (16 * k)
        (entry_bytes (entry_with b kind x.number x.address x.value)) }
{
    put_head(trace, 16 * k, b.step, kind, x);
    put_tail(trace, 16 * k + 8, x.value, b);
}

// The record of an act added after k records, if its kind is asked for; the records then there.
pub fn add_act(
    trace: &mut [u8],
    k: usize,
    b: Before,
    kinds: u32,
    a: Act,
    seen: u16,
    pc: u16,
    psw: u16,
) -> usize
    requires { 16 * (k + length (act_written b kinds a seen pc psw)) ≤ length trace.old }
    ensures added { result ≡ k + length (act_written b kinds a seen pc psw) }
    ensures trace { trace.new ≡ sets trace.old (16 * k)
        (trace_bytes (act_written b kinds a seen pc psw)) }
{
    let kind = kind_of(a);
    if !asks(kinds, kind) {
        return k;
    }
    let x = tell(a, seen, pc, psw);
    put_record(trace, k, b, kind, x);
    k + 1
}
