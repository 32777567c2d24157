// The calls of a C host: numbers and byte buffers in, one number out. Nothing is kept between
// calls.
// The definitions that the replies equal are gathered in specs/Api.antt.
#![tactic(auto)]

ghost use Rattle.std.specs.Prelude.{◌≡◌};
ghost use Rattle.xm23.specs.Api.{version_number, decode_of, number_of, encode_number};
ghost use Rattle.xm23.specs.Api.{range_reply, count_reply, next_reply};
ghost use Rattle.xm23.specs.Api.{load_call_of, write_call_of, Restores, need_reply};
ghost use Rattle.xm23.specs.Api.{journal_of, lent_of, back_call_of};
ghost use Rattle.xm23.specs.Api.{assemble_call_of, places_call_of, text_call_of};

use isa_card::{count_of, next_of};
use isa_decode::decode;
use isa_encode::encode;
use isa_number::{from_number, number};
use isa_ranges::{ends_of, operation_number, operation_of};

// The version of the library: major in bits 31-16, minor in 15-8, patch in 7-0.
#[unsafe(no_mangle)]
pub extern "C" fn xm23_version() -> u32
    ensures reply { result ≡ version_number }
{
    0x010000
}

// The number of the instruction that a word means; that of the illegal one is 0.
#[unsafe(no_mangle)]
pub extern "C" fn xm23_decode(word: u16) -> u64
    ensures reply { result ≡ number_of (decode_of word) }
{
    number(decode(word))
}

// The word of the instruction with this number, in bits 31 to 16, or 8 where it is refused.
#[unsafe(no_mangle)]
pub extern "C" fn xm23_encode(instruction: u64) -> u32
    ensures reply { result ≡ encode_number instruction }
{
    let i = from_number(instruction);
    if number(i) != instruction {
        return 8;
    }
    match encode(i) {
        Some(w) => w as u32 * 65536,
        None => 8,
    }
}

// The operation of a word in bits 15-8, and the longest unbroken range around it whose words all
// have that operation: its first word in bits 31-16, its last in bits 47-32.
#[unsafe(no_mangle)]
pub extern "C" fn xm23_range(word: u16) -> u64
    ensures reply { result ≡ range_reply word }
{
    let operation = operation_number(operation_of(decode(word)));
    let ends = ends_of(word);
    operation as u64 * 0x100 + ends.first as u64 * 0x10000 + ends.last as u64 * 0x100000000
}

// How many of the 65,536 words mean the operation with this number, in bits 31-8.
#[unsafe(no_mangle)]
pub extern "C" fn xm23_count(operation: u32) -> u32
    ensures reply { result ≡ count_reply operation }
{
    count_of(operation) * 0x100
}

// The first legal word at or above a given one with the operation of this number: 1 in bits 15-8
// and the word in bits 31-16, or 0 where there is none.
#[unsafe(no_mangle)]
pub extern "C" fn xm23_next(operation: u32, word: u32) -> u64
    ensures reply { result ≡ next_reply operation word }
{
    match next_of(operation, word) {
        Some(v) => 0x100 + v as u64 * 0x10000,
        None => 0,
    }
}

// k steps back: the newest k records of the journal copied out, newest first; refusal in bits 7-0.
// Both numbers are then k lower, the place wrapping. Refused, all stays as it was.
#[unsafe(no_mangle)]
pub extern "C" fn xm23_back(
    memory: &mut [u8],
    state: &mut [u8],
    journal: &[u8],
    kept: &mut u32,
    place: &mut u32,
    k: u64,
) -> u32
    ensures reply { result ≡ (back_call_of k
        (lent_of memory.old state.old
        (journal_of journal.now kept.old place.old))).reply }
    ensures memory { memory.new ≡ (back_call_of k
        (lent_of memory.old state.old
        (journal_of journal.now kept.old place.old))
        ).lent.memory }
    ensures state { state.new ≡ (back_call_of k
        (lent_of memory.old state.old
        (journal_of journal.now kept.old place.old))
        ).lent.state }
    ensures number { kept.new ≡ (back_call_of k
        (lent_of memory.old state.old
        (journal_of journal.now kept.old place.old))
        ).lent.journal.kept }
    ensures place { place.new ≡ (back_call_of k
        (lent_of memory.old state.old
        (journal_of journal.now kept.old place.old))
        ).lent.journal.place }
{
    going_back::back_call(memory, state, journal, kept, place, k)
}

// The text of S-records loaded into memory: refusal in bits 7-0, PC in bits 31-16, the line at
// fault in bits 63-32. Refused, memory stays as it was and the PC is the one handed in.
#[unsafe(no_mangle)]
pub extern "C" fn xm23_load_srec(memory: &mut [u8], text: &[u8], pc: u16) -> u64
    ensures reply { result ≡ (load_call_of memory.old text.now pc).reply }
    ensures memory { memory.new
        ≡ (load_call_of memory.old text.now pc).memory }
{
    srec_call::load_call(memory, text, pc)
}

// A span of memory written as S-records at the start of the text: refusal in bits 7-0, bytes
// written in bits 63-8. Bytes past the text, and all of them where refused, stay as they were.
#[unsafe(no_mangle)]
pub extern "C" fn xm23_write_srec(
    memory: &[u8],
    start: u16,
    size: u32,
    pc: u16,
    text: &mut [u8],
) -> u64
    ensures reply { result
        ≡ (write_call_of memory.now start size pc text.old).reply }
    ensures text { text.new
        ≡ (write_call_of memory.now start size pc text.old).text }
    ensures restores { Restores memory.now start size pc text.old result
        text.new }
{
    srec_call::write_call(memory, start, size, pc, text)
}

// The stack bytes that the chosen devices' handlers can need together above priority p: refusal in
// bits 7-0, the bytes in bits 31-8.
#[unsafe(no_mangle)]
pub extern "C" fn xm23_stack(vectors: &[u8], devices: u8, uses: &[u8], priority: u32) -> u32
    ensures reply { result
        ≡ need_reply vectors.now devices uses.now priority }
{
    stack_bytes::stack_call(vectors, devices, uses, priority)
}

// A source assembled into memory: refusal in bits 7-0, the line at fault in bits 63-32. Refused,
// memory stays as it was.
#[unsafe(no_mangle)]
pub extern "C" fn xm23_assemble(memory: &mut [u8], source: &[u8]) -> u64
    ensures reply { result
        ≡ (assemble_call_of memory.old source.now).reply }
    ensures memory { memory.new
        ≡ (assemble_call_of memory.old source.now).memory }
{
    asm_call::assemble_call(memory, source)
}

// What stands where in a source, a record of eight bytes for each line up to and with END: refusal
// in bits 7-0, the line at fault or the number of records in bits 63-32. Refused, places stays as
// it was; bytes past the records are kept.
#[unsafe(no_mangle)]
pub extern "C" fn xm23_places(source: &[u8], places: &mut [u8]) -> u64
    ensures reply { result
        ≡ (places_call_of source.now places.old).reply }
    ensures places { places.new
        ≡ (places_call_of source.now places.old).places }
{
    asm_places::places_call(source, places)
}

// A word at a place as the assembler writes it, at the start of `text`: refusal in bits 7-0, the
// text's length in bits 31-8. Bytes past the text, and all of them where refused, stay as they
// were.
#[unsafe(no_mangle)]
pub extern "C" fn xm23_text(word: u16, place: u16, text: &mut [u8]) -> u32
    ensures reply { result ≡ (text_call_of word place text.old).reply }
    ensures text { text.new ≡ (text_call_of word place text.old).text }
{
    asm_printer::text_call(word, place, text)
}
