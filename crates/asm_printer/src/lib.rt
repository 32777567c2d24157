// A word's text: its parts by the ranges of the decoder, then their bytes at the start of a lent
// buffer.
#![tactic(auto, unfolding(asm_print::specs::Print::text_for, asm_print::specs::Print::text_at, asm_spellings::specs::Spellings::letters_of, isa::specs::Decode::decode_of, crate::specs::Parts::behind))]

ghost use Rattle.std.specs.Prelude.{◌≡◌, cond, [], ◌∷◌, ◌++◌, ◌+◌, ◌*◌, ◌/◌, ◌%◌, ◌≤◌, ◌<◌, eqb, pos, length};
ghost use Rattle.std.proofs.lemmas.List.Edits.{sets};
ghost use Rattle.word.specs.Offset.{signed_of};
ghost use Rattle.isa.specs.declared.Instr.TheVariants.{Alu, Ld, St, MovImm};
ghost use Rattle.isa.specs.Decode.{unary_of, control_of, misc_of, memory_of, relative_of};
ghost use Rattle.asm_text.specs.Text.{ascii};
ghost use Rattle.asm_print.specs.Print.{condition_text, register_text, number_text};
ghost use Rattle.asm_print.specs.Print.{flags_text, idle?, with_comma, size_mark, phrase, word_text};
ghost use Rattle.asm_print.specs.Print.{target_of, branch_text, text_at};
ghost use Rattle.asm_spellings.specs.Spellings.{letters_of};
ghost use Rattle.asm_printer.specs.Parts.{behind, operands_text, parts_text, Prints};
ghost use Rattle.asm_printer.specs.Call.{text_call_of};

use asm_spellings::{
    address, condition, constant, count, flags, hex_byte, hex_word, offset, register,
};

// The mnemonics that have no field of their own, and WORD, as spellings.
const BL: u64 = 0x424C;

const MOV: u64 = 0x4D4F56;

const SWAP: u64 = 0x53574150;

const SWPB: u64 = 0x53575042;

const SXT: u64 = 0x535854;

const SETPRI: u64 = 0x534554505249;

const SVC: u64 = 0x535643;

const SETCC: u64 = 0x5345544343;

const CLRCC: u64 = 0x434C524343;

const CEX: u64 = 0x434558;

const LD: u64 = 0x4C44;

const ST: u64 = 0x5354;

const LDR: u64 = 0x4C4452;

const STR: u64 = 0x535452;

const WORD: u64 = 0x574F5244;

// A statement in parts: the spellings of its mnemonic and its one to three operands, and whether it
// is a byte form.
#[derive(Clone, Copy)]
pub struct Parts {
    pub mnemonic: u64,
    pub wb: u16,
    pub first: u64,
    pub second: Option<u64>,
    pub third: Option<u64>,
}

// A statement.
fn statement(mnemonic: u64, wb: u16, first: u64, second: Option<u64>, third: Option<u64>) -> Parts
    ensures { parts_text result
        ≡ phrase (letters_of 6 mnemonic) wb (operands_text first second third) }
{
    Parts {
        mnemonic,
        wb,
        first,
        second,
        third,
    }
}

// WORD and the word.
fn word(w: u16) -> Parts
    ensures { parts_text result ≡ word_text w }
{
    let first = hex_word(w);
    Parts {
        mnemonic: WORD,
        wb: 0,
        first,
        second: None,
        third: None,
    }
}

// Where a branch leads whose offset has the bits o, in a format of 2 * half offsets.
fn target(place: u16, half: u32, o: u16) -> u16
    requires { (half ≤ 4096) × (o < half + half) }
    ensures { result ≡ target_of place (signed_of half o) }
{
    let p = place as u32;
    let d = o as u32;
    if d < half {
        return ((p + 2 + 2 * d) % 65536) as u16;
    }
    ((p + 131074 - 2 * (half + half - d)) % 65536) as u16
}

// A branch by its target; at an odd place a word.
fn branch(q: u64, place: u16, w: u16, half: u32, o: u16) -> Parts
    requires { (half ≤ 4096) × (o < half + half) }
    ensures { parts_text result ≡ branch_text (letters_of 6 q) place w (signed_of half o) }
{
    if place % 2 == 0 {
        let first = hex_word(target(place, half, o));
        return statement(q, 0, first, None, None);
    }
    word(w)
}

// One register.
fn of_register(q: u64, wb: u16, d: u16) -> Parts
    requires { d < 8 }
    ensures { parts_text result ≡ phrase (letters_of 6 q) wb (register_text d) }
{
    let first = register(d);
    statement(q, wb, first, None, None)
}

// Two registers.
fn of_registers(q: u64, wb: u16, s: u16, d: u16) -> Parts
    requires { (s < 8) × (d < 8) }
    ensures { parts_text result
        ≡ phrase (letters_of 6 q) wb (with_comma (register_text s) (register_text d)) }
{
    let first = register(s);
    let second = register(d);
    statement(q, wb, first, Some(second), None)
}

// A number.
fn of_number(q: u64, n: u16) -> Parts
    requires { n < 16 }
    ensures { parts_text result ≡ phrase (letters_of 6 q) 0 (number_text (pos n)) }
{
    let first = count(n);
    statement(q, 0, first, None, None)
}

// Flags, if there are any.
fn of_flags(q: u64, f: u16, w: u16) -> Parts
    requires { f < 32 }
    ensures { parts_text result
        ≡ cond (eqb f 0) (word_text w) (phrase (letters_of 6 q) 0 (flags_text f)) }
{
    if f == 0 {
        return word(w);
    }
    let first = flags(f);
    statement(q, 0, first, None, None)
}

// SWPB and SXT, unless the ignored bit is set.
fn unless_ignored(q: u64, w: u16) -> Parts
    ensures { parts_text result
        ≡ cond (eqb (w / 64 % 2) 0) (phrase (letters_of 6 q) 0 (register_text (w % 8)))
        (word_text w) }
{
    if w / 64 % 2 == 0 {
        return of_register(q, 0, w % 8);
    }
    word(w)
}

// SWAP, unless the ignored bit is set.
fn swap(w: u16) -> Parts
    ensures { parts_text result
        ≡ cond (eqb (w / 64 % 2) 0)
        (phrase (ascii "SWAP") 0 (with_comma (register_text (w / 8 % 8)) (register_text (w % 8))))
        (word_text w) }
{
    if w / 64 % 2 == 0 {
        return of_registers(SWAP, 0, w / 8 % 8, w % 8);
    }
    word(w)
}

// ADD to BIS.
fn alu(w: u16) -> Parts
    requires { (0x4000 ≤ w) × (w < 0x4C00) }
    ensures { Prints result w
        (Alu (w / 256 % 16) (w / 128 % 2) (w / 64 % 2) (w / 8 % 8) (w % 8)) }
{
    let q = asm_spellings::operation_name(w / 256 % 16);
    if w / 128 % 2 == 0 {
        return of_registers(q, w / 64 % 2, w / 8 % 8, w % 8);
    }
    let first = constant(w / 8 % 8);
    let second = register(w % 8);
    statement(q, w / 64 % 2, first, Some(second), None)
}

// SRA, RRC, COMP, SWPB, SXT.
fn unary(w: u16) -> Parts
    ensures { Prints result w (unary_of w) }
{
    match w / 8 % 8 {
        op @ 0..3 => {
            let q = asm_spellings::unary_name(op);
            of_register(q, w / 64 % 2, w % 8)
        }
        3 => unless_ignored(SWPB, w),
        4 => unless_ignored(SXT, w),
        _ => word(w),
    }
}

// SETPRI, SVC, SETCC, CLRCC.
fn control(w: u16) -> Parts
    ensures { Prints result w (control_of w) }
{
    match w {
        ..0x4D88 => of_number(SETPRI, w % 8),
        0x4D88..0x4DA0 => word(w),
        0x4DA0..0x4DB0 => of_number(SVC, w % 16),
        0x4DB0..0x4DC0 => word(w),
        0x4DC0..0x4DE0 => of_flags(SETCC, w % 32, w),
        _ => of_flags(CLRCC, w % 32, w),
    }
}

// MOV, SWAP, one register, control.
fn misc(w: u16) -> Parts
    ensures { Prints result w (misc_of w) }
{
    match w {
        ..0x4C80 => of_registers(MOV, w / 64 % 2, w / 8 % 8, w % 8),
        0x4C80..0x4D00 => swap(w),
        0x4D00..0x4D80 => unary(w),
        0x4D80..0x4E00 => control(w),
        _ => word(w),
    }
}

// CEX.
fn conditional(w: u16) -> Parts
    ensures { parts_text result ≡ phrase (ascii "CEX") 0 (with_comma (condition_text (w / 64 % 16))
        (with_comma (number_text (pos (w / 8 % 8))) (number_text (pos (w % 8))))) }
{
    let first = condition(w / 64 % 16);
    let second = count(w / 8 % 8);
    let third = count(w % 8);
    statement(CEX, 0, first, Some(second), Some(third))
}

// Whether an adjustment moves nothing and is not plain.
fn idle(prpo: u16, dec: u16, inc: u16) -> bool
    requires { (prpo < 2) × (dec < 2) }
    ensures { result ≡ idle? prpo dec inc }
{
    (dec == inc) & (0 < prpo + dec)
}

// LD.
fn load(w: u16) -> Parts
    ensures { Prints result w
        (Ld (w / 512 % 2) (w / 256 % 2) (w / 128 % 2) (w / 64 % 2) (w / 8 % 8) (w % 8)) }
{
    if idle(w / 512 % 2, w / 256 % 2, w / 128 % 2) {
        return word(w);
    }
    let first = address(w / 512 % 2, w / 256 % 2, w / 128 % 2, w / 8 % 8);
    let second = register(w % 8);
    statement(LD, w / 64 % 2, first, Some(second), None)
}

// ST.
fn store(w: u16) -> Parts
    ensures { Prints result w
        (St (w / 512 % 2) (w / 256 % 2) (w / 128 % 2) (w / 64 % 2) (w / 8 % 8) (w % 8)) }
{
    if idle(w / 512 % 2, w / 256 % 2, w / 128 % 2) {
        return word(w);
    }
    let first = register(w / 8 % 8);
    let second = address(w / 512 % 2, w / 256 % 2, w / 128 % 2, w % 8);
    statement(ST, w / 64 % 2, first, Some(second), None)
}

// CEX, LD, ST.
fn memory(w: u16) -> Parts
    ensures { Prints result w (memory_of w) }
{
    match w {
        ..0x5400 => conditional(w),
        0x5400..0x5800 => word(w),
        0x5800..0x5C00 => load(w),
        _ => store(w),
    }
}

// MOVL to MOVH.
fn move_byte(w: u16) -> Parts
    ensures { Prints result w (MovImm (w / 2048 % 4) (w / 8 % 256) (w % 8)) }
{
    let q = asm_spellings::move_name(w / 2048 % 4);
    let first = hex_byte(w / 8 % 256);
    let second = register(w % 8);
    statement(q, 0, first, Some(second), None)
}

// LDR, STR.
fn relative(w: u16) -> Parts
    ensures { Prints result w (relative_of w) }
{
    let way = offset(w / 128 % 128);
    let first = register(w / 8 % 8);
    let other = register(w % 8);
    if w < 0xC000 {
        return statement(LDR, w / 64 % 2, first, Some(way), Some(other));
    }
    statement(STR, w / 64 % 2, first, Some(other), Some(way))
}

// The parts of a word's text at a place.
pub fn parts_of(place: u16, w: u16) -> Parts
    ensures { parts_text result ≡ text_at place w }
{
    match w {
        ..0x2000 => branch(BL, place, w, 4096, w % 8192),
        0x2000..0x4000 => {
            let q = asm_spellings::branch_name(w / 1024 % 8);
            branch(q, place, w, 512, w % 1024)
        }
        0x4000..0x4C00 => alu(w),
        0x4C00..0x5000 => misc(w),
        0x5000..0x6000 => memory(w),
        0x6000..0x8000 => move_byte(w),
        _ => relative(w),
    }
}

// One byte.
fn put(text: &mut [u8], at: usize, b: u8) -> usize
    requires { at < length text.old }
    ensures { (text.new ≡ sets text.old at (b ∷ [])) × (result ≡ at + 1) }
{
    text[at] = b;
    at + 1
}

// The last k bytes of a spelling.
fn put_letters(text: &mut [u8], at: usize, k: usize, q: u64) -> usize
    requires { at + k ≤ length text.old }
    ensures { (text.new ≡ sets text.old at (letters_of k q))
        × (result ≡ at + length (letters_of k q)) × (result ≤ at + k) }
{
    if k == 0 || q == 0 {
        return at;
    }
    let next = put_letters(text, at, k - 1, q / 256);
    put(text, next, (q % 256) as u8)
}

// A comma and an operand, if there is one.
fn put_behind(text: &mut [u8], at: usize, q: Option<u64>) -> usize
    requires { at + 5 ≤ length text.old }
    ensures { (text.new ≡ sets text.old at (behind q))
        × (result ≡ at + length (behind q)) × (result ≤ at + 5) }
{
    let Some(q) = q else {
        return at;
    };
    let next = put(text, at, b',');
    put_letters(text, next, 4, q)
}

// .B, if it is a byte form, and a blank.
fn put_size_mark(text: &mut [u8], at: usize, wb: u16) -> usize
    requires { at + 3 ≤ length text.old }
    ensures { (text.new ≡ sets text.old at (size_mark wb ++ (32 ∷ [])))
        × (result ≡ at + length (size_mark wb ++ (32 ∷ []))) × (result ≤ at + 3) }
{
    if wb == 0 {
        return put(text, at, b' ');
    }
    let one = put(text, at, b'.');
    let two = put(text, one, b'B');
    put(text, two, b' ')
}

// A statement at the start of the buffer: its length.
fn put_parts(text: &mut [u8], x: Parts) -> usize
    requires { 24 ≤ length text.old }
    ensures { (text.new ≡ sets text.old 0 (parts_text x))
        × (result ≡ length (parts_text x)) × (result ≤ 24) }
{
    let one = put_letters(text, 0, 6, x.mnemonic);
    let two = put_size_mark(text, one, x.wb);
    let three = put_letters(text, two, 5, x.first);
    let four = put_behind(text, three, x.second);
    put_behind(text, four, x.third)
}

// A word at a place as the assembler writes it, at the start of `text`: refusal and length. Bytes
// past the text, and all of them where refused, stay as they were.
pub fn text_call(w: u16, place: u16, text: &mut [u8]) -> u32
    ensures reply { result ≡ (text_call_of w place text.old).reply }
    ensures text { text.new ≡ (text_call_of w place text.old).text }
{
    if text.len() < 24 {
        return 22;
    }
    let x = parts_of(place, w);
    let n = put_parts(text, x);
    256 * (n as u32)
}
