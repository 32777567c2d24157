// What may stand between a statement's word and the end of its line: registers, values, flags, a
// condition, an address. Places are of one line's bytes, a slice without the line's end.
#![tactic(auto)]

ghost use Rattle.std.specs.Prelude.{◌≡◌, ◌+◌, cond, Some, None};
ghost use Rattle.asm_text.specs.Text.{blank?, after, values_in};
ghost use Rattle.asm_operands.specs.Operands.{over?, register_at, condition_at};
ghost use Rattle.asm_operands.specs.Operands.{flags_at, width_at, number?, comma?};
ghost use Rattle.asm_operands.specs.Operands.{comma_register, comma_value, changed_before};
ghost use Rattle.asm_operands.specs.Operands.{changed_after, address_at, comma_address};

use asm_text::{Names, Read};
use asm_value::{Lack, Value};

// The address of LD and ST, with the fields of its instruction.
#[derive(Clone, Copy)]
pub struct Address {
    pub prpo: u8,
    pub dec: u8,
    pub inc: u8,
    pub register: u8,
}

// The line is over at i, or a comment begins.
pub fn is_over(line: &[u8], i: usize) -> bool
    ensures { result ≡ over? line.now i }
{
    if line.len() <= i {
        return true;
    }
    line[i] == b';'
}

// A register.
#[tactic(auto, unfolding(crate::specs::Operands::register_at, crate::specs::Operands::word_said))]
pub fn read_register(line: &[u8], at: usize) -> Option<Read<u8>>
    ensures { result ≡ register_at line.now at }
{
    let t = asm_text::read_word(line, asm_text::skip_blanks(line, at));
    let value = asm_words::register_number(t.value.spelled)?;
    let next = t.next;
    Some(Read { value, next })
}

// A condition of CEX.
#[tactic(auto, unfolding(crate::specs::Operands::condition_at, crate::specs::Operands::word_said))]
pub fn read_condition(line: &[u8], at: usize) -> Option<Read<u8>>
    ensures { result ≡ condition_at line.now at }
{
    let t = asm_text::read_word(line, asm_text::skip_blanks(line, at));
    let value = asm_words::condition_number(t.value.spelled)?;
    let next = t.next;
    Some(Read { value, next })
}

// Flags of SETCC and CLRCC.
#[tactic(auto, unfolding(crate::specs::Operands::flags_at, crate::specs::Operands::word_said))]
pub fn read_flags(line: &[u8], at: usize) -> Option<Read<u8>>
    ensures { result ≡ flags_at line.now at }
{
    let q = asm_text::skip_blanks(line, at);
    let value = asm_words::flags_number(line, q)?;
    let next = asm_text::name_end(line, q);
    Some(Read { value, next })
}

// .B, .W or nothing.
#[tactic(auto, unfolding(crate::specs::Operands::width_at))]
pub fn read_width(line: &[u8], at: usize) -> Option<Read<u8>>
    ensures { result ≡ width_at line.now at }
{
    if asm_text::byte_at(line, at) != b'.' {
        return Some(Read { value: 0, next: at });
    }
    if asm_text::is_name_byte(asm_text::byte_at(line, at + 2)) {
        return None;
    }
    let next = at + 2;
    let b = asm_text::byte_at(line, at + 1);
    if b == b'B' {
        return Some(Read { value: 1, next });
    }
    if b == b'W' {
        return Some(Read { value: 0, next });
    }
    None
}

// The value there is a number, plain or in brackets: read with no names, a value is unknown exactly
// if a name stands in it.
pub fn is_number(line: &[u8], at: usize) -> bool
    ensures { result ≡ number? line.now at }
{
    let none = Names {
        source: line,
        list: &[],
    };
    let Some(read) = asm_expr::factor(&none, line, at, 16) else {
        return false;
    };
    match read.value {
        Err(Lack::Unknown) => false,
        Err(Lack::Outside) => true,
        Ok(_) => true,
    }
}

// The place after a comma.
fn after_comma(line: &[u8], at: usize) -> Option<usize>
    ensures { result ≡ cond (comma? line.now at) (Some (after blank? line.now at + 1)) None }
{
    let q = asm_text::skip_blanks(line, at);
    if asm_text::byte_at(line, q) == b',' {
        return Some(q + 1);
    }
    None
}

// A comma and a register.
#[tactic(auto, unfolding(crate::specs::Operands::comma_register))]
pub fn comma_register(line: &[u8], at: usize) -> Option<Read<u8>>
    ensures { result ≡ comma_register line.now at }
{
    let next = after_comma(line, at)?;
    read_register(line, next)
}

// A comma and a value.
#[tactic(auto, unfolding(crate::specs::Operands::comma_value, crate::specs::Operands::value_at))]
pub fn comma_value(names: &Names<'_>, line: &[u8], at: usize) -> Option<Read<Value>>
    ensures { result ≡ comma_value (values_in names.now) line.now at }
{
    let next = after_comma(line, at)?;
    asm_expr::factor(names, line, next, 16)
}

// The address that begins with a register.
#[tactic(auto, unfolding(crate::specs::Operands::changed_after))]
fn changed_after(line: &[u8], found: Read<u8>) -> Read<Address>
    ensures { Some result ≡ changed_after line.now (Some found) }
{
    let register = found.value;
    let q = asm_text::skip_blanks(line, found.next);
    let b = asm_text::byte_at(line, q);
    let mut value = Address {
        prpo: 0,
        dec: 0,
        inc: 0,
        register,
    };
    if b == b'+' {
        value.inc = 1;
        return Read { value, next: q + 1 };
    }
    if b == b'-' {
        value.dec = 1;
        return Read { value, next: q + 1 };
    }
    let next = found.next;
    Read { value, next }
}

// The address that begins with a sign, with the fields DEC and INC.
fn changed_before(dec: u8, inc: u8, found: Read<u8>) -> Read<Address>
    ensures { Some result ≡ changed_before dec inc (Some found) }
{
    let value = Address {
        prpo: 1,
        dec,
        inc,
        register: found.value,
    };
    let next = found.next;
    Read { value, next }
}

// An address.
#[tactic(auto, unfolding(crate::specs::Operands::address_at, crate::specs::Operands::changed_after))]
pub fn read_address(line: &[u8], at: usize) -> Option<Read<Address>>
    ensures { result ≡ address_at line.now at }
{
    let q = asm_text::skip_blanks(line, at);
    let b = asm_text::byte_at(line, q);
    if b == b'+' {
        let found = read_register(line, q + 1)?;
        return Some(changed_before(0, 1, found));
    }
    if b == b'-' {
        let found = read_register(line, q + 1)?;
        return Some(changed_before(1, 0, found));
    }
    let found = read_register(line, at)?;
    Some(changed_after(line, found))
}

// A comma and an address.
#[tactic(auto, unfolding(crate::specs::Operands::comma_address))]
pub fn comma_address(line: &[u8], at: usize) -> Option<Read<Address>>
    ensures { result ≡ comma_address line.now at }
{
    let next = after_comma(line, at)?;
    read_address(line, next)
}
