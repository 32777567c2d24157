// Values in a source: expression, term and factor call each other. Each call from factor to
// expression opens a bracket, of which `left` may still be opened, and each turn of a loop takes a
// sign and a part, so both end.
#![tactic(auto)]

ghost use Rattle.std.specs.Prelude.{◌≡◌, ◌≤◌, Some, Err};
ghost use Rattle.asm_value.specs.declared.Lack.TheVariants.{Unknown};
ghost use Rattle.asm_text.specs.Text.{values_in};
ghost use Rattle.asm_expr.specs.Grammar.{digits_at, name_at, plain_at, factor_of};
ghost use Rattle.asm_expr.specs.Grammar.{term_of, expression_of, plus?, times?};
ghost use Rattle.asm_expr.specs.Meaning.{answer_of, shut};

use asm_text::{Names, Read};
use asm_value::Value;

// The sign of a sum.
fn is_plus(b: u8) -> bool
    ensures { result ≡ plus? b }
{
    (b == b'+') | (b == b'-')
}

// The sign of a product.
fn is_times(b: u8) -> bool
    ensures { result ≡ times? b }
{
    (b == b'*') | (b == b'/')
}

// At least one digit of the base.
fn literal(s: &[u8], at: usize, base: u64, negative: bool) -> Option<Read<Value>>
    requires { (1 ≤ base) × (base ≤ 16) }
    ensures { result ≡ answer_of (λ _. Err Unknown) (digits_at negative base s.now at) }
{
    let digits = asm_text::read_digits(s, at, base);
    if digits.next == at {
        return None;
    }
    let value = asm_value::number(negative, digits.value);
    let next = digits.next;
    Some(Read { value, next })
}

// A name, if its word is none of the language.
#[tactic(auto, unfolding(crate::specs::Grammar::name_at, crate::specs::Meaning::answer_of, crate::specs::Meaning::value_of))]
fn named(names: &Names<'_>, s: &[u8], at: usize) -> Option<Read<Value>>
    ensures { result ≡ answer_of (values_in names.now) (name_at s.now at) }
{
    let t = asm_text::read_word(s, at);
    if !asm_words::is_free(asm_words::find_word(t.value.spelled)) {
        return None;
    }
    let value = asm_text::look_up(names, s, at, t.value.key);
    let next = t.next;
    Some(Read { value, next })
}

// A number or a name.
fn plain(names: &Names<'_>, s: &[u8], at: usize) -> Option<Read<Value>>
    ensures { result ≡ answer_of (values_in names.now) (plain_at s.now at) }
{
    let b = asm_text::byte_at(s, at);
    if asm_text::is_letter(b) {
        return named(names, s, at);
    }
    if b == b'#' {
        if asm_text::byte_at(s, at + 1) == b'-' {
            return literal(s, at + 2, 10, true);
        }
        return literal(s, at + 1, 10, false);
    }
    if b == b'$' {
        return literal(s, at + 1, 16, false);
    }
    None
}

// What was read, with `)` after it.
#[tactic(auto, unfolding(crate::specs::Meaning::shut))]
fn close(s: &[u8], inner: Read<Value>) -> Option<Read<Value>>
    ensures { result ≡ shut s.now (Some inner) }
{
    let q = asm_text::skip_blanks(s, inner.next);
    if asm_text::byte_at(s, q) != b')' {
        return None;
    }
    let value = inner.value;
    let next = q + 1;
    Some(Read { value, next })
}

// A number, a name or a bracket, of which `left` may be opened one in another.
#[cycle(expression_factor_term)]
pub fn factor(names: &Names<'_>, s: &[u8], at: usize, left: usize) -> Option<Read<Value>>
    ensures { result ≡ answer_of (values_in names.now) (factor_of left s.now at) }
{
    let q = asm_text::skip_blanks(s, at);
    if asm_text::byte_at(s, q) == b'(' {
        if left == 0 {
            return None;
        }
        let inner = expression(names, s, q + 1, left - 1)?;
        return close(s, inner);
    }
    plain(names, s, q)
}

// Factors with `*` and `/` between them.
// Kept: a twin of `expression`, since 01 names the form: expression, term and factor call each other.
#[cycle(expression_factor_term)]
pub fn term(names: &Names<'_>, s: &[u8], at: usize, left: usize) -> Option<Read<Value>>
    ensures { result ≡ answer_of (values_in names.now) (term_of left s.now at) }
{
    let mut so_far = factor(names, s, at, left)?;
    loop {
        let q = asm_text::skip_blanks(s, so_far.next);
        let sign = asm_text::byte_at(s, q);
        if !is_times(sign) {
            return Some(so_far);
        }
        let part = factor(names, s, q + 1, left)?;
        so_far.value = asm_value::combine(sign, so_far.value, part.value);
        so_far.next = part.next;
    }
}

// Terms with `+` and `-` between them.
#[cycle(expression_factor_term)]
pub fn expression(names: &Names<'_>, s: &[u8], at: usize, left: usize) -> Option<Read<Value>>
    ensures { result ≡ answer_of (values_in names.now) (expression_of left s.now at) }
{
    let mut so_far = term(names, s, at, left)?;
    loop {
        let q = asm_text::skip_blanks(s, so_far.next);
        let sign = asm_text::byte_at(s, q);
        if !is_plus(sign) {
            return Some(so_far);
        }
        let part = term(names, s, q + 1, left)?;
        so_far.value = asm_value::combine(sign, so_far.value, part.value);
        so_far.next = part.next;
    }
}
