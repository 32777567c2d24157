// The assembler's text: blanks, digits, words and names of a source, read at a place. A place past
// the end reads as the byte 0, which is no blank, no digit and no letter.
#![tactic(auto)]

ghost use Rattle.std.specs.Prelude.{◌≡◌, ◌+◌, ◌-◌, ◌*◌, ◌%◌, ◌≤◌, ◌<◌, ◌^◌, min, cond, Some, None, drop, length};
ghost use Rattle.std.specs.List.{prefix_len};
ghost use Rattle.asm_text.specs.Text.{byte_at, blank?, letter?, name_byte?};
ghost use Rattle.asm_text.specs.Text.{digit_of, after, digit?, numeral};
ghost use Rattle.asm_text.specs.Text.{word, same, spelled, key_of, values_in};

use asm_value::{Lack, Value};

// What was read, and the place after it.
#[derive(Clone, Copy)]
pub struct Read<T> {
    pub value: T,
    pub next: usize,
}

// A word: its spelling as one number, and its key.
#[derive(Clone, Copy)]
pub struct Token {
    pub spelled: u64,
    pub key: u32,
}

// The byte at i, or 0 past the end.
pub fn byte_at(s: &[u8], i: usize) -> u8
    ensures { result ≡ byte_at s.now i }
{
    if i < s.len() {
        return s[i];
    }
    0
}

// A blank or a tab.
pub fn is_blank(b: u8) -> bool
    ensures { result ≡ blank? b }
{
    (b == 32) | (b == 9)
}

// A letter A to Z.
pub fn is_letter(b: u8) -> bool
    ensures { result ≡ letter? b }
{
    (65 <= b) & (b <= 90)
}

// A letter or a digit.
pub fn is_name_byte(b: u8) -> bool
    ensures { result ≡ name_byte? b }
{
    ((65 <= b) & (b <= 90)) | ((48 <= b) & (b <= 57))
}

// What a digit says, 0 to 15; none for any other byte.
pub fn digit(b: u8) -> Option<u64>
    ensures { result ≡ cond (digit? 16 b) (Some (digit_of b)) None }
{
    match b {
        b'0'..=b'9' => Some((b - b'0') as u64),
        b'A'..=b'F' => Some((b - b'A' + 10) as u64),
        _ => None,
    }
}

// The bytes from `at` on; none past the end.
fn rest(s: &[u8], at: usize) -> &[u8]
    ensures { result.now ≡ drop at s.now }
{
    &s[at.min(s.len())..]
}

// How many bytes at the front are blanks.
// Kept: a twin of `name_bytes`, since the contract of a test passed in is longer than both.
fn blanks(s: &[u8]) -> usize
    ensures value { result ≡ prefix_len blank? s.now }
    ensures upper_bound { result ≤ length s.now }
{
    s.iter().take_while(|b| is_blank(**b)).count()
}

// How many bytes at the front are letters and digits.
fn name_bytes(s: &[u8]) -> usize
    ensures value { result ≡ prefix_len name_byte? s.now }
    ensures upper_bound { result ≤ length s.now }
{
    s.iter().take_while(|b| is_name_byte(**b)).count()
}

// The first place from `at` on that holds no blank.
pub fn skip_blanks(s: &[u8], at: usize) -> usize
    ensures { result ≡ after blank? s.now at }
{
    at + blanks(rest(s, at))
}

// The first place from `at` on that holds no letter and no digit.
pub fn name_end(s: &[u8], at: usize) -> usize
    ensures { result ≡ after name_byte? s.now at }
{
    at + name_bytes(rest(s, at))
}

// One digit more.
fn grow(size: u64, base: u64, d: u64) -> u64
    requires { (size ≤ 2 ^ 32) × (base ≤ 16) × (d ≤ 16) }
    ensures value { result ≡ min (size * base + d) (2 ^ 32) }
    ensures upper_bound { result ≤ 2 ^ 32 }
{
    (size * base + d).min(4294967296)
}

// The digits from `at` on, of any number: what they say, cut at 2^32.
pub fn read_digits(s: &[u8], at: usize, base: u64) -> Read<u64>
    requires { (1 ≤ base) × (base ≤ 16) }
    ensures next_value { result.next ≡ after (digit? base) s.now at }
    ensures size_value { result.value ≡ min (numeral base 0 (drop at s.now)) (2 ^ 32) }
{
    let mut next = at;
    let mut value = 0;
    while let Some(d) = digit(byte_at(s, next))
        && d < base
    {
        value = grow(value, base, d);
        next += 1;
    }
    Read { value, next }
}

// The spelling with one byte more.
fn spell(n: u64, b: u8) -> u64
    requires { n ≤ 2 ^ 48 }
    ensures value { result ≡ min (n * 256 + b) (2 ^ 48) }
    ensures upper_bound { result ≤ 2 ^ 48 }
{
    (n * 256 + b as u64).min(281474976710656)
}

// The key with one byte more.
fn mix(key: u32, b: u8) -> u32
    ensures { result ≡ (key * 31 + b) % 2 ^ 32 }
{
    ((key as u64 * 31 + b as u64) % 4294967296) as u32
}

// The letters and digits from `at` on.
pub fn word(s: &[u8], at: usize) -> &[u8]
    ensures value { result.now ≡ word (drop at s.now) }
    ensures next_value { at + length result.now ≡ after name_byte? s.now at }
    ensures upper_bound { length result.now ≤ length s.now - at }
{
    let r = rest(s, at);
    &r[..name_bytes(r)]
}

// A word with its spelling and its key, and the place after it.
pub fn read_word(s: &[u8], at: usize) -> Read<Token>
    ensures next_value { result.next ≡ after name_byte? s.now at }
    ensures spelled_value { result.value.spelled ≡ spelled (word (drop at s.now)) }
    ensures key_value { result.value.key ≡ key_of (word (drop at s.now)) }
{
    let mut spelled = 0;
    let mut key = 0;
    let w = word(s, at);
    for b in w {
        spelled = spell(spelled, *b);
        key = mix(key, *b);
    }
    let value = Token { spelled, key };
    let next = at + w.len();
    Read { value, next }
}

// A name that was given: the place in the source where it starts, its key and its value.
#[derive(Clone, Copy)]
pub struct Name {
    pub place: usize,
    pub key: u32,
    pub value: i32,
}

// The names given in a source.
#[derive(Clone, Copy)]
pub struct Names<'a> {
    pub source: &'a [u8],
    pub list: &'a [Name],
}

// The word of t at p and the word of s at q are the same.
// Kept: a loop over both, which ends at the first byte that differs; names of one key may be long.
fn same_word(t: &[u8], p: usize, s: &[u8], q: usize) -> bool
    ensures { result ≡ same (word (drop p t.now)) (word (drop q s.now)) }
{
    let mut i = p;
    let mut j = q;
    loop {
        let a = byte_at(t, i);
        let b = byte_at(s, j);
        if !is_name_byte(a) {
            return !is_name_byte(b);
        }
        if a != b {
            return false;
        }
        i += 1;
        j += 1;
    }
}

// The value of the name of s at `at`, whose key is `key`.
pub fn look_up(names: &Names<'_>, s: &[u8], at: usize, key: u32) -> Value
    requires { key ≡ key_of (word (drop at s.now)) }
    ensures { result ≡ values_in names.now (word (drop at s.now)) }
{
    for n in names.list {
        if n.key == key && same_word(names.source, n.place, s, at) {
            return Ok(n.value);
        }
    }
    Err(Lack::Unknown)
}
