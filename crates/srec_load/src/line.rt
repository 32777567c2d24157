// One line: its digits, its fields, its fault, what it stores.
ghost use Rattle.std.specs.Prelude.{◌≡◌, ◌+◌, ◌*◌, ◌<◌, ◌≤◌, cond, Some, None, IfSome};
ghost use Rattle.std.specs.Prelude.{length, get_or, take, drop};
ghost use Rattle.std.proofs.lemmas.List.Edits.{sets};
ghost use Rattle.srec.specs.Digits.{is_digit, digit_of, all_digits, sum_of};
ghost use Rattle.srec.specs.Record.{bytes_of, kind_of, count_of, address_of};
ghost use Rattle.srec.specs.Record.{known, shaped_of, fault_of, Loadable};
ghost use Rattle.srec.specs.Load.{stored_of, pc_at};

use srec::Refusal;

// A digit's value, of either case.
#[tactic(auto, using(std::proofs::lemmas::Bool::Decides::nat_tests), unfolding(srec::specs::Digits::digit_of, srec::specs::Digits::is_digit))]
fn digit(b: u8) -> Option<u8>
    ensures value { result ≡ cond (is_digit b) (Some (digit_of b)) None }
    ensures low { IfSome result (λ d. d < 16) }
{
    match b {
        b'0'..=b'9' => Some(b - b'0'),
        b'A'..=b'F' => Some(b - b'A' + 10),
        b'a'..=b'f' => Some(b - b'a' + 10),
        _ => None,
    }
}

// Whether all but the first two characters are digits.
fn all_digits(line: &[u8]) -> bool
    requires { 3 < length line.now }
    ensures { result ≡ all_digits (drop 2 line.now) }
{
    line[2..].iter().all(|b| digit(*b).is_some())
}

// Byte k of a line, the count being byte 0.
fn byte(line: &[u8], k: usize) -> u8
    requires { 2 * k + 3 < length line.now }
    ensures { result ≡ get_or (bytes_of line.now) k 0 }
{
    let high = digit(line[2 * k + 2]).unwrap_or(0);
    let low = digit(line[2 * k + 3]).unwrap_or(0);
    16 * high + low
}

// The type's character.
pub fn kind(line: &[u8]) -> u8
    requires { 3 < length line.now }
    ensures { result ≡ kind_of line.now }
{
    line[1]
}

// The number of bytes after the count.
fn count(line: &[u8]) -> usize
    requires { 3 < length line.now }
    ensures { (result ≡ count_of line.now) × (result < 256) }
{
    byte(line, 0) as usize
}

fn address(line: &[u8]) -> usize
    requires { 7 < length line.now }
    ensures { (result ≡ address_of line.now) × (result < 65536) }
{
    let high = byte(line, 1) as usize;
    let low = byte(line, 2) as usize;
    256 * high + low
}

// Whether a character is the type of S0, S1 or S9.
fn is_known(kind: u8) -> bool
    ensures { result ≡ known kind }
{
    matches!(kind, b'0' | b'1' | b'9')
}

// Whether a line has the shape of a record; `last` says that no line follows.
#[tactic(auto, using(std::proofs::lemmas::Bool::Decides::nat_tests), unfolding(srec::specs::Record::shaped_of))]
fn shaped(line: &[u8], last: bool) -> bool
    ensures { result ≡ shaped_of last line.now }
{
    if line.len() < 4 {
        return false;
    }
    if line[0] != b'S' {
        return false;
    }
    let k = kind(line);
    if !is_known(k) {
        return false;
    }
    if !all_digits(line) {
        return false;
    }
    let n = count(line);
    if line.len() != 4 + 2 * n {
        return false;
    }
    if n < 3 {
        return false;
    }
    k != b'9' || n == 3 && last
}

// The sum of count, address, data and checksum.
fn sum(line: &[u8]) -> u32
    requires { length line.now ≡ 4 + 2 * count_of line.now }
    ensures { result ≡ sum_of (bytes_of line.now) }
{
    let mut s: u32 = 0;
    for k in 0..count(line) + 1 {
        s += byte(line, k) as u32;
    }
    s
}

// A line's refusal.
pub fn fault(line: &[u8], last: bool) -> Result<(), Refusal>
    ensures { result ≡ fault_of last line.now }
{
    if !shaped(line, last) {
        return Err(Refusal::Form);
    }
    if sum(line) % 256 != 255 {
        return Err(Refusal::Checksum);
    }
    if kind(line) == b'1' && 65536 < address(line) + (count(line) - 3) {
        return Err(Refusal::Room);
    }
    Ok(())
}

// Memory with the n data bytes of a line from place a on.
fn store_data(memory: &mut [u8], line: &[u8], a: usize, n: usize)
    requires { (a + n ≤ length memory.old) × (length line.now ≡ 10 + 2 * n) }
    ensures { memory.new
        ≡ sets memory.old a (take n (drop 3 (bytes_of line.now))) }
{
    for k in 0..n {
        memory[a + k] = byte(line, 3 + k);
    }
}

// Memory after a line: an S1's data stored at its address, nothing else touched.
pub fn store(memory: &mut [u8], line: &[u8])
    requires { (length memory.old ≡ 65536) × Loadable line.now }
    ensures { memory.new ≡ stored_of line.now memory.old }
{
    if kind(line) != b'1' {
        return;
    }
    let a = address(line);
    let n = count(line) - 3;
    store_data(memory, line, a, n);
}

// PC after a line.
pub fn pc(line: &[u8], before: u16) -> u16
    requires { Loadable line.now }
    ensures { result ≡ pc_at line.now before }
{
    if kind(line) != b'9' {
        return before;
    }
    address(line) as u16
}
