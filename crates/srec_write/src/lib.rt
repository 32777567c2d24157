// Writing a span of memory as S-records: each function writes from a place of the text on, leaves
// all other bytes, and returns the place after what it wrote.
#![tactic(auto)]

ghost use Rattle.std.specs.Prelude.{◌≡◌, [], ◌∷◌, ◌++◌, ◌+◌, ◌*◌, ◌≤◌, ◌<◌, length};
ghost use Rattle.std.proofs.lemmas.List.Edits.{sets};
ghost use Rattle.srec.specs.Digits.{digits_of, sum_of};
ghost use Rattle.srec.specs.Write.{line_of, span_text, span_length};

use text::digit;

// The sum of bytes, few enough that it fits.
fn sum(bytes: &[u8]) -> u32
    requires { length bytes.now ≤ 65536 }
    ensures { (result ≡ sum_of bytes.now) × (result ≤ 255 * length bytes.now) }
{
    let mut s: u32 = 0;
    for b in bytes {
        s += *b as u32;
    }
    s
}

// Two digits for each byte.
fn put_bytes(text: &mut [u8], at: usize, bytes: &[u8]) -> usize
    requires { at + 2 * length bytes.now ≤ length text.old }
    ensures { (text.new
        ≡ sets text.old at (digits_of bytes.now))
        × (result ≡ at + 2 * length bytes.now) }
{
    let mut next = at;
    for b in bytes {
        text[next] = digit((*b / 16) as u32);
        text[next + 1] = digit((*b % 16) as u32);
        next += 2;
    }
    next
}

// Characters as they are.
fn put(text: &mut [u8], at: usize, chars: &[u8]) -> usize
    requires { at + length chars.now ≤ length text.old }
    ensures { (text.new ≡ sets text.old at chars.now) × (result ≡ at + length chars.now) }
{
    let next = at + chars.len();
    text[at..next].copy_from_slice(chars);
    next
}

// A record's line with its LF.
fn put_line(text: &mut [u8], at: usize, kind: u8, a: usize, bytes: &[u8]) -> usize
    requires { (at + (2 * length bytes.now + 11) ≤ length text.old)
        × (length bytes.now ≤ 16) × (a < 65536) }
    ensures { (text.new
        ≡ sets text.old at (line_of kind a bytes.now ++ (10 ∷ [])))
        × (result ≡ at + (2 * length bytes.now + 11)) }
{
    let head = [(bytes.len() + 3) as u8, (a / 256) as u8, (a % 256) as u8];
    let total = sum(&head) + sum(bytes);
    let check = [(255 - total % 256) as u8];
    let one = put(text, at, &[b'S', kind]);
    let two = put_bytes(text, one, &head);
    let three = put_bytes(text, two, bytes);
    let four = put_bytes(text, three, &check);
    put(text, four, b"\n")
}

// The text of n bytes from place `start` on, with the PC, at the start of `text`.
pub fn write(memory: &[u8], start: usize, n: usize, pc: usize, text: &mut [u8]) -> usize
    requires { (length memory.now ≡ 65536) × (start + n ≤ 65536) × (pc < 65536)
        × (span_length n ≤ length text.old) }
    ensures { (text.new
        ≡ sets text.old 0 (span_text memory.now start n pc))
        × (result ≡ span_length n) }
{
    let mut at = 0;
    let mut a = start;
    let mut left = n;
    while 0 < left {
        let size = left.min(16);
        at = put_line(text, at, b'1', a, &memory[a..a + size]);
        a += size;
        left -= size;
    }
    put_line(text, at, b'9', pc, &[])
}
