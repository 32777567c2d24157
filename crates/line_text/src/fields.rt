// Fields of the line, put into a buffer: each function writes from `at` on, returns the place after
// the last byte written, and leaves what stands before `at` and from that place on.
ghost use Rattle.std.specs.Prelude.{◌≡◌, ◌+◌, ◌≤◌, ◌<◌, length};
ghost use Rattle.text.specs.Text.{hex_of, decimal_of, Puts};
ghost use Rattle.line_text.specs.Line.{spaced};
ghost use Rattle.line_text.specs.Parts.{words_text};

use text::{put, put_decimal, put_hex};

// A field of k digits in base sixteen after a space.
pub fn put_field(out: &mut [u8], at: usize, k: usize, n: u32) -> usize
    requires { at + k < length out.old }
    ensures { Puts out.old at (spaced (hex_of k n)) result out.new × (result ≡ at + k + 1) }
{
    let next = put(out, at, b' ');
    put_hex(out, next, k, n)
}

// A number in base ten after a space.
pub fn put_number(out: &mut [u8], at: usize, n: u32) -> usize
    requires { at + 8 ≤ length out.old }
    ensures { Puts out.old at (spaced (decimal_of 6 n)) result out.new
        × (result ≤ at + 8) × (at < result) }
{
    let next = put(out, at, b' ');
    put_decimal(out, next, 6, n)
}

// Four words, each after a space.
// Kept: four names, as `words_text` has them; an array would name them again at each call.
pub fn put_words(out: &mut [u8], at: usize, a: u16, b: u16, c: u16, d: u16) -> usize
    requires { at + 20 ≤ length out.old }
    ensures { Puts out.old at (words_text a b c d) result out.new × (result ≡ at + 20) }
{
    let second = put_field(out, at, 4, a as u32);
    let third = put_field(out, second, 4, b as u32);
    let fourth = put_field(out, third, 4, c as u32);
    put_field(out, fourth, 4, d as u32)
}
