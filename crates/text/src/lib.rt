// Text put into a buffer: each function writes from `at` on, returns the place after the last byte
// written, and leaves what stands before `at` and from that place on.
#![tactic(auto)]

ghost use Rattle.std.specs.Prelude.{◌≡◌, [], ◌∷◌, ◌+◌, ◌≤◌, ◌<◌, length};
ghost use Rattle.text.specs.Text.{glyph, hex_of, decimal_of, Puts};

// One byte.
pub fn put(out: &mut [u8], at: usize, b: u8) -> usize
    requires { at < length out.old }
    ensures { Puts out.old at (b ∷ []) result out.new × (result ≡ at + 1) }
{
    out[at] = b;
    at + 1
}

// The code of a digit below 16.
pub fn digit(d: u32) -> u8
    requires { d < 16 }
    ensures { result ≡ glyph d }
{
    if d < 10 { 48 + d as u8 } else { 55 + d as u8 }
}

// The last k digits of n in base sixteen.
// Kept: the recursion puts the highest digit first; a loop would go from the right end, no plainer.
pub fn put_hex(out: &mut [u8], at: usize, k: usize, n: u32) -> usize
    requires { at + k ≤ length out.old }
    ensures { Puts out.old at (hex_of k n) result out.new × (result ≡ at + k) }
{
    if k == 0 {
        return at;
    }
    let next = put_hex(out, at, k - 1, n / 16);
    put(out, next, digit(n % 16))
}

// n in base ten, at most k + 1 digits.
// Kept: the recursion finds how many digits there are; a loop would count them first.
pub fn put_decimal(out: &mut [u8], at: usize, k: usize, n: u32) -> usize
    requires { at + k < length out.old }
    ensures { Puts out.old at (decimal_of k n) result out.new
        × (result ≤ at + k + 1) × (at < result) }
{
    if k == 0 || n < 10 {
        return put(out, at, digit(n % 10));
    }
    let next = put_decimal(out, at, k - 1, n / 10);
    put(out, next, digit(n % 10))
}
