// Numbers in two and four bytes of a buffer, the low byte first.
#![tactic(auto)]

ghost use Rattle.std.specs.Prelude.{◌≡◌, ◌+◌, ◌<◌, length};
ghost use Rattle.machine.specs.Record.{two_at, four_at};
ghost use Rattle.little_endian.specs.Bytes.{two_put, four_put};

// The number in two bytes from byte i on, and in four.
pub fn two_at(b: &[u8], i: usize) -> u16
    requires { i + 1 < length b.now }
    ensures { result ≡ two_at b.now i }
{
    u16::from_le_bytes([b[i], b[i + 1]])
}

pub fn four_at(b: &[u8], i: usize) -> u32
    requires { i + 3 < length b.now }
    ensures { result ≡ four_at b.now i }
{
    two_at(b, i) as u32 + 65536 * two_at(b, i + 2) as u32
}

// The two bytes of v at byte i, and the four; other bytes stay.
pub fn put_two(b: &mut [u8], i: usize, v: u16)
    requires { i + 1 < length b.old }
    ensures { b.new ≡ two_put b.old i v }
{
    let [low, high] = v.to_le_bytes();
    b[i] = low;
    b[i + 1] = high;
}

pub fn put_four(b: &mut [u8], i: usize, v: u32)
    requires { i + 3 < length b.old }
    ensures { b.new ≡ four_put b.old i v }
{
    put_two(b, i, (v % 65536) as u16);
    put_two(b, i + 2, (v / 65536) as u16);
}
