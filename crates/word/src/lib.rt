// Words of 8 and 16 bits, the bits of the PSW, and offsets with a sign: the leaves of the machine.
// `byte` chooses the width: 8 bits, else 16.
#![tactic(auto, unfolding(crate::specs::Width::width_of))]

ghost use Rattle.std.specs.Prelude.{◌≡◌, ◌+◌, ◌-◌, ◌^◌, ◌<◌, ◌≤◌};
ghost use Rattle.std.specs.Int.Signed.{mag};
ghost use Rattle.word.specs.Width.{width_of, bit, low, with_low, turned};
ghost use Rattle.word.specs.Psw.{put_bit, asleep?, faulted?, current, previous};
ghost use Rattle.word.specs.Offset.{signed_of, bits_of};

// All bits of the width set.
pub fn ones(byte: bool) -> u16
    ensures { result ≡ 2 ^ width_of byte - 1 }
{
    if byte { 255 } else { 65535 }
}

// The top bit of the width set.
pub fn top(byte: bool) -> u16
    ensures { result ≡ 2 ^ (width_of byte - 1) }
{
    if byte { 128 } else { 32768 }
}

// A flag as a number.
pub fn flag(b: bool) -> u16
    ensures { (result ≡ bit b) × (result ≤ 1) }
{
    b as u16
}

// The low bits of the width.
pub fn low_bits(byte: bool, x: u16) -> u16
    ensures { (result ≡ low (width_of byte) x) × (result < 2 ^ width_of byte) }
{
    x & ones(byte)
}

// The low bits of the width, each turned over.
pub fn turned_bits(byte: bool, x: u16) -> u16
    ensures { (result ≡ turned (width_of byte) x) × (result < 2 ^ width_of byte) }
{
    let mask = ones(byte);
    mask - (x & mask)
}

// x with v for its low bits; a byte form keeps the high byte.
pub fn with_low(byte: bool, x: u16, v: u16) -> u16
    requires { v < 2 ^ width_of byte }
    ensures { result ≡ with_low (width_of byte) x v }
{
    if byte { x / 256 * 256 + v } else { v }
}

// Kept: SLP and FLT, and the two priorities, are one line each; one function of a place is no plainer.
// Is SLP set?
pub fn asleep(psw: u16) -> bool
    ensures { result ≡ asleep? psw }
{
    psw / 8 % 2 == 1
}

// Is FLT set?
pub fn faulted(psw: u16) -> bool
    ensures { result ≡ faulted? psw }
{
    psw / 256 % 2 == 1
}

// The current priority, and the previous one.
pub fn current_priority(psw: u16) -> u16
    ensures { (result ≡ current psw) × (result < 8) }
{
    psw / 32 % 8
}

pub fn previous_priority(psw: u16) -> u16
    ensures { (result ≡ previous psw) × (result < 8) }
{
    psw / 8192 % 8
}

// A number with b for its bit K; its other bits stay.
fn put_flag<const K: u32>(psw: u16, b: bool) -> u16
    requires { K < 15 }
    ensures { result ≡ put_bit K psw b }
{
    let weight = 1 << K;
    let next = 2 << K;
    psw / next * next + flag(b) * weight + psw % weight
}

// The PSW with b for C; its other bits stay.
pub fn put_carry(psw: u16, b: bool) -> u16
    ensures { result ≡ put_bit 0 psw b }
{
    put_flag::<0>(psw, b)
}

// The PSW with b for Z; its other bits stay.
pub fn put_zero(psw: u16, b: bool) -> u16
    ensures { result ≡ put_bit 1 psw b }
{
    put_flag::<1>(psw, b)
}

// The PSW with b for N; its other bits stay.
pub fn put_negative(psw: u16, b: bool) -> u16
    ensures { result ≡ put_bit 2 psw b }
{
    put_flag::<2>(psw, b)
}

// The PSW with b for V; its other bits stay.
pub fn put_overflow(psw: u16, b: bool) -> u16
    ensures { result ≡ put_bit 4 psw b }
{
    put_flag::<4>(psw, b)
}

// A number below 2 * half, read in two's complement.
pub fn signed(half: u16, n: u16) -> i16
    requires { (half ≤ 4096) × (n < half + half) }
    ensures { result ≡ signed_of half n }
{
    if n < half {
        return n as i16;
    }
    !((half + half - 1 - n) as i16)
}

// How far a number lies from zero: n for n and for -(n + 1).
// Kept: asm_value and asm_fits have the like for wider numbers; a trait for two lines is no plainer.
pub fn magnitude(z: i16) -> u16
    ensures { result ≡ mag z }
{
    if z < 0 {
        return !z as u16;
    }
    z as u16
}

// The two's complement of a number from -half to half - 1.
pub fn offset_bits(half: u16, off: i16) -> u16
    requires { (half ≤ 4096) × (mag off < half) }
    ensures value { result ≡ bits_of half off }
    ensures upper_bound { result < half + half }
{
    if off < 0 {
        return half + half - 1 - magnitude(off);
    }
    magnitude(off)
}
