// Which values fit which place of an instruction or of data, and the number that then stands there.
#![tactic(auto)]

ghost use Rattle.std.specs.Prelude.{◌≡◌, ℕ, ◌<◌, ◌≤◌, ◌+◌, IfOk};
ghost use Rattle.asm_fits.specs.Fits.{residue_of, within_of, fit_of, word_fit, byte_fit};
ghost use Rattle.asm_fits.specs.Fits.{count_fit, offset_fit, immediate_fit};
ghost use Rattle.asm_fits.specs.Fits.{constant_number, constant_fit, way_of, steps_of, branch_fit};

use asm_value::{Lack, Value};

// The number for a field, or why there is none: an unknown name (18), or no fitting value (19).
pub type Fit = Result<u16, Lack>;

// The 16 bits of z.
#[tactic(auto, unfolding(crate::specs::Fits::residue_of))]
fn residue(z: i32) -> u16
    ensures { result ≡ residue_of z }
{
    z.rem_euclid(65536) as u16
}

// Whether z is from -below to limit - 1.
#[tactic(auto, unfolding(crate::specs::Fits::within_of))]
fn within(below: u32, limit: u32, z: i32) -> bool
    ensures { result ≡ within_of below limit z }
{
    (-i64::from(below)..i64::from(limit)).contains(&i64::from(z))
}

// The 16 bits of a value from -below to limit - 1.
#[tactic(auto, unfolding(crate::specs::Fits::fit_of))]
fn ranged(below: u32, limit: u32, v: Value) -> Fit
    ensures { result ≡ fit_of below limit v }
{
    let z = v?;
    if within(below, limit, z) {
        return Ok(residue(z));
    }
    Err(Lack::Outside)
}

// A word, from -32,768 to 65,535.
pub fn word(v: Value) -> Fit
    ensures { result ≡ word_fit v }
{
    ranged(32768, 65536, v)
}

// A byte, from -128 to 255.
pub fn byte(v: Value) -> Fit
    ensures value { result ≡ byte_fit v }
    ensures below { IfOk result (λ n. n < 256) }
{
    Ok(ranged(128, 256, v)? % 256)
}

// A number from 0 to limit - 1.
#[tactic(auto, unfolding(crate::specs::Fits::fit_of, crate::specs::Fits::residue_of, crate::specs::Fits::within_of))]
pub fn count(limit: u32, v: Value) -> Fit
    ensures value { result ≡ count_fit limit v }
    ensures below { IfOk result (λ n. n < limit) }
{
    ranged(0, limit, v)
}

// An offset from -64 to 63, in 7 bits.
pub fn offset(v: Value) -> Fit
    ensures value { result ≡ offset_fit v }
    ensures below { IfOk result (λ n. n < 128) }
{
    Ok(ranged(64, 64, v)? % 128)
}

// The byte of MOVL, MOVLZ, MOVLS and MOVH: a number's own, of a name or an expression the low byte,
// for MOVH (op 3) the high one.
pub fn immediate(op: u8, number: bool, v: Value) -> Fit
    ensures value { result ≡ immediate_fit op number v }
    ensures below { IfOk result (λ n. n < 256) }
{
    if number {
        return byte(v);
    }
    let n = word(v)?;
    if op == 3 {
        return Ok(n / 256);
    }
    Ok(n % 256)
}

// The field of a constant of ADD to BIS.
#[tactic(auto, unfolding(crate::specs::Fits::constant_number))]
fn constant_number(z: i32) -> Fit
    ensures value { result ≡ constant_number z }
    ensures below { IfOk result (λ n. n < 8) }
{
    match z {
        0..=2 => Ok(z as u16),
        4 => Ok(3),
        8 => Ok(4),
        16 => Ok(5),
        32 => Ok(6),
        -1 => Ok(7),
        _ => Err(Lack::Outside),
    }
}

// The same of a value.
pub fn constant(v: Value) -> Fit
    ensures value { result ≡ constant_fit v }
    ensures below { IfOk result (λ n. n < 8) }
{
    v.and_then(constant_number)
}

// The way in bytes from the place after an instruction at p to the target n, modulo 65,536.
#[tactic(auto, unfolding(crate::specs::Fits::way_of))]
fn way(p: u32, n: u16) -> u32
    ensures value { result ≡ way_of p n }
    ensures upper_bound { result < 65536 }
{
    (n as u32 + 65536 - (p % 65536 + 2) % 65536) % 65536
}

// A way as an offset in words, where the format holds it.
#[tactic(auto, unfolding(crate::specs::Fits::steps_of))]
fn steps(half: u32, d: u32) -> Fit
    requires { (half ≤ 4096) × (d < 65536) }
    ensures value { result ≡ steps_of half d }
    ensures below { IfOk result (λ n. n < half + half) }
{
    if d % 2 != 0 {
        return Err(Lack::Outside);
    }
    if d / 2 < half {
        return Ok((d / 2) as u16);
    }
    if d / 2 < 32768 - half {
        return Err(Lack::Outside);
    }
    Ok((d / 2 - (32768 - half - half)) as u16)
}

// The offset of a branch at p to a target: BL has half 4,096, the others 512.
pub fn branch(half: u32, p: u32, v: Value) -> Fit
    requires { half ≤ 4096 }
    ensures value { result ≡ branch_fit half p v }
    ensures below { IfOk result (λ n. n < half + half) }
{
    steps(half, way(p, word(v)?))
}
