// Values of the assembler's expressions: 32 signed bits, or why there is none. A name that is not
// known (18) comes before a value outside 32 bits (19), whatever the order in which an expression
// meets them.
#![tactic(auto)]

ghost use Rattle.std.specs.Prelude.{◌≡◌, ◌≤◌, ◌^◌};
ghost use Rattle.asm_value.specs.Value.{fitted, with_sign, applied, joined};

// Why there is no value: a name without one (18); a value outside 32 bits or a division by zero (19).
#[derive(Clone, Copy)]
pub enum Lack {
    Unknown,
    Outside,
}

pub type Value = Result<i32, Lack>;

// z, if 32 bits hold it.
fn fit(z: i64) -> Value
    ensures { result ≡ fitted z }
{
    i32::try_from(z).or(Err(Lack::Outside))
}

// A number as it is written: its digits, and whether `-` stands before them.
pub fn number(negative: bool, size: u64) -> Value
    requires { size ≤ 2 ^ 32 }
    ensures { result ≡ fitted (with_sign negative size) }
{
    let z = size as i64;
    if negative {
        return fit(0 - z);
    }
    fit(z)
}

// The sum, difference or product of two values, or their quotient towards zero, by the sign's byte.
fn apply(op: u8, a: i32, b: i32) -> Value
    ensures { result ≡ applied op a b }
{
    let x = a as i64;
    let y = b as i64;
    if op == b'+' {
        return fit(x + y);
    }
    if op == b'-' {
        return fit(x - y);
    }
    if op == b'*' {
        return fit(x * y);
    }
    if b == 0 {
        return Err(Lack::Outside);
    }
    let q = x / y;
    fit(q)
}

// The same of two parts of an expression.
pub fn combine(op: u8, a: Value, b: Value) -> Value
    ensures { result ≡ joined op a b }
{
    match a {
        Ok(x) => apply(op, x, b?),
        Err(Lack::Unknown) => a,
        Err(Lack::Outside) => b.and(a),
    }
}
