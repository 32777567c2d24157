// An instruction as one number of eight bytes, there and back (specs/Number.antt has the layout).
#![tactic(auto, unfolding(crate::specs::Number::number_of, crate::specs::Number::instr_of))]

ghost use Rattle.std.specs.Prelude.{◌≡◌};
ghost use Rattle.isa_number.specs.Number.{bytes_of, number_of, up_to3_of, up_to6_of};
ghost use Rattle.isa_number.specs.Number.{up_to12_of, up_to15_of, up_to18_of, instr_of};
ghost use Rattle.isa_number.specs.Number.{offset_in};

use isa::Instr;

// A format, five fields and the two bytes above them, lowest first.
fn bytes(format: u8, a: u8, b: u8, c: u8, d: u8, e: u8, x: u16) -> u64
    ensures { result ≡ bytes_of format a b c d e x }
{
    let [low, high] = x.to_le_bytes();
    u64::from_le_bytes([format, a, b, c, d, e, low, high])
}

// An instruction's number.
pub fn number(i: Instr) -> u64
    ensures { result ≡ number_of i }
{
    match i {
        Instr::Illegal => bytes(0, 0, 0, 0, 0, 0, 0),
        Instr::Bl { off } => bytes(1, 0, 0, 0, 0, 0, off.cast_unsigned()),
        Instr::Branch { cond, off } => bytes(2, cond, 0, 0, 0, 0, off.cast_unsigned()),
        Instr::Alu {
            op,
            rc,
            wb,
            src,
            dst,
        } => bytes(3, op, rc, wb, src, dst, 0),
        Instr::Mov { wb, src, dst } => bytes(4, wb, src, dst, 0, 0, 0),
        Instr::Swap { src, dst, ignored } => bytes(5, src, dst, ignored, 0, 0, 0),
        Instr::Unary { op, wb, dst } => bytes(6, op, wb, dst, 0, 0, 0),
        Instr::Swpb { dst, ignored } => bytes(7, dst, ignored, 0, 0, 0, 0),
        Instr::Sxt { dst, ignored } => bytes(8, dst, ignored, 0, 0, 0, 0),
        Instr::SetPri { level } => bytes(9, level, 0, 0, 0, 0, 0),
        Instr::Svc { vector } => bytes(10, vector, 0, 0, 0, 0, 0),
        Instr::SetCc { flags } => bytes(11, flags, 0, 0, 0, 0, 0),
        Instr::ClrCc { flags } => bytes(12, flags, 0, 0, 0, 0, 0),
        Instr::Cex {
            cond,
            true_count,
            false_count,
        } => bytes(13, cond, true_count, false_count, 0, 0, 0),
        Instr::Ld {
            prpo,
            dec,
            inc,
            wb,
            src,
            dst,
        } => bytes(14, prpo, dec, inc, wb, src, dst as u16),
        Instr::St {
            prpo,
            dec,
            inc,
            wb,
            src,
            dst,
        } => bytes(15, prpo, dec, inc, wb, src, dst as u16),
        Instr::MovImm { op, byte, dst } => bytes(16, op, byte, dst, 0, 0, 0),
        Instr::Ldr { off, wb, src, dst } => bytes(17, wb, src, dst, 0, 0, off.cast_unsigned()),
        Instr::Str { off, wb, src, dst } => bytes(18, wb, src, dst, 0, 0, off.cast_unsigned()),
    }
}

// The offset in a number's two highest bytes.
fn offset(n: u64) -> i16
    ensures { result ≡ offset_in n }
{
    let [.., low, high] = n.to_le_bytes();
    i16::from_le_bytes([low, high])
}

// Formats 0 to 3.
fn up_to_3(n: u64) -> Instr
    ensures { result ≡ up_to3_of n }
{
    let [format, op, rc, wb, src, dst, ..] = n.to_le_bytes();
    match format {
        0 => Instr::Illegal,
        1 => Instr::Bl { off: offset(n) },
        2 => Instr::Branch {
            cond: op,
            off: offset(n),
        },
        _ => Instr::Alu {
            op,
            rc,
            wb,
            src,
            dst,
        },
    }
}

// Formats 4 to 6.
fn up_to_6(n: u64) -> Instr
    ensures { result ≡ up_to6_of n }
{
    let [format, a, b, c, ..] = n.to_le_bytes();
    match format {
        ..=4 => Instr::Mov {
            wb: a,
            src: b,
            dst: c,
        },
        5 => Instr::Swap {
            src: a,
            dst: b,
            ignored: c,
        },
        _ => Instr::Unary {
            op: a,
            wb: b,
            dst: c,
        },
    }
}

// Formats 7 to 12.
fn up_to_12(n: u64) -> Instr
    ensures { result ≡ up_to12_of n }
{
    let [format, a, b, ..] = n.to_le_bytes();
    match format {
        ..=7 => Instr::Swpb { dst: a, ignored: b },
        8 => Instr::Sxt { dst: a, ignored: b },
        9 => Instr::SetPri { level: a },
        10 => Instr::Svc { vector: a },
        11 => Instr::SetCc { flags: a },
        _ => Instr::ClrCc { flags: a },
    }
}

// Formats 13 to 15.
fn up_to_15(n: u64) -> Instr
    ensures { result ≡ up_to15_of n }
{
    let [format, a, b, c, wb, src, dst, _] = n.to_le_bytes();
    match format {
        ..=13 => Instr::Cex {
            cond: a,
            true_count: b,
            false_count: c,
        },
        14 => Instr::Ld {
            prpo: a,
            dec: b,
            inc: c,
            wb,
            src,
            dst,
        },
        _ => Instr::St {
            prpo: a,
            dec: b,
            inc: c,
            wb,
            src,
            dst,
        },
    }
}

// Formats 16 to 18.
fn up_to_18(n: u64) -> Instr
    ensures { result ≡ up_to18_of n }
{
    let [format, a, b, dst, ..] = n.to_le_bytes();
    let off = offset(n);
    match format {
        ..=16 => Instr::MovImm {
            op: a,
            byte: b,
            dst,
        },
        17 => Instr::Ldr {
            off,
            wb: a,
            src: b,
            dst,
        },
        _ => Instr::Str {
            off,
            wb: a,
            src: b,
            dst,
        },
    }
}

// The instruction that a number names; unused bytes are not looked at.
pub fn from_number(n: u64) -> Instr
    ensures { result ≡ instr_of n }
{
    match n % 256 {
        0..=3 => up_to_3(n),
        4..=6 => up_to_6(n),
        7..=12 => up_to_12(n),
        13..=15 => up_to_15(n),
        16..=18 => up_to_18(n),
        _ => Instr::Illegal,
    }
}
