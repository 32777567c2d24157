// What a statement puts into memory at a place, and where the next statement stands.
#![tactic(auto)]

ghost use Rattle.std.specs.Prelude.{◌≡◌};
ghost use Rattle.word.specs.Offset.{signed_of};
ghost use Rattle.isa.specs.declared.Instr.TheVariants as i;
ghost use Rattle.isa.specs.Encode.{encode_of};
ghost use Rattle.asm_fits.specs.Fits.{count_fit, offset_fit, immediate_fit, constant_fit};
ghost use Rattle.asm_write.specs.Written.{encoded, coded, coded_both, number_of, layout_of, size_of};
ghost use Rattle.asm_write.specs.Written.{misplaced?, used_of, onward, org_next};
ghost use Rattle.asm_write.specs.Written.{room_for, bss_next, next_of, place_value, name_value};

use asm_fits::Fit;
use asm_line::Statement;
use asm_value::{Lack, Value};
use isa::Instr;
use word::signed;

// What a statement does to the place: it has so many bytes, or a value, or it stops the source.
#[derive(Clone, Copy)]
pub enum Layout {
    Bytes(u8),
    // ORG
    Origin(Value),
    // EQU
    Equal(Value),
    // BSS
    Space(Value),
    // END
    Stop,
}

// The place after a statement, or an unknown name (18), or no place (19).
pub type Next = Result<u32, Lack>;

// The word of an instruction.
fn word_of(x: Instr) -> Fit
    ensures { result ≡ encoded (encode_of x) }
{
    isa_encode::encode(x).ok_or(Lack::Outside)
}

// ADD to BIS of a constant.
fn constant(op: u8, wb: u8, v: Value, dst: u8) -> Fit
    ensures { result ≡ coded (constant_fit v) (λ n. i.Alu op 1 wb n dst) }
{
    word_of(Instr::Alu {
        op,
        rc: 1,
        wb,
        src: asm_fits::constant(v)? as u8,
        dst,
    })
}

// CEX: an unknown name in either count decides.
fn conditional(cond: u8, t: Value, f: Value) -> Fit
    ensures { result ≡ coded_both (count_fit 8 t) (count_fit 8 f) (i.Cex cond) }
{
    let a = asm_fits::count(8, t);
    let b = asm_fits::count(8, f);
    match a {
        Ok(m) => word_of(Instr::Cex {
            cond,
            true_count: m as u8,
            false_count: b? as u8,
        }),
        Err(Lack::Unknown) => a,
        Err(Lack::Outside) => b.and(a),
    }
}

// MOVL, MOVLZ, MOVLS, MOVH.
fn immediate(op: u8, plain: bool, v: Value, dst: u8) -> Fit
    ensures { result ≡ coded (immediate_fit op plain v) (λ n. i.MovImm op n dst) }
{
    word_of(Instr::MovImm {
        op,
        byte: asm_fits::immediate(op, plain, v)? as u8,
        dst,
    })
}

// LDR.
fn load_relative(v: Value, wb: u8, src: u8, dst: u8) -> Fit
    ensures { result ≡ coded (offset_fit v) (λ n. i.Ldr (signed_of 64 n) wb src dst) }
{
    let off = signed(64, asm_fits::offset(v)?);
    word_of(Instr::Ldr { off, wb, src, dst })
}

// STR.
// Kept: LDR and STR make two instructions; one function with a closure for that is no plainer.
fn store_relative(v: Value, wb: u8, src: u8, dst: u8) -> Fit
    ensures { result ≡ coded (offset_fit v) (λ n. i.Str (signed_of 64 n) wb src dst) }
{
    let off = signed(64, asm_fits::offset(v)?);
    word_of(Instr::Str { off, wb, src, dst })
}

// The number that a statement stands for; 0 for one without bytes.
#[tactic(auto, unfolding(crate::specs::Written::number_of))]
fn number(p: u32, x: Statement) -> Fit
    ensures { result ≡ number_of p x }
{
    match x {
        Statement::Nothing | Statement::End => Ok(0),
        Statement::Org(_) | Statement::Equ(_) | Statement::Bss(_) => Ok(0),
        Statement::Byte(v) => asm_fits::byte(v),
        Statement::Word(v) => asm_fits::word(v),
        Statement::Fixed(j) => word_of(j),
        Statement::Bl(v) => word_of(Instr::Bl {
            off: signed(4096, asm_fits::branch(4096, p, v)?),
        }),
        Statement::Branch { cond, target } => word_of(Instr::Branch {
            cond,
            off: signed(512, asm_fits::branch(512, p, target)?),
        }),
        Statement::Constant { op, wb, value, dst } => constant(op, wb, value, dst),
        Statement::SetPri(v) => word_of(Instr::SetPri {
            level: asm_fits::count(8, v)? as u8,
        }),
        Statement::Svc(v) => word_of(Instr::Svc {
            vector: asm_fits::count(16, v)? as u8,
        }),
        Statement::Cex {
            cond,
            true_count,
            false_count,
        } => conditional(cond, true_count, false_count),
        Statement::MovImm {
            op,
            plain,
            value,
            dst,
        } => immediate(op, plain, value, dst),
        Statement::Ldr { off, wb, src, dst } => load_relative(off, wb, src, dst),
        Statement::Str { off, wb, src, dst } => store_relative(off, wb, src, dst),
    }
}

// What a statement does to the place.
#[tactic(auto, unfolding(crate::specs::Written::layout_of))]
pub fn layout_of(x: Statement) -> Layout
    ensures { result ≡ layout_of x }
{
    match x {
        Statement::Nothing => Layout::Bytes(0),
        Statement::Org(v) => Layout::Origin(v),
        Statement::Equ(v) => Layout::Equal(v),
        Statement::Bss(v) => Layout::Space(v),
        Statement::End => Layout::Stop,
        Statement::Byte(_) => Layout::Bytes(1),
        _ => Layout::Bytes(2),
    }
}

// How many bytes of the image a statement has.
pub fn size(l: Layout) -> u8
    ensures { result ≡ size_of l }
{
    match l {
        Layout::Bytes(n) => n,
        _ => 0,
    }
}

// Whether so many bytes may not stand at a place: a word at an odd one, any byte past FFFF.
fn misplaced(size: u8, p: u32) -> bool
    ensures { result ≡ misplaced? size p }
{
    let odd = (size == 2) & (p % 2 == 1);
    let past = (0 < size) & (65536 < p as u64 + size as u64);
    odd | past
}

// A statement's number, or its fault.
#[tactic(auto, unfolding(crate::specs::Written::used_of))]
pub fn used(p: u32, x: Statement) -> Fit
    ensures { result ≡ used_of p x }
{
    let n = number(p, x)?;
    if misplaced(size(layout_of(x)), p) {
        return Err(Lack::Outside);
    }
    Ok(n)
}

// The place n bytes on; 2,147,483,648 stands for every place from there on.
#[tactic(auto, unfolding(crate::specs::Written::onward))]
fn moved(p: u32, n: u8) -> u32
    ensures { result ≡ onward p n }
{
    p.saturating_add(n as u32).min(2147483648)
}

// The place after ORG.
fn origin(v: Value) -> Next
    ensures { result ≡ org_next v }
{
    u32::try_from(v?).or(Err(Lack::Outside))
}

// The place after n bytes left out.
#[tactic(auto, unfolding(crate::specs::Written::room_for))]
fn room(p: u32, n: u32) -> Next
    ensures { result ≡ room_for p n }
{
    if n == 0 {
        return Ok(p);
    }
    if 65536 < p as u64 + n as u64 {
        return Err(Lack::Outside);
    }
    Ok(p + n)
}

// The place after BSS.
fn space(p: u32, v: Value) -> Next
    ensures { result ≡ bss_next p v }
{
    room(p, origin(v)?)
}

// The place after a statement.
#[tactic(auto, unfolding(crate::specs::Written::next_of))]
pub fn after(p: u32, l: Layout) -> Next
    ensures { result ≡ next_of p l }
{
    match l {
        Layout::Bytes(n) => Ok(moved(p, n)),
        Layout::Origin(v) => origin(v),
        Layout::Space(v) => space(p, v),
        Layout::Equal(_) | Layout::Stop => Ok(p),
    }
}

// A place as the value of a name.
#[tactic(auto, unfolding(crate::specs::Written::place_value))]
fn place_value(p: u32) -> Value
    ensures { result ≡ place_value p }
{
    i32::try_from(p).or(Err(Lack::Outside))
}

// The value of a name before a statement.
#[tactic(auto, unfolding(crate::specs::Written::name_value))]
pub fn name_value(p: u32, l: Layout) -> Value
    ensures { result ≡ name_value p l }
{
    match l {
        Layout::Equal(v) => v,
        _ => place_value(p),
    }
}
