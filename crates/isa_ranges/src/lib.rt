// The operation of an instruction, and where the longest unbroken range of words with one
// operation begins and ends around a word.
#![tactic(auto, unfolding(crate::specs::Operation::operation_number, crate::specs::Operation::operation_in))]

ghost use Rattle.std.specs.Prelude.{◌≡◌, ◌<◌, ◌≤◌, ◌+◌, ◌*◌, ◌/◌};
ghost use Rattle.isa_ranges.specs.Operation.{branch_operation, alu_operation};
ghost use Rattle.isa_ranges.specs.Operation.{unary_operation, mov_imm_operation};
ghost use Rattle.isa_ranges.specs.Operation.{operation_in, operation_number};
ghost use Rattle.isa_ranges.specs.Ranges.{ends_of};
ghost use Rattle.isa_ranges.specs.Bits.{block_of, one_ends, control_ends, misc_ends, bits_ends};

use isa::Instr;

// An operation: a row of section 14's table, or none. Word and byte form are one operation.
#[derive(Clone, Copy)]
pub enum Operation {
    Illegal,
    Bl,
    Beq,
    Bne,
    Bc,
    Bnc,
    Bn,
    Bge,
    Blt,
    Bra,
    Add,
    Addc,
    Sub,
    Subc,
    Dadd,
    Cmp,
    Xor,
    And,
    Or,
    Bit,
    Bic,
    Bis,
    Mov,
    Swap,
    Sra,
    Rrc,
    Comp,
    Swpb,
    Sxt,
    SetPri,
    Svc,
    SetCc,
    ClrCc,
    Cex,
    Ld,
    St,
    Movl,
    Movlz,
    Movls,
    Movh,
    Ldr,
    Str,
}

// The first and the last word of a range.
#[derive(Clone, Copy)]
pub struct Ends {
    pub first: u16,
    pub last: u16,
}

// BEQ to BRA, by the condition.
fn branch_operation(cond: u8) -> Operation
    ensures { result ≡ branch_operation cond }
{
    match cond {
        0 => Operation::Beq,
        1 => Operation::Bne,
        2 => Operation::Bc,
        3 => Operation::Bnc,
        4 => Operation::Bn,
        5 => Operation::Bge,
        6 => Operation::Blt,
        _ => Operation::Bra,
    }
}

// ADD to BIS, by the number of the operation in the word.
fn alu_operation(op: u8) -> Operation
    ensures { result ≡ alu_operation op }
{
    match op {
        0 => Operation::Add,
        1 => Operation::Addc,
        2 => Operation::Sub,
        3 => Operation::Subc,
        4 => Operation::Dadd,
        5 => Operation::Cmp,
        6 => Operation::Xor,
        7 => Operation::And,
        8 => Operation::Or,
        9 => Operation::Bit,
        10 => Operation::Bic,
        _ => Operation::Bis,
    }
}

// SRA, RRC, COMP.
fn unary_operation(op: u8) -> Operation
    ensures { result ≡ unary_operation op }
{
    match op {
        0 => Operation::Sra,
        1 => Operation::Rrc,
        _ => Operation::Comp,
    }
}

// MOVL, MOVLZ, MOVLS, MOVH.
fn mov_imm_operation(op: u8) -> Operation
    ensures { result ≡ mov_imm_operation op }
{
    match op {
        0 => Operation::Movl,
        1 => Operation::Movlz,
        2 => Operation::Movls,
        _ => Operation::Movh,
    }
}

// The operation of an instruction.
pub fn operation_of(i: Instr) -> Operation
    ensures { result ≡ operation_in i }
{
    match i {
        Instr::Illegal => Operation::Illegal,
        Instr::Bl { .. } => Operation::Bl,
        Instr::Branch { cond, .. } => branch_operation(cond),
        Instr::Alu { op, .. } => alu_operation(op),
        Instr::Mov { .. } => Operation::Mov,
        Instr::Swap { .. } => Operation::Swap,
        Instr::Unary { op, .. } => unary_operation(op),
        Instr::Swpb { .. } => Operation::Swpb,
        Instr::Sxt { .. } => Operation::Sxt,
        Instr::SetPri { .. } => Operation::SetPri,
        Instr::Svc { .. } => Operation::Svc,
        Instr::SetCc { .. } => Operation::SetCc,
        Instr::ClrCc { .. } => Operation::ClrCc,
        Instr::Cex { .. } => Operation::Cex,
        Instr::Ld { .. } => Operation::Ld,
        Instr::St { .. } => Operation::St,
        Instr::MovImm { op, .. } => mov_imm_operation(op),
        Instr::Ldr { .. } => Operation::Ldr,
        Instr::Str { .. } => Operation::Str,
    }
}

// An operation's number: 0 illegal, then by the rows of section 14's table from 1 on.
pub fn operation_number(o: Operation) -> u8
    ensures { result ≡ operation_number o }
{
    o as u8
}

// The block of this size around a word: the words with the same leading bits.
fn block(w: u16, size: u16) -> Ends
    requires size_nonzero { 0 < size }
    requires size_bound { w / size * size + size ≤ 65536 }
    ensures { result ≡ block_of size w }
{
    let first = w / size * size;
    Ends {
        first,
        last: first + (size - 1),
    }
}

// 4D00 to 4D7F: eight words to an operation, the three eights that bits 5 to 3 leave are one gap.
fn one_ends(w: u16) -> Ends
    ensures { result ≡ one_ends w }
{
    if w / 8 % 8 < 5 {
        return block(w, 8);
    }
    let half = w / 64 * 64;
    Ends {
        first: half + 0x28,
        last: half + 0x3F,
    }
}

// 4D80 to 4DFF: SETPRI, a gap, SVC, a gap, SETCC, CLRCC.
fn control_ends(w: u16) -> Ends
    ensures { result ≡ control_ends w }
{
    match w {
        ..0x4D88 => block(w, 8),
        0x4D88..0x4DA0 => Ends {
            first: 0x4D88,
            last: 0x4D9F,
        },
        0x4DA0..0x4DC0 => block(w, 0x10),
        _ => block(w, 0x20),
    }
}

// 4C00 to 4FFF.
fn misc_ends(w: u16) -> Ends
    ensures { result ≡ misc_ends w }
{
    match w {
        ..0x4D00 => block(w, 0x80),
        0x4D00..0x4D80 => one_ends(w),
        0x4D80..0x4E00 => control_ends(w),
        _ => block(w, 0x200),
    }
}

// The ends of the range around a word, by its leading bits.
fn bits_ends(w: u16) -> Ends
    ensures { result ≡ bits_ends w }
{
    match w {
        ..0x2000 => block(w, 0x2000),
        0x2000..0x4000 => block(w, 0x400),
        0x4000..0x4C00 => block(w, 0x100),
        0x4C00..0x5000 => misc_ends(w),
        0x5000..0x6000 => block(w, 0x400),
        0x6000..0x8000 => block(w, 0x800),
        _ => block(w, 0x4000),
    }
}

// The ends of the longest unbroken range around a word whose words all have its operation.
pub fn ends_of(w: u16) -> Ends
    ensures { result ≡ ends_of w }
{
    bits_ends(w)
}
