// A line of a source: its name, its statement with the values of its names, and whether it fits the
// language at all. The bytes of the line alone decide (a slice without the line's end).
#![tactic(auto)]

ghost use Rattle.std.specs.Prelude.{◌≡◌, Some, None};
ghost use Rattle.asm_text.specs.Text.{values_in};
ghost use Rattle.asm_operands.specs.Operands.{register_at};
ghost use Rattle.asm_line.specs.Statement.{with_value, one_value, equate};
ghost use Rattle.asm_line.specs.Statement.{arithmetic_from, arithmetic, move, exchange};
ghost use Rattle.asm_line.specs.Statement.{unary, one_register, on_flags, conditional};
ghost use Rattle.asm_line.specs.Statement.{load, store, move_byte, load_relative};
ghost use Rattle.asm_line.specs.Statement.{store_relative, statement_with, statement_of};
ghost use Rattle.asm_line.specs.Line.{ended, after_name, line_of};

use asm_text::{Names, Read};
use asm_value::Value;
use asm_words::{Keyword, Valued, Word};
use isa::Instr;

// A statement with its values.
#[derive(Clone, Copy)]
pub enum Statement {
    // no statement
    Nothing,
    // ORG, EQU, BSS, BYTE, WORD, END
    Org(Value),
    Equ(Value),
    Bss(Value),
    Byte(Value),
    Word(Value),
    End,
    // an instruction that needs no value: ADD to BIS of two registers, MOV, SWAP, SRA to SXT,
    // SETCC, CLRCC, LD, ST
    Fixed(Instr),
    // BL
    Bl(Value),
    // BEQ, BNE, BC, BNC, BN, BGE, BLT, BRA by cond
    Branch {
        cond: u8,
        target: Value,
    },
    // ADD to BIS of a constant
    Constant {
        op: u8,
        wb: u8,
        value: Value,
        dst: u8,
    },
    // SETPRI, SVC
    SetPri(Value),
    Svc(Value),
    // CEX
    Cex {
        cond: u8,
        true_count: Value,
        false_count: Value,
    },
    // MOVL, MOVLZ, MOVLS, MOVH by op; plain: the value is a number, no name stands in it
    MovImm {
        op: u8,
        plain: bool,
        value: Value,
        dst: u8,
    },
    // LDR, STR
    Ldr {
        off: Value,
        wb: u8,
        src: u8,
        dst: u8,
    },
    Str {
        off: Value,
        wb: u8,
        src: u8,
        dst: u8,
    },
}

// A line: the place of its first byte that is no blank (its end, where it has none), where its name
// stands if it has one; the place of its name, if it has one; and its statement.
#[derive(Clone, Copy)]
pub struct Line {
    pub start: usize,
    pub name: Option<usize>,
    pub statement: Statement,
}

// The statement that a word of one value makes of it.
#[tactic(auto, unfolding(crate::specs::Statement::with_value))]
fn with_value(m: Valued, v: Value) -> Statement
    ensures { result ≡ with_value m v }
{
    match m {
        Valued::Org => Statement::Org(v),
        Valued::Bss => Statement::Bss(v),
        Valued::Byte => Statement::Byte(v),
        Valued::Word => Statement::Word(v),
        Valued::Bl => Statement::Bl(v),
        Valued::Branch(cond) => Statement::Branch { cond, target: v },
        Valued::SetPri => Statement::SetPri(v),
        Valued::Svc => Statement::Svc(v),
    }
}

// A statement of one value.
#[tactic(auto, unfolding(crate::specs::Statement::one_value, asm_operands::specs::Operands::value_at))]
fn one_value(names: &Names<'_>, line: &[u8], m: Valued, at: usize) -> Option<Read<Statement>>
    ensures { result ≡ one_value (values_in names.now) line.now m at }
{
    let v = asm_expr::factor(names, line, at, 16)?;
    let value = with_value(m, v.value);
    let next = v.next;
    Some(Read { value, next })
}

// EQU: it needs a name.
#[tactic(auto, unfolding(crate::specs::Statement::equate, asm_operands::specs::Operands::value_at))]
fn read_equate(names: &Names<'_>, line: &[u8], named: bool, at: usize) -> Option<Read<Statement>>
    ensures { result ≡ equate (values_in names.now) line.now named at }
{
    if !named {
        return None;
    }
    let v = asm_expr::factor(names, line, at, 16)?;
    let value = Statement::Equ(v.value);
    let next = v.next;
    Some(Read { value, next })
}

// ADD to BIS of a value.
#[tactic(auto, unfolding(asm_operands::specs::Operands::value_at))]
fn constant(names: &Names<'_>, line: &[u8], op: u8, wb: u8, at: usize) -> Option<Read<Statement>>
    ensures { result ≡ arithmetic_from (values_in names.now) line.now op wb at None }
{
    let v = asm_expr::factor(names, line, at, 16)?;
    let d = asm_operands::comma_register(line, v.next)?;
    let value = Statement::Constant {
        op,
        wb,
        value: v.value,
        dst: d.value,
    };
    let next = d.next;
    Some(Read { value, next })
}

// ADD to BIS after the width.
fn arithmetic_from(
    names: &Names<'_>,
    line: &[u8],
    op: u8,
    wb: u8,
    at: usize,
) -> Option<Read<Statement>>
    ensures { result ≡ arithmetic_from (values_in names.now) line.now op wb at
        (register_at line.now at) }
{
    let Some(s) = asm_operands::read_register(line, at) else {
        return constant(names, line, op, wb, at);
    };
    let d = asm_operands::comma_register(line, s.next)?;
    let value = Statement::Fixed(Instr::Alu {
        op,
        rc: 0,
        wb,
        src: s.value,
        dst: d.value,
    });
    let next = d.next;
    Some(Read { value, next })
}

// ADD to BIS.
#[tactic(auto, unfolding(crate::specs::Statement::arithmetic))]
fn read_arithmetic(names: &Names<'_>, line: &[u8], op: u8, at: usize) -> Option<Read<Statement>>
    ensures { result ≡ arithmetic (values_in names.now) line.now op at }
{
    let w = asm_operands::read_width(line, at)?;
    arithmetic_from(names, line, op, w.value, w.next)
}

// MOV.
fn read_move(line: &[u8], at: usize) -> Option<Read<Statement>>
    ensures { result ≡ move line.now at }
{
    let w = asm_operands::read_width(line, at)?;
    let s = asm_operands::read_register(line, w.next)?;
    let d = asm_operands::comma_register(line, s.next)?;
    let value = Statement::Fixed(Instr::Mov {
        wb: w.value,
        src: s.value,
        dst: d.value,
    });
    let next = d.next;
    Some(Read { value, next })
}

// SWAP.
#[tactic(auto, unfolding(crate::specs::Statement::exchange))]
fn read_exchange(line: &[u8], at: usize) -> Option<Read<Statement>>
    ensures { result ≡ exchange line.now at }
{
    let s = asm_operands::read_register(line, at)?;
    let d = asm_operands::comma_register(line, s.next)?;
    let value = Statement::Fixed(Instr::Swap {
        src: s.value,
        dst: d.value,
        ignored: 0,
    });
    let next = d.next;
    Some(Read { value, next })
}

// SRA, RRC, COMP.
#[tactic(auto, unfolding(crate::specs::Statement::unary))]
fn read_unary(line: &[u8], op: u8, at: usize) -> Option<Read<Statement>>
    ensures { result ≡ unary line.now op at }
{
    let w = asm_operands::read_width(line, at)?;
    let d = asm_operands::read_register(line, w.next)?;
    let value = Statement::Fixed(Instr::Unary {
        op,
        wb: w.value,
        dst: d.value,
    });
    let next = d.next;
    Some(Read { value, next })
}

// SWPB and SXT.
// Kept: a flag, as the definition has it; the contract of a constructor passed in says more than that.
#[tactic(auto, unfolding(crate::specs::Statement::one_register))]
fn one_register(line: &[u8], swapped: bool, at: usize) -> Option<Read<Statement>>
    ensures { result ≡ one_register line.now swapped at }
{
    let d = asm_operands::read_register(line, at)?;
    let dst = d.value;
    let next = d.next;
    if swapped {
        let value = Statement::Fixed(Instr::Swpb { dst, ignored: 0 });
        return Some(Read { value, next });
    }
    let value = Statement::Fixed(Instr::Sxt { dst, ignored: 0 });
    Some(Read { value, next })
}

// SETCC and CLRCC.
// Kept: a flag, likewise.
#[tactic(auto, unfolding(crate::specs::Statement::on_flags))]
fn on_flags(line: &[u8], set: bool, at: usize) -> Option<Read<Statement>>
    ensures { result ≡ on_flags line.now set at }
{
    let f = asm_operands::read_flags(line, at)?;
    let flags = f.value;
    let next = f.next;
    if set {
        let value = Statement::Fixed(Instr::SetCc { flags });
        return Some(Read { value, next });
    }
    let value = Statement::Fixed(Instr::ClrCc { flags });
    Some(Read { value, next })
}

// CEX.
#[tactic(auto, unfolding(crate::specs::Statement::conditional))]
fn read_conditional(names: &Names<'_>, line: &[u8], at: usize) -> Option<Read<Statement>>
    ensures { result ≡ conditional (values_in names.now) line.now at }
{
    let c = asm_operands::read_condition(line, at)?;
    let t = asm_operands::comma_value(names, line, c.next)?;
    let f = asm_operands::comma_value(names, line, t.next)?;
    let value = Statement::Cex {
        cond: c.value,
        true_count: t.value,
        false_count: f.value,
    };
    let next = f.next;
    Some(Read { value, next })
}

// LD.
#[tactic(auto, unfolding(crate::specs::Statement::load))]
fn read_load(line: &[u8], at: usize) -> Option<Read<Statement>>
    ensures { result ≡ load line.now at }
{
    let w = asm_operands::read_width(line, at)?;
    let a = asm_operands::read_address(line, w.next)?;
    let d = asm_operands::comma_register(line, a.next)?;
    let value = Statement::Fixed(Instr::Ld {
        prpo: a.value.prpo,
        dec: a.value.dec,
        inc: a.value.inc,
        wb: w.value,
        src: a.value.register,
        dst: d.value,
    });
    let next = d.next;
    Some(Read { value, next })
}

// ST.
#[tactic(auto, unfolding(crate::specs::Statement::store))]
fn read_store(line: &[u8], at: usize) -> Option<Read<Statement>>
    ensures { result ≡ store line.now at }
{
    let w = asm_operands::read_width(line, at)?;
    let s = asm_operands::read_register(line, w.next)?;
    let a = asm_operands::comma_address(line, s.next)?;
    let value = Statement::Fixed(Instr::St {
        prpo: a.value.prpo,
        dec: a.value.dec,
        inc: a.value.inc,
        wb: w.value,
        src: s.value,
        dst: a.value.register,
    });
    let next = a.next;
    Some(Read { value, next })
}

// MOVL, MOVLZ, MOVLS, MOVH.
#[tactic(auto, unfolding(crate::specs::Statement::move_byte, asm_operands::specs::Operands::value_at))]
fn move_byte(names: &Names<'_>, line: &[u8], op: u8, at: usize) -> Option<Read<Statement>>
    ensures { result ≡ move_byte (values_in names.now) line.now op at }
{
    let v = asm_expr::factor(names, line, at, 16)?;
    let d = asm_operands::comma_register(line, v.next)?;
    let value = Statement::MovImm {
        op,
        plain: asm_operands::is_number(line, at),
        value: v.value,
        dst: d.value,
    };
    let next = d.next;
    Some(Read { value, next })
}

// LDR.
#[tactic(auto, unfolding(crate::specs::Statement::load_relative))]
fn load_relative(names: &Names<'_>, line: &[u8], at: usize) -> Option<Read<Statement>>
    ensures { result ≡ load_relative (values_in names.now) line.now at }
{
    let w = asm_operands::read_width(line, at)?;
    let s = asm_operands::read_register(line, w.next)?;
    let v = asm_operands::comma_value(names, line, s.next)?;
    let d = asm_operands::comma_register(line, v.next)?;
    let value = Statement::Ldr {
        off: v.value,
        wb: w.value,
        src: s.value,
        dst: d.value,
    };
    let next = d.next;
    Some(Read { value, next })
}

// STR.
#[tactic(auto, unfolding(crate::specs::Statement::store_relative))]
fn store_relative(names: &Names<'_>, line: &[u8], at: usize) -> Option<Read<Statement>>
    ensures { result ≡ store_relative (values_in names.now) line.now at }
{
    let w = asm_operands::read_width(line, at)?;
    let s = asm_operands::read_register(line, w.next)?;
    let d = asm_operands::comma_register(line, s.next)?;
    let v = asm_operands::comma_value(names, line, d.next)?;
    let value = Statement::Str {
        off: v.value,
        wb: w.value,
        src: s.value,
        dst: d.value,
    };
    let next = v.next;
    Some(Read { value, next })
}

// The statement that a keyword begins.
#[tactic(auto, unfolding(crate::specs::Statement::statement_with))]
fn keyword_statement(
    names: &Names<'_>,
    line: &[u8],
    named: bool,
    k: Keyword,
    at: usize,
) -> Option<Read<Statement>>
    ensures { result ≡ statement_with (values_in names.now) line.now named k at }
{
    match k {
        Keyword::Value(m) => one_value(names, line, m, at),
        Keyword::Equ => read_equate(names, line, named, at),
        Keyword::End => {
            let value = Statement::End;
            Some(Read { value, next: at })
        }
        Keyword::Arithmetic(op) => read_arithmetic(names, line, op, at),
        Keyword::Mov => read_move(line, at),
        Keyword::Swap => read_exchange(line, at),
        Keyword::Unary(op) => read_unary(line, op, at),
        Keyword::Swpb => one_register(line, true, at),
        Keyword::Sxt => one_register(line, false, at),
        Keyword::SetCc => on_flags(line, true, at),
        Keyword::ClrCc => on_flags(line, false, at),
        Keyword::Cex => read_conditional(names, line, at),
        Keyword::Ld => read_load(line, at),
        Keyword::St => read_store(line, at),
        Keyword::MovImm(op) => move_byte(names, line, op, at),
        Keyword::Ldr => load_relative(names, line, at),
        Keyword::Str => store_relative(names, line, at),
    }
}

// The statement of a word.
#[tactic(auto, unfolding(crate::specs::Statement::statement_of))]
fn read_statement(
    names: &Names<'_>,
    line: &[u8],
    named: bool,
    w: Word,
    at: usize,
) -> Option<Read<Statement>>
    ensures { result ≡ statement_of (values_in names.now) line.now named w at }
{
    match w {
        Word::Free => None,
        Word::Reserved => None,
        Word::Begins(k) => keyword_statement(names, line, named, k, at),
    }
}

// A line with its statement, if it is over after it.
fn end_line(line: &[u8], start: usize, name: Option<usize>, x: Read<Statement>) -> Option<Line>
    ensures { result ≡ ended line.now start name (Some x) }
{
    if !asm_operands::is_over(line, asm_text::skip_blanks(line, x.next)) {
        return None;
    }
    let statement = x.value;
    Some(Line {
        start,
        name,
        statement,
    })
}

// What follows the name at `start`, from `at` on.
fn after_name(names: &Names<'_>, line: &[u8], start: usize, at: usize) -> Option<Line>
    ensures { result ≡ after_name (values_in names.now) line.now start at }
{
    let name = Some(start);
    if asm_operands::is_over(line, at) {
        let statement = Statement::Nothing;
        return Some(Line {
            start,
            name,
            statement,
        });
    }
    let t = asm_text::read_word(line, at);
    let w = asm_words::find_word(t.value.spelled);
    let x = read_statement(names, line, true, w, t.next)?;
    end_line(line, start, name, x)
}

// The line, with the values of the names; none where it fits no statement (17).
pub fn read_line(names: &Names<'_>, line: &[u8]) -> Option<Line>
    ensures { result ≡ line_of (values_in names.now) line.now }
{
    let start = asm_text::skip_blanks(line, 0);
    if asm_operands::is_over(line, start) {
        let statement = Statement::Nothing;
        let name = None;
        return Some(Line {
            start,
            name,
            statement,
        });
    }
    let t = asm_text::read_word(line, start);
    let w = asm_words::find_word(t.value.spelled);
    if !asm_words::is_free(w) {
        let x = read_statement(names, line, false, w, t.next)?;
        return end_line(line, start, None, x);
    }
    if asm_text::is_letter(asm_text::byte_at(line, start)) {
        return after_name(names, line, start, asm_text::skip_blanks(line, t.next));
    }
    None
}
