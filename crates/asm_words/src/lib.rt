// Words of the language: what a word begins, the number of a register or a condition, flags. A word
// is looked up by its spelling as one number, its bytes in base 256; a row of a table is that
// number times 256, and then what the word stands for, by number.
#![tactic(auto)]

ghost use Rattle.std.specs.Prelude.{◌≡◌, ◌≤◌, ◌<◌, drop, IfSome};
ghost use Rattle.asm_text.specs.Text.{word};
ghost use Rattle.asm_words.specs.Rows.{number_in, Says, valued_at, plain_at, groups, nth_of, word_at};
ghost use Rattle.asm_words.specs.Words.{word_of, free?, register_of, condition_of};
ghost use Rattle.asm_words.specs.Words.{flag_of, with_bit, flags_of};

// What begins a statement of one value: a branch by its condition field, and others.
#[derive(Clone, Copy)]
pub enum Valued {
    Org,
    Bss,
    Byte,
    Word,
    Bl,
    Branch(u8),
    SetPri,
    Svc,
}

// What begins a statement.
#[derive(Clone, Copy)]
pub enum Keyword {
    // one value follows
    Value(Valued),
    // a value follows, and a name stands before
    Equ,
    End,
    // ADD to BIS by their operation field
    Arithmetic(u8),
    Mov,
    Swap,
    // SRA, RRC, COMP by their operation field
    Unary(u8),
    Swpb,
    Sxt,
    SetCc,
    ClrCc,
    Cex,
    Ld,
    St,
    // MOVL, MOVLZ, MOVLS, MOVH by their operation field
    MovImm(u8),
    Ldr,
    Str,
}

// What a word is.
#[derive(Clone, Copy)]
pub enum Word {
    // no word of the language: it may be a name
    Free,
    // a register, a condition or an emulated mnemonic: no name, and no statement's
    Reserved,
    Begins(Keyword),
}

// All words, in groups by the remainder of the spelling divided by 61; the number is what
// `word_at` takes.
// Kept: rows as numbers, as docs/DECISIONS.md says of a table of this crate; the call is as fast as that.
const ROWS: [u64; 107] = [
    // R5
    0x523530,
    // BRA
    0x4252410F,
    // TST
    0x54535430,
    // FL
    0x464C30,
    // R6
    0x523630,
    // VC
    0x564330,
    // SBC
    0x53424330,
    // R7
    0x523730,
    // BLO
    0x424C4F0B,
    // LD
    0x4C442C,
    // BC
    0x42430A,
    // LE
    0x4C4530,
    // PULL
    0x50554C4C30,
    // GE
    0x474530,
    // BLT
    0x424C540E,
    // LDR
    0x4C44522E,
    // SRA
    0x5352411C,
    // CEX
    0x4345582B,
    // MOVLS
    0x4D4F564C5321,
    // DEC
    0x44454330,
    // CLC
    0x434C4330,
    // EQU
    0x45515523,
    // DADC
    0x4441444330,
    // BL
    0x424C05,
    // DADD
    0x4441444414,
    // LO
    0x4C4F30,
    // BNC
    0x424E430B,
    // BN
    0x424E0C,
    // BIC
    0x4249431A,
    // WORD
    0x574F524404,
    // CC
    0x434330,
    // VS
    0x565330,
    // BNE
    0x424E4509,
    // BP
    0x425030,
    // LR
    0x4C5230,
    // MOVLZ
    0x4D4F564C5A20,
    // LS
    0x4C5330,
    // ADDC
    0x4144444311,
    // LT
    0x4C5430,
    // BHS
    0x4248530A,
    // GT
    0x475430,
    // MI
    0x4D4930,
    // END
    0x454E4424,
    // HI
    0x484930,
    // INCD
    0x494E434430,
    // JUMP
    0x4A554D5030,
    // CLRCC
    0x434C5243432A,
    // CLN
    0x434C4E30,
    // BYTE
    0x4259544503,
    // PUSH
    0x5055534830,
    // SWPB
    0x5357504227,
    // BZ
    0x425A08,
    // CLR
    0x434C5230,
    // NE
    0x4E4530,
    // CLS
    0x434C5330,
    // DECD
    0x4445434430,
    // BSS
    0x42535302,
    // HS
    0x485330,
    // BIS
    0x4249531B,
    // CLV
    0x434C5630,
    // RET
    0x52455430,
    // CS
    0x435330,
    // BIT
    0x42495419,
    // CLZ
    0x434C5A30,
    // SEC
    0x53454330,
    // CALL
    0x43414C4C30,
    // BNZ
    0x424E5A09,
    // CMP
    0x434D5015,
    // RLC
    0x524C4330,
    // SXT
    0x53585428,
    // XOR
    0x584F5216,
    // SP
    0x535030,
    // SWAP
    0x5357415026,
    // ST
    0x53542D,
    // BEQ
    0x42455108,
    // MOV
    0x4D4F5625,
    // SUB
    0x53554212,
    // SETCC
    0x534554434329,
    // INC
    0x494E4330,
    // ORG
    0x4F524701,
    // SEN
    0x53454E30,
    // RRC
    0x5252431D,
    // STR
    0x5354522F,
    // PC
    0x504330,
    // MOVH
    0x4D4F564822,
    // TR
    0x545230,
    // OR
    0x4F5218,
    // SETPRI
    0x53455450524906,
    // EQ
    0x455130,
    // AND
    0x414E4417,
    // BGE
    0x4247450D,
    // MOVL
    0x4D4F564C1F,
    // R0
    0x523030,
    // ADC
    0x41444330,
    // SEV
    0x53455630,
    // COMP
    0x434F4D501E,
    // R1
    0x523130,
    // ADD
    0x41444410,
    // R2
    0x523230,
    // SLA
    0x534C4130,
    // SVC
    0x53564307,
    // SUBC
    0x5355424313,
    // R3
    0x523330,
    // PL
    0x504C30,
    // R4
    0x523430,
    // NOP
    0x4E4F5030,
    // SEZ
    0x53455A30,
];

// Where each group starts in ROWS, and where the last one ends.
const STARTS: [usize; 62] = [
    0, 3, 7, 8, 9, 10, 13, 14, 14, 17, 17, 17, 19, 20, 23, 25, 27, 30, 33, 36, 38, 40, 43, 45, 47,
    50, 51, 51, 51, 53, 56, 57, 57, 61, 63, 63, 63, 64, 66, 71, 72, 72, 72, 73, 75, 76, 77, 78, 79,
    81, 83, 83, 85, 85, 86, 88, 92, 96, 98, 102, 103, 107,
];

// The conditions of CEX.
const CONDITIONS: [u64; 18] = [
    0x455100, 0x4E4501, 0x435302, 0x485302, 0x434303, 0x4C4F03, 0x4D4904, 0x504C05, 0x565306,
    0x564307, 0x484908, 0x4C5309, 0x47450A, 0x4C540B, 0x47540C, 0x4C450D, 0x54520E, 0x464C0F,
];

// What the first row for p says.
fn row_number(rows: &[u64], p: u64) -> Option<u8>
    ensures { result ≡ number_in rows.now p }
{
    for row in rows {
        if row / 256 == p {
            return Some((row % 256) as u8);
        }
    }
    None
}

// What begins a statement of one value, by its number.
#[tactic(auto, unfolding(crate::specs::Rows::valued_at))]
fn valued_at(n: u8) -> Valued
    ensures { result ≡ valued_at n }
{
    match n {
        0 => Valued::Org,
        1 => Valued::Bss,
        2 => Valued::Byte,
        3 => Valued::Word,
        4 => Valued::Bl,
        5 => Valued::SetPri,
        6 => Valued::Svc,
        _ => Valued::Branch(n - 7),
    }
}

// What begins any other statement and holds no number, by its number.
#[tactic(auto, unfolding(crate::specs::Rows::plain_at))]
fn plain_at(n: u8) -> Keyword
    ensures { result ≡ plain_at n }
{
    match n {
        0 => Keyword::Equ,
        1 => Keyword::End,
        2 => Keyword::Mov,
        3 => Keyword::Swap,
        4 => Keyword::Swpb,
        5 => Keyword::Sxt,
        6 => Keyword::SetCc,
        7 => Keyword::ClrCc,
        8 => Keyword::Cex,
        9 => Keyword::Ld,
        10 => Keyword::St,
        11 => Keyword::Ldr,
        _ => Keyword::Str,
    }
}

// What begins a statement, by its number below 47.
#[tactic(auto, unfolding(crate::specs::Rows::groups, crate::specs::Rows::nth_of))]
fn keyword_at(n: u8) -> Keyword
    requires { n < 47 }
    ensures { result ≡ nth_of groups n }
{
    if n < 15 {
        return Keyword::Value(valued_at(n));
    }
    if n < 27 {
        return Keyword::Arithmetic(n - 15);
    }
    if n < 30 {
        return Keyword::Unary(n - 27);
    }
    if n < 34 {
        return Keyword::MovImm(n - 30);
    }
    plain_at(n - 34)
}

// What a row of ROWS says, by its number.
#[tactic(auto, unfolding(crate::specs::Rows::word_at))]
fn word_at(n: u8) -> Word
    ensures { result ≡ word_at n }
{
    if n == 0 {
        return Word::Free;
    }
    if n < 48 {
        return Word::Begins(keyword_at(n - 1));
    }
    Word::Reserved
}

// What the word is that p spells.
pub fn find_word(p: u64) -> Word
    ensures { Says word_of p result }
{
    let h = (p % 61) as usize;
    let from = STARTS[h];
    let to = STARTS[h + 1];
    let rows = ROWS;
    match row_number(&rows[from..to], p) {
        Some(n) => word_at(n),
        None => Word::Free,
    }
}

// Whether a word may be a name.
pub fn is_free(w: Word) -> bool
    ensures { result ≡ free? w }
{
    matches!(w, Word::Free)
}

// The number of the register that p spells, 0 to 7; none for any other word.
pub fn register_number(p: u64) -> Option<u8>
    ensures { Says register_of p result }
{
    // R0 to R7
    if (0x5230 <= p) & (p <= 0x5237) {
        return Some((p - 0x5230) as u8);
    }
    // BP
    if p == 0x4250 {
        return Some(4);
    }
    // LR
    if p == 0x4C52 {
        return Some(5);
    }
    // SP
    if p == 0x5350 {
        return Some(6);
    }
    // PC
    if p == 0x5043 {
        return Some(7);
    }
    None
}

// The code of the condition that p spells, 0 to 15; none for any other word.
pub fn condition_number(p: u64) -> Option<u8>
    ensures { Says condition_of p result }
{
    let rows = CONDITIONS;
    row_number(&rows, p)
}

// The bit of a flag's letter.
#[tactic(auto, unfolding(crate::specs::Words::flag_of, crate::specs::Words::meaning, crate::specs::Words::flags, asm_text::specs::Text::same))]
fn flag_bit(b: u8) -> Option<u8>
    ensures { result ≡ flag_of b }
{
    match b {
        b'V' => Some(16),
        b'S' => Some(8),
        b'N' => Some(4),
        b'Z' => Some(2),
        b'C' => Some(1),
        _ => None,
    }
}

// Flags with the bit of one letter more, unless they have it.
#[tactic(auto, unfolding(crate::specs::Words::with_bit))]
fn add_flag(f: u8, b: u8) -> Option<u8>
    requires { f < 32 }
    ensures value { result ≡ with_bit f (flag_of b) }
    ensures upper_bound { IfSome result (λ g. g < 32) }
{
    let bit = flag_bit(b)?;
    if f / bit % 2 == 0 {
        return Some(f + bit);
    }
    None
}

// The flags that the word at a place lists, 1 to 31; none if it lists none.
pub fn flags_number(s: &[u8], at: usize) -> Option<u8>
    ensures { result ≡ flags_of (word (drop at s.now)) }
{
    let mut f = 0;
    let w = asm_text::word(s, at);
    for b in w {
        f = add_flag(f, *b)?;
    }
    if f == 0 { None } else { Some(f) }
}
