// Arithmetic and logic of the XM-23 machine: the operations, and what they leave. What each does is
// in specs/; crate alu_work does it.

// A sum kept to the width, and its carry out.
#![tactic(auto)]

#[derive(Clone, Copy)]
pub struct Sum {
    pub value: u16,
    pub carry: bool,
}

// A decimal sum and its carry, 0 or 1.
// Kept: the carry is a number, as the law decimal-exact adds it up; Sum's is a flag.
#[derive(Clone, Copy)]
pub struct Decimal {
    pub value: u16,
    pub carry: u16,
}

// What an instruction leaves in its destination and in the PSW.
#[derive(Clone, Copy)]
pub struct Computed {
    pub value: u16,
    pub psw: u16,
}

// The arithmetic and logical instructions.
#[derive(Clone, Copy)]
pub enum Op {
    Add,
    Addc,
    Sub,
    Subc,
    Cmp,
    Dadd,
    And,
    Or,
    Xor,
    Bit,
    Bic,
    Bis,
    Sra,
    Rrc,
    Comp,
    Swpb,
    Sxt,
}
