// The instruction set of XM-23: the instructions. What each word means, and the word of each
// instruction, is in specs/; crate isa_decode reads a word, crate isa_encode writes one.

// A decoded instruction: a case for each format. Offsets are in the format's unit, with their sign.
// ignored is bit 6 of the word, which says nothing of what the instruction does.
// Kept: the fields are numbers, for the C interface hands them as such, and an instruction with a
// field that its format cannot hold has to be refused and not be ruled out.
#![tactic(auto)]

#[derive(Clone, Copy)]
pub enum Instr {
    // a word of no instruction
    Illegal,
    // BL
    Bl {
        off: i16,
    },
    // BEQ, BNE, BC, BNC, BN, BGE, BLT, BRA by cond
    Branch {
        cond: u8,
        off: i16,
    },
    // ADD, ADDC, SUB, SUBC, DADD, CMP, XOR, AND, OR, BIT, BIC, BIS by op
    Alu {
        op: u8,
        rc: u8,
        wb: u8,
        src: u8,
        dst: u8,
    },
    // MOV between registers
    Mov {
        wb: u8,
        src: u8,
        dst: u8,
    },
    // SWAP
    Swap {
        src: u8,
        dst: u8,
        ignored: u8,
    },
    // SRA, RRC, COMP by op
    Unary {
        op: u8,
        wb: u8,
        dst: u8,
    },
    // SWPB
    Swpb {
        dst: u8,
        ignored: u8,
    },
    // SXT
    Sxt {
        dst: u8,
        ignored: u8,
    },
    // SETPRI
    SetPri {
        level: u8,
    },
    // SVC
    Svc {
        vector: u8,
    },
    // SETCC: V, SLP, N, Z, C from bit 4 down
    SetCc {
        flags: u8,
    },
    // CLRCC: the same five bits
    ClrCc {
        flags: u8,
    },
    // CEX
    Cex {
        cond: u8,
        true_count: u8,
        false_count: u8,
    },
    // LD
    Ld {
        prpo: u8,
        dec: u8,
        inc: u8,
        wb: u8,
        src: u8,
        dst: u8,
    },
    // ST
    St {
        prpo: u8,
        dec: u8,
        inc: u8,
        wb: u8,
        src: u8,
        dst: u8,
    },
    // MOVL, MOVLZ, MOVLS, MOVH by op
    MovImm {
        op: u8,
        byte: u8,
        dst: u8,
    },
    // LDR
    Ldr {
        off: i16,
        wb: u8,
        src: u8,
        dst: u8,
    },
    // STR
    Str {
        off: i16,
        wb: u8,
        src: u8,
        dst: u8,
    },
}
