// What each word means. `decode` is total: a word that is not in the table of section 14 decodes to
// `Illegal`.
// Kept: a step decodes; told by a match on ranges, a word took 70 host instructions and not 57.
#![tactic(auto, unfolding(isa::specs::Decode::decode_of))]

ghost use Rattle.std.specs.Prelude.{◌≡◌, ◌<◌, ◌≤◌};
ghost use Rattle.isa.specs.Decode.{unary_of, control_of, misc_of, memory_of, relative_of};
ghost use Rattle.isa.specs.Decode.{decode_of};

use isa::Instr;
use word::signed;

// 4D00 to 4D7F: SRA, RRC, COMP, SWPB, SXT, by bits 5 to 3.
fn unary(w: u16) -> Instr
    ensures { result ≡ unary_of w }
{
    let op = w / 8 % 8;
    let bit6 = (w / 64 % 2) as u8;
    let dst = (w % 8) as u8;
    if op < 3 {
        return Instr::Unary {
            op: op as u8,
            wb: bit6,
            dst,
        };
    }
    if op < 4 {
        return Instr::Swpb { dst, ignored: bit6 };
    }
    if op < 5 {
        return Instr::Sxt { dst, ignored: bit6 };
    }
    Instr::Illegal
}

// 4D80 to 4DFF: SETPRI, SVC, SETCC, CLRCC.
fn control(w: u16) -> Instr
    ensures { result ≡ control_of w }
{
    if w < 0x4D88 {
        return Instr::SetPri {
            level: (w % 8) as u8,
        };
    }
    if w < 0x4DA0 {
        return Instr::Illegal;
    }
    if w < 0x4DB0 {
        return Instr::Svc {
            vector: (w % 16) as u8,
        };
    }
    if w < 0x4DC0 {
        return Instr::Illegal;
    }
    if w < 0x4DE0 {
        return Instr::SetCc {
            flags: (w % 32) as u8,
        };
    }
    Instr::ClrCc {
        flags: (w % 32) as u8,
    }
}

// 4C00 to 4FFF: MOV, SWAP, the operations on one register, control.
fn misc(w: u16) -> Instr
    ensures { result ≡ misc_of w }
{
    if w < 0x4C80 {
        return Instr::Mov {
            wb: (w / 64 % 2) as u8,
            src: (w / 8 % 8) as u8,
            dst: (w % 8) as u8,
        };
    }
    if w < 0x4D00 {
        return Instr::Swap {
            src: (w / 8 % 8) as u8,
            dst: (w % 8) as u8,
            ignored: (w / 64 % 2) as u8,
        };
    }
    if w < 0x4D80 {
        return unary(w);
    }
    if w < 0x4E00 {
        return control(w);
    }
    Instr::Illegal
}

// 5000 to 5FFF: CEX, LD, ST.
fn memory(w: u16) -> Instr
    ensures { result ≡ memory_of w }
{
    if w < 0x5400 {
        return Instr::Cex {
            cond: (w / 64 % 16) as u8,
            true_count: (w / 8 % 8) as u8,
            false_count: (w % 8) as u8,
        };
    }
    if w < 0x5800 {
        return Instr::Illegal;
    }
    let prpo = (w / 512 % 2) as u8;
    let dec = (w / 256 % 2) as u8;
    let inc = (w / 128 % 2) as u8;
    let wb = (w / 64 % 2) as u8;
    let src = (w / 8 % 8) as u8;
    let dst = (w % 8) as u8;
    if w < 0x5C00 {
        return Instr::Ld {
            prpo,
            dec,
            inc,
            wb,
            src,
            dst,
        };
    }
    Instr::St {
        prpo,
        dec,
        inc,
        wb,
        src,
        dst,
    }
}

// 8000 to FFFF: LDR, STR.
fn relative(w: u16) -> Instr
    ensures { result ≡ relative_of w }
{
    let off = signed(64, w / 128 % 128);
    let wb = (w / 64 % 2) as u8;
    let src = (w / 8 % 8) as u8;
    let dst = (w % 8) as u8;
    if w < 0xC000 {
        return Instr::Ldr { off, wb, src, dst };
    }
    Instr::Str { off, wb, src, dst }
}

// The instruction that a word means.
pub fn decode(w: u16) -> Instr
    ensures { result ≡ decode_of w }
{
    if w < 0x2000 {
        return Instr::Bl {
            off: signed(4096, w % 8192),
        };
    }
    if w < 0x4000 {
        return Instr::Branch {
            cond: (w / 1024 % 8) as u8,
            off: signed(512, w % 1024),
        };
    }
    if w < 0x4C00 {
        return Instr::Alu {
            op: (w / 256 % 16) as u8,
            rc: (w / 128 % 2) as u8,
            wb: (w / 64 % 2) as u8,
            src: (w / 8 % 8) as u8,
            dst: (w % 8) as u8,
        };
    }
    if w < 0x5000 {
        return misc(w);
    }
    if w < 0x6000 {
        return memory(w);
    }
    if w < 0x8000 {
        return Instr::MovImm {
            op: (w / 2048 % 4) as u8,
            byte: (w / 8 % 256) as u8,
            dst: (w % 8) as u8,
        };
    }
    relative(w)
}
