// The 32-byte state record, read and written.
#![tactic(auto)]

ghost use Rattle.std.specs.Prelude.{◌≡◌, List, ℕ, length};
ghost use Rattle.std.proofs.lemmas.List.Edits.{sets};
ghost use Rattle.machine.specs.State.{state_of};
ghost use Rattle.machine.specs.Record.{state_in, record_of};
ghost use Rattle.state_record.specs.Bytes.{register_bytes, status_bytes, counts_bytes};

use little_endian::{four_at, put_four, put_two, two_at};
use machine::{Lines, Machine, Rest};

// The machine that a record of 32 bytes holds. Bytes 20, 30 and 31 are not looked at, nor is byte
// 21 beyond being 1.
pub fn read_record(r: &[u8]) -> Machine
    requires { length r.now ≡ 32 }
    ensures { (mem : List ℕ) → state_of result mem ≡ state_in r.now mem }
{
    let regs = [
        two_at(r, 0),
        two_at(r, 2),
        two_at(r, 4),
        two_at(r, 6),
        two_at(r, 8),
        two_at(r, 10),
        two_at(r, 12),
        two_at(r, 14),
    ];
    let rest = Rest {
        psw: two_at(r, 16),
        cex: two_at(r, 18),
        lines: four_at(r, 26),
        halted: r[21] == 1,
        count: four_at(r, 22),
    };
    Machine { regs, rest }
}

// Bytes 0-15, the registers; 16-21, from PSW to the halted mark; 22-31, the step count, the lines
// and zeros.
fn put_registers(r: &mut [u8], regs: [u16; 8])
    requires { length r.old ≡ 32 }
    ensures { r.new ≡ sets r.old 0 (register_bytes regs) }
{
    put_two(r, 0, regs[0]);
    put_two(r, 2, regs[1]);
    put_two(r, 4, regs[2]);
    put_two(r, 6, regs[3]);
    put_two(r, 8, regs[4]);
    put_two(r, 10, regs[5]);
    put_two(r, 12, regs[6]);
    put_two(r, 14, regs[7]);
}

fn put_status(r: &mut [u8], psw: u16, cex: u16, halted: bool)
    requires { length r.old ≡ 32 }
    ensures { r.new ≡ sets r.old 16 (status_bytes psw cex halted) }
{
    put_two(r, 16, psw);
    put_two(r, 18, cex);
    r[20] = 0;
    r[21] = halted as u8;
}

fn put_counts(r: &mut [u8], count: u32, lines: Lines)
    requires { length r.old ≡ 32 }
    ensures { r.new ≡ sets r.old 22 (counts_bytes count lines) }
{
    put_four(r, 22, count);
    put_four(r, 26, lines);
    put_two(r, 30, 0);
}

// The record of a machine, all 32 bytes.
pub fn write_record(r: &mut [u8], m: Machine)
    requires { length r.old ≡ 32 }
    ensures { (mem : List ℕ) → r.new ≡ record_of (state_of m mem) }
{
    let regs = m.regs;
    put_registers(r, regs);
    let t = m.rest;
    put_status(r, t.psw, t.cex, t.halted);
    put_counts(r, t.count, t.lines);
}
