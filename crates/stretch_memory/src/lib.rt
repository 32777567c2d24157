// Loads and stores of a stretch. Each function takes the word w, PC being past it (`pc`), and
// answers pc, or LEFT_ALONE and has left all alone. Left alone are an odd word access, a store to
// the device bytes or to the vectors, a load into R7, and an adjustment of R7.
#![tactic(auto)]

ghost use Rattle.std.specs.Prelude.{◌≡◌, ℕ, ◌/◌, ◌%◌, ◌<◌, ◌≤◌, Bool, true, false, length, if◌then◌else◌, slice_index, slice_set};
ghost use Rattle.word.specs.Offset.{signed_of};
ghost use Rattle.isa.specs.declared.Instr.TheVariants as Instr;
ghost use Rattle.isa.specs.Decode.{decode_of};
ghost use Rattle.machine.specs.State.{core_of, moved};
ghost use Rattle.machine.specs.Memory.{commit, value_at};
ghost use Rattle.machine.specs.Devices.{load_writes, store_writes};
ghost use Rattle.machine.specs.Effect.{loaded, moves?};
ghost use Rattle.stretch_registers.specs.Effected.{Past};
ghost use Rattle.stretch_memory.specs.Ordinary.{aligned?, inside?, storable?};
ghost use Rattle.stretch_memory.specs.Served.{Taken};

use machine::ByteAddr;
use stretch_registers::LEFT_ALONE;

// Is an access of this width at this address aligned: any byte, or a word at an even address?
fn aligned(byte: bool, at: u16) -> bool
    ensures { result ≡ aligned? byte at }
{
    byte | (at % 2 == 0)
}

// Is the address past the device bytes and below the vectors?
fn inside(at: u16) -> bool
    ensures { result ≡ inside? at }
{
    (0x10 <= at) & (at < 0xFFC0)
}

// A store, if it is one that a stretch takes; else memory is as it was.
fn store(mem: &mut [u8; 65536], byte: bool, at: u16, v: u16) -> bool
    ensures declined { result ≡ false → mem.new ≡ mem.old }
    ensures stored { result ≡ true → (storable? byte at ≡ true) × (mem.new ≡
        commit (store_writes byte mem.old at v) mem.old) }
{
    if !inside(at) | !aligned(byte, at) {
        return false;
    }
    memory::store(mem, byte, ByteAddr(at), v);
    true
}

// A load into a register that is not R7.
fn load(regs: &mut [u16; 8], mem: &mut [u8; 65536], byte: bool, at: u16, dst: usize)
    requires { dst < 7 }
    ensures core { (psw cex : ℕ) → core_of regs.new psw cex ≡ loaded
        (core_of regs.old psw cex) byte dst (value_at byte mem.old at) }
    ensures memory { mem.new ≡
        commit (load_writes byte mem.old at) mem.old }
    ensures pc { slice_index regs.new 7 ≡ slice_index regs.old 7 }
{
    let v = memory::load(mem, byte, ByteAddr(at));
    let w = word::with_low(byte, regs[dst], v);
    regs[dst] = w;
}

// The adjustment of LD and ST, written where it moves.
fn adjust(regs: &mut [u16; 8], i: usize, dec: u8, inc: u8, to: u16)
    requires { i < 8 }
    ensures { regs.new
        ≡ (if moves? dec inc then slice_set regs.old i to else regs.old) }
{
    if dec == inc {
        return;
    }
    regs[i] = to;
}

// 5800 to 5BFF: LD. `row` is w / 64: PRPO, DEC, INC and the width are its last four bits.
pub fn load_indexed(
    regs: &mut [u16; 8],
    mem: &mut [u8; 65536],
    pc: usize,
    w: usize,
    row: usize,
) -> usize
    requires { Past pc regs.old × (w / 64 ≡ row) × (0x160 ≤ row) × (row < 0x170) }
    ensures { (free : Bool) (psw cex : ℕ) → Taken free (decode_of w)
        regs.old psw cex mem.old
        regs.new psw cex mem.new result }
{
    let dec = (row / 4 % 2) as u8;
    let inc = (row / 2 % 2) as u8;
    let wb = (row % 2) as u8;
    let src = w / 8 % 8;
    let dst = w % 8;
    if dst == 7 {
        return LEFT_ALONE;
    }
    if (dec != inc) & (src == 7) {
        return LEFT_ALONE;
    }
    let a = regs[src];
    let b = operands::adjusted_by(a, dec, inc, wb);
    let at = operands::address((row / 8 % 2) as u8, a, b);
    if !aligned(wb == 1, at) {
        return LEFT_ALONE;
    }
    adjust(regs, src, dec, inc, b);
    load(regs, mem, wb == 1, at, dst);
    pc
}

// 5C00 to 5FFF: ST, in the same way.
pub fn store_indexed(
    regs: &mut [u16; 8],
    mem: &mut [u8; 65536],
    pc: usize,
    w: usize,
    row: usize,
) -> usize
    requires { Past pc regs.old × (w / 64 ≡ row) × (0x170 ≤ row) × (row < 0x180) }
    ensures { (free : Bool) (psw cex : ℕ) → Taken free (decode_of w)
        regs.old psw cex mem.old
        regs.new psw cex mem.new result }
{
    let dec = (row / 4 % 2) as u8;
    let inc = (row / 2 % 2) as u8;
    let wb = (row % 2) as u8;
    let dst = w % 8;
    if (dec != inc) & (dst == 7) {
        return LEFT_ALONE;
    }
    let value = regs[w / 8 % 8];
    let a = regs[dst];
    let b = operands::adjusted_by(a, dec, inc, wb);
    let at = operands::address((row / 8 % 2) as u8, a, b);
    if !store(mem, wb == 1, at, value) {
        return LEFT_ALONE;
    }
    adjust(regs, dst, dec, inc, b);
    pc
}

// The address of LDR and STR, by the signed offset in bits 13 to 7, which counts from -64.
fn relative(base: u16, w: usize) -> u16
    ensures { result ≡ moved base (signed_of 64 (w / 128 % 128)) }
{
    let off = ((w / 128 % 128 + 64) % 128) as u16;
    base.wrapping_add(off).wrapping_sub(64)
}

// 8000 to BFFF: LDR, its width known.
pub fn load_relative(
    regs: &mut [u16; 8],
    mem: &mut [u8; 65536],
    pc: usize,
    w: usize,
    wb: u8,
) -> usize
    requires { Past pc regs.old }
    ensures { (free : Bool) (psw cex : ℕ) → Taken free
        (Instr.Ldr (signed_of 64 (w / 128 % 128)) wb (w / 8 % 8) (w % 8))
        regs.old psw cex mem.old
        regs.new psw cex mem.new result }
{
    let dst = w % 8;
    if dst == 7 {
        return LEFT_ALONE;
    }
    let base = regs[w / 8 % 8];
    let from = relative(base, w);
    if !aligned(wb == 1, from) {
        return LEFT_ALONE;
    }
    load(regs, mem, wb == 1, from, dst);
    pc
}

// C000 to FFFF: STR, its width known.
pub fn store_relative(regs: &[u16; 8], mem: &mut [u8; 65536], pc: usize, w: usize, wb: u8) -> usize
    requires { Past pc regs.now }
    ensures { (free : Bool) (psw cex : ℕ) → Taken free
        (Instr.Str (signed_of 64 (w / 128 % 128)) wb (w / 8 % 8) (w % 8))
        regs.now psw cex mem.old
        regs.now psw cex mem.new result }
{
    let at = relative(regs[w % 8], w);
    let v = regs[w / 8 % 8];
    if !store(mem, wb == 1, at, v) {
        return LEFT_ALONE;
    }
    pc
}
