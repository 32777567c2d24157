// Words by their leading bits: each is done by the function of its format (crate stretch_formats),
// or left alone. `k` has the constants that a source field can name; the PSW is `psw` with the
// flags that `kept` has (crate flags); `free` says that no line waits. take_word has the first rows;
// a word with none goes on to move_word, and so on up the file. A row is the word's leading bits as
// a number, and hands that number on: what it says of operation, operand and width is then known
// where the row is compiled, and all rows together become one table, of which the test in
// either_operand becomes a part.
#![tactic(auto)]

ghost use Rattle.std.specs.Prelude.{Bool, List, ◌⊎◌, ◌≡◌, ℕ, ◌+◌, ◌/◌, ◌%◌, ◌<◌, ◌≤◌};
ghost use Rattle.isa.specs.Decode.{decode_of};
ghost use Rattle.flags.specs.Kept.{held_in};
ghost use Rattle.stretch_registers.specs.Effected.{Past};
ghost use Rattle.stretch_memory.specs.Served.{Taken};
ghost use Rattle.stretch_formats.specs.Ready.{Ready, constants};

use flags::Kept;
use stretch_formats::{far_word, operation};
use stretch_memory::{load_indexed, store_indexed};

// MOV, SETPRI, SETCC and CLRCC; LD and ST by their last four leading bits.
fn move_word(
    regs: &mut [u16; 8],
    mem: &mut [u8; 65536],
    k: &[u16; 8],
    psw: &mut u16,
    free: bool,
    kept: &mut Kept,
    cex: &mut u16,
    pc: usize,
    w: usize,
) -> usize
    requires { Ready pc w regs.old mem.old k.now }
    ensures { Taken free (decode_of w)
        regs.old
        (held_in psw.old kept.old)
        cex.old mem.old
        regs.new
        (held_in psw.new kept.new)
        cex.new mem.new result }
{
    match w / 64 {
        0x130 => stretch_registers::move_word(regs, cex, pc, w, false),
        0x131 => stretch_registers::move_word(regs, cex, pc, w, true),
        0x136 => stretch_registers::priority_word(psw, free, pc, w),
        0x137 => stretch_registers::flags_word(kept, pc, w),
        0x160 => load_indexed(regs, mem, pc, w, 0x160),
        0x161 => load_indexed(regs, mem, pc, w, 0x161),
        0x162 => load_indexed(regs, mem, pc, w, 0x162),
        0x163 => load_indexed(regs, mem, pc, w, 0x163),
        0x164 => load_indexed(regs, mem, pc, w, 0x164),
        0x165 => load_indexed(regs, mem, pc, w, 0x165),
        0x16A => load_indexed(regs, mem, pc, w, 0x16A),
        0x16B => load_indexed(regs, mem, pc, w, 0x16B),
        0x16C => load_indexed(regs, mem, pc, w, 0x16C),
        0x16D => load_indexed(regs, mem, pc, w, 0x16D),
        0x170 => store_indexed(regs, mem, pc, w, 0x170),
        0x171 => store_indexed(regs, mem, pc, w, 0x171),
        0x172 => store_indexed(regs, mem, pc, w, 0x172),
        0x173 => store_indexed(regs, mem, pc, w, 0x173),
        0x174 => store_indexed(regs, mem, pc, w, 0x174),
        0x175 => store_indexed(regs, mem, pc, w, 0x175),
        0x17A => store_indexed(regs, mem, pc, w, 0x17A),
        0x17B => store_indexed(regs, mem, pc, w, 0x17B),
        0x17C => store_indexed(regs, mem, pc, w, 0x17C),
        0x17D => store_indexed(regs, mem, pc, w, 0x17D),
        _ => far_word(regs, mem, k, kept, cex, pc, w),
    }
}

// Two rows of one operation and width: `row`, whose operand is a register, and row + 2, whose
// operand is a constant.
fn either_operand(
    regs: &mut [u16; 8],
    k: &[u16; 8],
    kept: &mut Kept,
    pc: usize,
    w: usize,
    row: usize,
) -> usize
    requires { Past pc regs.old × (k.now ≡ constants)
        × ((w / 64 ≡ row) ⊎ (w / 64 ≡ row + 2))
        × (0x100 ≤ row) × (row < 0x12E) × (row / 2 % 2 ≡ 0) }
    ensures { (free : Bool) (m : List ℕ) (psw cex : ℕ) → Taken free (decode_of w)
        regs.old
        (held_in psw kept.old) cex m
        regs.new
        (held_in psw kept.new) cex m result }
{
    if w / 64 == row {
        return operation(regs, k, kept, pc, w, row, false);
    }
    operation(regs, k, kept, pc, w, row + 2, true)
}

// Any word; ADD to BIS by operand and width.
pub fn take_word(
    regs: &mut [u16; 8],
    mem: &mut [u8; 65536],
    k: &[u16; 8],
    psw: &mut u16,
    free: bool,
    kept: &mut Kept,
    cex: &mut u16,
    pc: usize,
    w: usize,
) -> usize
    requires { Ready pc w regs.old mem.old k.now }
    ensures { Taken free (decode_of w)
        regs.old
        (held_in psw.old kept.old)
        cex.old mem.old
        regs.new
        (held_in psw.new kept.new)
        cex.new mem.new result }
{
    match w / 64 {
        0x100 | 0x102 => either_operand(regs, k, kept, pc, w, 0x100),
        0x101 | 0x103 => either_operand(regs, k, kept, pc, w, 0x101),
        0x104 | 0x106 => either_operand(regs, k, kept, pc, w, 0x104),
        0x105 | 0x107 => either_operand(regs, k, kept, pc, w, 0x105),
        0x108 | 0x10A => either_operand(regs, k, kept, pc, w, 0x108),
        0x109 | 0x10B => either_operand(regs, k, kept, pc, w, 0x109),
        0x10C | 0x10E => either_operand(regs, k, kept, pc, w, 0x10C),
        0x10D | 0x10F => either_operand(regs, k, kept, pc, w, 0x10D),
        0x110 | 0x112 => either_operand(regs, k, kept, pc, w, 0x110),
        0x111 | 0x113 => either_operand(regs, k, kept, pc, w, 0x111),
        0x114 | 0x116 => either_operand(regs, k, kept, pc, w, 0x114),
        0x115 | 0x117 => either_operand(regs, k, kept, pc, w, 0x115),
        0x118 | 0x11A => either_operand(regs, k, kept, pc, w, 0x118),
        0x119 | 0x11B => either_operand(regs, k, kept, pc, w, 0x119),
        0x11C | 0x11E => either_operand(regs, k, kept, pc, w, 0x11C),
        0x11D | 0x11F => either_operand(regs, k, kept, pc, w, 0x11D),
        0x120 | 0x122 => either_operand(regs, k, kept, pc, w, 0x120),
        0x121 | 0x123 => either_operand(regs, k, kept, pc, w, 0x121),
        0x124 | 0x126 => either_operand(regs, k, kept, pc, w, 0x124),
        0x125 | 0x127 => either_operand(regs, k, kept, pc, w, 0x125),
        0x128 | 0x12A => either_operand(regs, k, kept, pc, w, 0x128),
        0x129 | 0x12B => either_operand(regs, k, kept, pc, w, 0x129),
        0x12C | 0x12E => either_operand(regs, k, kept, pc, w, 0x12C),
        0x12D | 0x12F => either_operand(regs, k, kept, pc, w, 0x12D),
        _ => move_word(regs, mem, k, psw, free, kept, cex, pc, w),
    }
}
