// A device's frame as it is held, and what a pull finds changed of it; and what the act of a step is
// to the frames.
#![tactic(auto)]

ghost use Rattle.std.specs.Prelude.{◌≡◌, ◌≤◌, length, slice_index};
ghost use Rattle.machine.specs.Entry.{frame_byte};
ghost use Rattle.resume.specs.Frames.{accepts_none?};
ghost use Rattle.soundness.specs.Findings.{bytes_at};
ghost use Rattle.soundness.specs.Findings.{differing, changes_of};
ghost use Rattle.soundness.specs.Judge.{holds?};
ghost use Rattle.held_frames.specs.Rows.{row_kept, kept_with};

use machine::Act;

// R0 to R4, SP and the eight bytes of the frame, as they were when the frame was made.
#[derive(Clone, Copy)]
pub struct Row {
    pub registers: [u16; 5],
    pub stack: u16,
    pub frame: [u16; 8],
}

// Byte j of the frame at p.
fn frame_byte(mem: &[u8], p: u16, j: u16) -> u16
    requires { length mem.now ≡ 65536 }
    ensures { result ≡ frame_byte mem.now p j }
{
    mem[(p / 2 * 2).wrapping_add(j) as usize] as u16
}

// The eight bytes of the frame at p.
fn frame_at(mem: &[u8], p: u16) -> [u16; 8]
    requires { length mem.now ≡ 65536 }
    ensures { result ≡ bytes_at mem.now p }
{
    [
        frame_byte(mem, p, 0),
        frame_byte(mem, p, 1),
        frame_byte(mem, p, 2),
        frame_byte(mem, p, 3),
        frame_byte(mem, p, 4),
        frame_byte(mem, p, 5),
        frame_byte(mem, p, 6),
        frame_byte(mem, p, 7),
    ]
}

// A bit for each of R0 to R4 that differs from the row's.
// Kept: five lines, no loop: a sum over places is no plainer, and asks for a bound on each turn.
fn registers_differ(row: &Row, regs: &[u16; 8]) -> u8
    ensures { (result ≡ differing row.now.registers
        (kept_with regs.now regs.now 0).registers) × (result ≤ 31) }
{
    let d4 = (row.registers[4] != regs[4]) as u8;
    let d3 = (row.registers[3] != regs[3]) as u8 + 2 * d4;
    let d2 = (row.registers[2] != regs[2]) as u8 + 2 * d3;
    let d1 = (row.registers[1] != regs[1]) as u8 + 2 * d2;
    (row.registers[0] != regs[0]) as u8 + 2 * d1
}

// What a pull from these registers and this memory finds changed of the row.
pub fn changes(row: &Row, regs: &[u16; 8], mem: &[u8]) -> u8
    requires { length mem.now ≡ 65536 }
    ensures { result ≡ changes_of (row_kept row.now)
        (kept_with regs.now mem.now row.now.stack) }
{
    let p = row.stack;
    let r = registers_differ(row, regs);
    let s = (p != regs[6]) as u8;
    let b = (row.frame != frame_at(mem, p)) as u8;
    r + 32 * s + 64 * b
}

// Is a step with this act the application's, where no device's frame is open?
pub fn accepts_none(act: Act) -> bool
    ensures { result ≡ accepts_none? act }
{
    !matches!(act, Act::Stopped | Act::Accept(..))
}

// Would the act make one more device's frame?
pub fn holds(act: Act, owns: u32, own: bool) -> bool
    ensures { result ≡ holds? act owns own }
{
    match act {
        Act::Chain(..) => own && owns != 0,
        Act::Accept(..) | Act::Fault(..) => true,
        Act::Trap(..) => !own,
        _ => false,
    }
}

// The row of the frame that an entry or a chaining leaves at SP.
pub fn keep_row(regs: &[u16; 8], mem: &[u8]) -> Row
    requires { length mem.now ≡ 65536 }
    ensures { row_kept result ≡ kept_with regs.now mem.now (slice_index regs.now 6) }
{
    let p = regs[6];
    Row {
        registers: [regs[0], regs[1], regs[2], regs[3], regs[4]],
        stack: p,
        frame: frame_at(mem, p),
    }
}
