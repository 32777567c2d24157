// The line that is printed: of a run, or of a refusal. What stands past it is left.
#![tactic(auto)]

mod fields;

ghost use Rattle.std.specs.Prelude.{◌≡◌, List, ℕ, ◌+◌, ◌≤◌, length, take, drop};
ghost use Rattle.machine.specs.State.{state_of};
ghost use Rattle.machine.specs.Run.{ran};
ghost use Rattle.text.specs.Text.{Puts};
ghost use Rattle.line_text.specs.Line.{line_of, refused_line};
ghost use Rattle.line_text.specs.Parts.{machine_text};

use crate::fields::{put_field, put_number, put_words};
use machine::Machine;
use text::{put, put_decimal};

// From R0 to the lines' counts.
fn put_machine(out: &mut [u8], at: usize, m: Machine) -> usize
    requires { at + 57 ≤ length out.old }
    ensures { Puts out.old at (machine_text m) result out.new × (result ≡ at + 57) }
{
    let regs = m.regs;
    let r4 = put_words(out, at, regs[0], regs[1], regs[2], regs[3]);
    let psw = put_words(out, r4, regs[4], regs[5], regs[6], regs[7]);
    let cex = put_field(out, psw, 4, m.rest.psw as u32);
    let lines = put_field(out, cex, 2, m.rest.cex as u32);
    put_field(out, lines, 8, m.rest.lines)
}

// The line of a run that reached machine m in so many steps, with so many frames open at the most.
pub fn put_line(out: &mut [u8], m: Machine, steps: u32, deepest: u32) -> usize
    requires { length out.old ≡ 80 }
    ensures line { (mem : List ℕ)
        → take result out.new ≡ line_of (ran (state_of m mem) steps) deepest }
    ensures kept { drop result out.new ≡ drop result out.old }
    ensures fits { result ≤ 80 }
{
    let first = put(out, 0, 48 + m.rest.halted as u8);
    let second = put_number(out, first, steps);
    let last = put_machine(out, second, m);
    let end = put_number(out, last, deepest);
    put(out, end, b'\n')
}

// The line of a refusal with this number.
pub fn put_refusal(out: &mut [u8], refused: u64) -> usize
    requires { (length out.old ≡ 80) × (refused ≤ 255) }
    ensures line { take result out.new ≡ refused_line refused }
    ensures kept { drop result out.new ≡ drop result out.old }
    ensures fits { result ≤ 80 }
{
    let digits = put(out, 0, b'R');
    let end = put_decimal(out, digits, 6, refused as u32);
    put(out, end, b'\n')
}
