// A store to a device's bytes, taken at once as a step where no line waits: what it shows is added
// to the log, if there is room. Else nothing has changed, and the step is for the general way.
#![tactic(auto)]

ghost use Rattle.std.specs.Prelude.{◌≡◌, ◌/◌, ◌%◌, ◌<◌, ◌≤◌, MatchOption, length, if◌then◌else◌, nat_eq};
ghost use Rattle.machine.specs.Effect.{adjusted};
ghost use Rattle.show_step.specs.Stored.{Stored};
ghost use Rattle.show_step.specs.Steps.{Fetched, Steps, Same};

use machine::{Act, ByteAddr};

// The store itself, of a value at an address: the records that are there after it, if it was taken.
fn store(
    mem: &mut [u8; 65536],
    log: &mut [u8],
    count: u32,
    byte: bool,
    at: u16,
    value: u16,
    added: usize,
) -> Option<usize>
    requires { added ≤ length log.old / 8 }
    ensures { MatchOption result ((mem.new ≡ mem.old) × (log.new ≡ log.old))
        (λ there. Stored byte at value count mem.old added log.old mem.new there log.new) }
{
    if (16 <= at) | (!byte & (at % 2 == 1)) {
        return None;
    }
    let a = Act::Stores {
        byte,
        at: ByteAddr(at),
        value,
    };
    let shown = output_log::shown_by(mem, a);
    if output_log::lacks_room(shown, added, log.len() / 8) {
        return None;
    }
    let records = output_log::add(log, added, count, shown);
    memory::store(mem, byte, ByteAddr(at), value);
    Some(records)
}

// The same store, laid in once for each width, so that neither asks for the width again.
// Kept: called with the width as it comes, the store takes more host instructions for each step.
fn store_by_width(
    mem: &mut [u8; 65536],
    log: &mut [u8],
    count: u32,
    byte: bool,
    at: u16,
    value: u16,
    added: usize,
) -> Option<usize>
    requires { added ≤ length log.old / 8 }
    ensures { MatchOption result ((mem.new ≡ mem.old) × (log.new ≡ log.old))
        (λ there. Stored byte at value count mem.old added log.old mem.new there log.new) }
{
    if byte {
        return store(mem, log, count, true, at, value, added);
    }
    store(mem, log, count, false, at, value, added)
}

// C000 to FFFF: STR, w being its word.
pub fn show(
    regs: &mut [u16; 8],
    mem: &mut [u8; 65536],
    log: &mut [u8],
    count: u32,
    w: u16,
    added: usize,
) -> Option<usize>
    requires { Fetched w regs.old mem.old log.old added × (0xC000 ≤ w) }
    ensures { MatchOption result (Same regs.old mem.old log.old regs.new mem.new log.new)
        (λ there. Steps regs.old mem.old log.old count added regs.new mem.new log.new there) }
{
    let here = regs[7];
    regs[7] = here.wrapping_add(2);
    let value = operands::get(regs, (w / 8 % 8) as u8);
    let base = operands::get(regs, (w % 8) as u8);
    let at = operands::offset_from(base, word::signed(64, w / 128 % 128));
    let Some(shown) = store_by_width(mem, log, count, w / 64 % 2 == 1, at, value, added) else {
        regs[7] = here;
        return None;
    };
    Some(shown)
}

// The address of ST, and its index register after the adjustment.
#[derive(Clone, Copy)]
struct Index {
    at: u16,
    to: u16,
}

// The index register being a, by the word's bits from bit 6 on.
fn index_of(a: u16, row: u16) -> Index
    ensures to { result.to ≡ adjusted a (row / 4 % 2) (row / 2 % 2) (row % 2) }
    ensures at { result.at ≡ (if nat_eq (row / 8 % 2) 1 then result.to else a) }
{
    let dec = (row / 4 % 2) as u8;
    let inc = (row / 2 % 2) as u8;
    let to = operands::adjusted_by(a, dec, inc, (row % 2) as u8);
    Index {
        at: operands::address((row / 8 % 2) as u8, a, to),
        to,
    }
}

// 5C00 to 5FFF: ST, w being its word; an adjustment of R7 is for the general way.
pub fn show_indexed(
    regs: &mut [u16; 8],
    mem: &mut [u8; 65536],
    log: &mut [u8],
    count: u32,
    w: u16,
    added: usize,
) -> Option<usize>
    requires { Fetched w regs.old mem.old log.old added × (0x5C00 ≤ w) × (w < 0x6000) }
    ensures { MatchOption result (Same regs.old mem.old log.old regs.new mem.new log.new)
        (λ there. Steps regs.old mem.old log.old count added regs.new mem.new log.new there) }
{
    let row = w / 64;
    let i = (w % 8) as usize;
    if (row / 4 % 2 != row / 2 % 2) & (i == 7) {
        return None;
    }
    let pc = regs[7];
    regs[7] = pc.wrapping_add(2);
    let value = operands::get(regs, (w / 8 % 8) as u8);
    let x = index_of(operands::get(regs, (w % 8) as u8), row);
    let Some(there) = store(mem, log, count, row % 2 == 1, x.at, value, added) else {
        regs[7] = pc;
        return None;
    };
    regs[i] = x.to;
    Some(there)
}
