// The parts of the program's input.
ghost use Rattle.std.specs.Prelude.{◌≡◌, ◌-◌, ◌≤◌, length, take, drop};
ghost use Rattle.printed_line.specs.Sheet.{input_verdict};

use machine::{Refusal, Verdict};

// The bytes from place `from` up to place `to`.
pub fn part(input: &[u8], from: usize, to: usize) -> &[u8]
    requires { (from ≤ to) × (to ≤ length input.now) }
    ensures { result.now ≡ take (to - from) (drop from input.now) }
{
    &input[from..to]
}

// Whether an input is accepted: its length, then what the run call tests.
pub fn verdict(input: &[u8]) -> Verdict
    ensures { result ≡ input_verdict input.now }
{
    if input.len() < 36 {
        return Err(Refusal::RecordLength);
    }
    if input.len() < 65572 {
        return Err(Refusal::MemoryLength);
    }
    let n = little_endian::four_at(input, 0) as u64;
    let state = part(input, 4, 36);
    let memory = part(input, 36, 65572);
    let events = part(input, 65572, input.len());
    refusal::verdict(memory, state, events, n)
}
