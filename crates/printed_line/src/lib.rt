// The printed line: cutting the input into its parts, running, having the text written.
#![tactic(auto)]

mod cut;
mod slices;

ghost use Rattle.std.specs.Prelude.{◌≡◌, ◌≤◌, length, take, drop};
ghost use Rattle.line_text.specs.Line.{line_of};
ghost use Rattle.printed_line.specs.Sheet.{input_verdict, run_in, deepest_in, sheet_of, memory_after};

// The line of an accepted input, whose memory is copied out and run on.
fn put_run(input: &[u8], memory: &mut [u8; 65536], out: &mut [u8; 80]) -> usize
    requires { input_verdict input.now ≡ Ok tt }
    ensures line { take result out.new
        ≡ line_of (run_in input.now) (deepest_in input.now) }
    ensures memory { memory.new ≡ (run_in input.now).state.mem }
    ensures kept { drop result out.new ≡ drop result out.old }
    ensures fits { result ≤ 80 }
{
    memory.copy_from_slice(cut::part(input, 36, 65572));
    let n = little_endian::four_at(input, 0);
    let m = state_record::read_record(cut::part(input, 4, 36));
    let events = cut::part(input, 65572, input.len());
    let done = slices::run_whole(m, memory, events, n);
    line_text::put_line(out, done.machine, done.steps, done.deepest)
}

// The line printed for an input, at the start of `out`; the result is its length. What stands past
// the line stays; `memory` becomes the run's, and stays where the input is refused.
pub fn sheet(input: &[u8], memory: &mut [u8; 65536], out: &mut [u8; 80]) -> usize
    ensures line { take result out.new ≡ sheet_of input.now }
    ensures memory { memory.new
        ≡ memory_after input.now memory.old }
    ensures kept { drop result out.new ≡ drop result out.old }
    ensures fits { (result ≤ 80) × (length out.new ≡ 80) }
{
    if let Err(refused) = cut::verdict(input) {
        return line_text::put_refusal(out, refusal::refusal_number(Err(refused)));
    }
    put_run(input, memory, out)
}
