// The exported call of the printed line: the line of an input at the start of a lent buffer. An
// object of its own in the archive, as each call that has a loop over steps.
#![tactic(auto)]

ghost use Rattle.std.specs.Prelude.{◌≡◌};
ghost use Rattle.xm23_sheet.specs.Call.{sheet_call_of};

// The printed line of an input, at the start of `line`: refusal in bits 7-0, the line's length with
// its LF in bits 31-8. Bytes past the line, and all of them where refused, stay as they were.
#[unsafe(no_mangle)]
pub extern "C" fn xm23_sheet(input: &[u8], line: &mut [u8]) -> u32
    ensures reply { result ≡ (sheet_call_of input.now line.old).reply }
    ensures line { line.new
        ≡ (sheet_call_of input.now line.old).line }
{
    if line.len() < 80 {
        return 22;
    }
    let mut memory = [0u8; 65536];
    let mut out = [0u8; 80];
    let n = printed_line::sheet(input, &mut memory, &mut out);
    line[..n].copy_from_slice(&out[..n]);
    256 * (n as u32)
}
