// Reading a text of S-records: the whole text is judged first, then loaded. Each line is looked at
// three times at most, so both are linear in the text's length.
#![tactic(auto)]

mod line;

ghost use Rattle.std.specs.Prelude.{◌≡◌, length};
ghost use Rattle.text_lines.specs.Lines.{lines_of};
ghost use Rattle.srec.specs.Load.{verdict_of, memory_after, pc_after, Sound};

use srec::{Refusal, Refused};

// The verdict on a text: the first fault of the first line at fault.
pub fn judge(text: &[u8]) -> Result<(), Refused>
    ensures { result ≡ verdict_of text.now }
{
    let mut at = 0;
    let mut number: u64 = 1;
    while at < text.len() {
        let l = text_lines::line_at(text, at);
        let part = &text[at..l.stop];
        let last = l.next == text.len();
        if let Err(refusal) = line::fault(part, last) {
            return Err(Refused {
                refusal,
                line: number,
            });
        }
        if line::kind(part) == b'9' {
            return Ok(());
        }
        at = l.next;
        number += 1;
    }
    Err(Refused {
        refusal: Refusal::Form,
        line: number,
    })
}

// Memory and PC after a text whose lines can all be loaded; the result is the PC.
pub fn load(memory: &mut [u8], text: &[u8], pc: u16) -> u16
    requires { (length memory.old ≡ 65536) × Sound (lines_of text.now) }
    ensures memory { memory.new
        ≡ memory_after (lines_of text.now) memory.old }
    ensures pc { result ≡ pc_after (lines_of text.now) pc }
{
    let mut at = 0;
    let mut last = pc;
    while at < text.len() {
        let l = text_lines::line_at(text, at);
        let part = &text[at..l.stop];
        line::store(memory, part);
        last = line::pc(part, last);
        at = l.next;
    }
    last
}
