// The lines of a text, one after the other: where the line ends that begins at a place, and where
// the next one begins. Each byte is looked at once or twice, so a walk of all lines is linear.
#![tactic(auto)]

ghost use Rattle.std.specs.Prelude.{◌≡◌, ◌<◌, length, drop};
ghost use Rattle.text_lines.specs.Lines.{LineAt, starts_cr_lf};

// A line's end, and the start of the line after it.
#[derive(Clone, Copy)]
pub struct Line {
    pub stop: usize,
    pub next: usize,
}

// Whether CR LF stands at `at`.
fn crlf_at(text: &[u8], at: usize) -> bool
    requires { at < length text.now }
    ensures { result ≡ starts_cr_lf (drop at text.now) }
{
    // Kept: one `&&` of the three tests costs 7 host instructions in 100 of a load.
    if text[at] != b'\r' {
        return false;
    }
    let after = at + 1;
    if text.len() <= after {
        return false;
    }
    text[after] == b'\n'
}

// The line that begins at `at`.
pub fn line_at(text: &[u8], at: usize) -> Line
    requires { at < length text.now }
    ensures { LineAt text.now at result.stop result.next }
{
    for i in at..text.len() {
        if text[i] == b'\n' {
            return Line {
                stop: i,
                next: i + 1,
            };
        }
        if crlf_at(text, i) {
            return Line {
                stop: i,
                next: i + 2,
            };
        }
    }
    Line {
        stop: text.len(),
        next: text.len(),
    }
}
