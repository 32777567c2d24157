// The image of a source: the bytes of each statement at its place, in the order of the lines.
#![tactic(auto)]

ghost use Rattle.std.specs.Prelude.{◌≡◌, length};
ghost use Rattle.std.proofs.lemmas.List.Edits.{sets};
ghost use Rattle.asm_text.specs.Text.{values_in};
ghost use Rattle.asm_write.specs.Written.{bytes_of, bytes_for};
ghost use Rattle.asm_line.specs.Line.{line_of};
ghost use Rattle.asm_sweeps.specs.Form.{end?};
ghost use Rattle.asm_image.specs.Image.{Room, place_on, statements_at, placed_of, image_of};

use asm_line::Statement;
use asm_text::Names;

// The place after a line, and whether the line is END.
#[derive(Clone, Copy)]
pub struct Stored {
    pub place: u32,
    pub end: bool,
}

// A byte or a word at a place where it lies in memory; no byte of size 0.
fn put(memory: &mut [u8], p: u32, size: u8, n: u16)
    requires { (length memory.old ≡ 65536) × Room p size }
    ensures { memory.new ≡ sets memory.old p (bytes_for size n) }
{
    if size == 0 {
        return;
    }
    let [low, high] = n.to_le_bytes();
    let a = p as usize;
    memory[a] = low;
    if size != 1 {
        memory[a + 1] = high;
    }
}

// The bytes of a statement at its place.
fn store(memory: &mut [u8], p: u32, x: Statement)
    requires { length memory.old ≡ 65536 }
    ensures { memory.new ≡ sets memory.old p (bytes_of p x) }
{
    let size = asm_write::size(asm_write::layout_of(x));
    if let Ok(n) = asm_write::used(p, x) {
        put(memory, p, size, n);
    }
}

// A line in the fourth sweep.
#[tactic(auto, unfolding(crate::specs::Image::image_of))]
fn store_line(memory: &mut [u8], names: &Names<'_>, part: &[u8], p: u32) -> Stored
    requires { length memory.old ≡ 65536 }
    ensures memory_after { memory.new
        ≡ image_of (statements_at p (line_of (values_in names.now) part.now)) memory.old }
    ensures place_value { result.place ≡ place_on p (line_of (values_in names.now) part.now) }
    ensures end_value { result.end ≡ end? (line_of (values_in names.now) part.now) }
{
    let r = asm_line::read_line(names, part);
    let Some(line) = r else {
        return Stored {
            place: p,
            end: false,
        };
    };
    store(memory, p, line.statement);
    let l = asm_write::layout_of(line.statement);
    let end = asm_sweeps::is_stop(l);
    let place = asm_sweeps::place_after(p, asm_write::after(p, l));
    Stored { place, end }
}

// The image of a source whose names are in the table.
pub fn image(memory: &mut [u8], names: &Names<'_>)
    requires { length memory.old ≡ 65536 }
    ensures { memory.new ≡ image_of (placed_of (values_in names.now) names.now.source.now)
        memory.old }
{
    let source = names.source;
    let mut at = 0;
    let mut p: u32 = 0;
    while at < source.len() {
        let l = text_lines::line_at(source, at);
        let stop = l.stop;
        let next = l.next;
        let part = &source[at..stop];
        let r = store_line(memory, names, part, p);
        if r.end {
            return;
        }
        p = r.place;
        at = next;
    }
}
