// What stands where in a source: a record of eight bytes for each line up to and with END, written
// after the whole source has been judged as the assembler judges it. The buffer lent for them is
// `list` here: `names` are those of the source, as in the crates below.
#![tactic(auto)]

ghost use Rattle.std.specs.Prelude.{◌≡◌, ◌+◌, ◌≤◌, length};
ghost use Rattle.std.proofs.lemmas.List.Edits.{sets};
ghost use Rattle.asm_text.specs.Text.{values_in};
ghost use Rattle.asm_line.specs.Line.{line_of};
ghost use Rattle.asm_sweeps.specs.Form.{end?};
ghost use Rattle.asm_image.specs.Image.{place_on};
ghost use Rattle.asm_places.specs.Listing.{listed_at, listed_with, value_bits};
ghost use Rattle.asm_places.specs.Listing.{number_at, kind_of, eight_of, records_of};
ghost use Rattle.asm_places.specs.Call.{places_verdict, places_reply, places_call_of};

use asm_line::Statement;
use asm_sweeps::{Fault, Refusal};
use asm_text::{Name, Names};
use asm_value::Value;
use asm_write::Layout;

// The 32 bits of a value, 0 of one at fault.
#[tactic(auto, unfolding(crate::specs::Listing::bits_of))]
fn value_bits(v: Value) -> u32
    ensures { result ≡ value_bits v }
{
    v.unwrap_or(0).cast_unsigned()
}

// The place before a statement, of an EQU its value.
fn number_at(p: u32, l: Layout) -> u32
    ensures { result ≡ number_at p l }
{
    match l {
        Layout::Equal(v) => value_bits(v),
        _ => p,
    }
}

// The kind of a statement, 0 to 7.
#[tactic(auto, unfolding(crate::specs::Listing::kind_of))]
fn kind(x: Statement) -> u8
    ensures { result ≡ kind_of x }
{
    match x {
        Statement::Nothing => 0,
        Statement::Org(_) => 4,
        Statement::Equ(_) => 5,
        Statement::Bss(_) => 6,
        Statement::End => 7,
        Statement::Byte(_) => 2,
        Statement::Word(_) => 3,
        _ => 1,
    }
}

// The eight bytes of a line from byte i on; the other bytes stay.
#[tactic(auto, unfolding(crate::specs::Listing::eight_of))]
fn put(list: &mut [u8], i: usize, n: u32, kind: u8, size: u8, named: bool)
    requires { i + 8 ≤ length list.old }
    ensures { list.new ≡ sets list.old i (eight_of n kind size named) }
{
    let [a, b, c, d] = n.to_le_bytes();
    list[i..i + 8].copy_from_slice(&[a, b, c, d, kind, size, named as u8, 0]);
}

// After a line: the place, where the next record goes, and whether the line is END.
#[derive(Clone, Copy)]
pub struct Moved {
    pub place: u32,
    pub at: usize,
    pub end: bool,
}

// The record of a line whose statement stands at p, written from byte i on.
#[tactic(auto, unfolding(crate::specs::Listing::records_of, crate::specs::Listing::eight_of))]
fn list_line(list: &mut [u8], names: &Names<'_>, part: &[u8], p: u32, i: usize) -> Moved
    requires { i + length (records_of (listed_at p (line_of (values_in names.now) part.now)))
        ≤ length list.old }
    ensures list_after { list.new ≡ sets list.old i (records_of (listed_at p
        (line_of (values_in names.now) part.now))) }
    ensures at_value { result.at ≡ i + length (records_of (listed_at p
        (line_of (values_in names.now) part.now))) }
    ensures place_value { result.place ≡ place_on p (line_of (values_in names.now) part.now) }
    ensures end_value { result.end ≡ end? (line_of (values_in names.now) part.now) }
{
    let r = asm_line::read_line(names, part);
    let Some(line) = r else {
        return Moved {
            place: p,
            at: i,
            end: false,
        };
    };
    let l = asm_write::layout_of(line.statement);
    let n = number_at(p, l);
    let k = kind(line.statement);
    let size = asm_write::size(l);
    put(list, i, n, k, size, line.name.is_some());
    let end = asm_sweeps::is_stop(l);
    let place = asm_sweeps::place_after(p, asm_write::after(p, l));
    Moved {
        place,
        at: i + 8,
        end,
    }
}

// The records of a source whose names are in the table, from the buffer's start on.
fn list_lines(list: &mut [u8], names: &Names<'_>)
    requires { length (records_of (listed_with (values_in names.now) names.now.source.now))
        ≤ length list.old }
    ensures { list.new ≡ sets list.old 0 (records_of (listed_with
        (values_in names.now) names.now.source.now)) }
{
    let source = names.source;
    let mut at = 0;
    let mut p: u32 = 0;
    let mut i = 0;
    while at < source.len() {
        let l = text_lines::line_at(source, at);
        let stop = l.stop;
        let next = l.next;
        let part = &source[at..stop];
        let r = list_line(list, names, part, p, i);
        if r.end {
            return;
        }
        p = r.place;
        i = r.at;
        at = next;
    }
}

// A source judged, and listed where nothing is at fault and the list is long enough. The third
// sweep stops at END, so its line is the number of records.
fn list_source(source: &[u8], list: &mut [u8]) -> Result<u64, Refusal>
    ensures verdict { result ≡ places_verdict source.now list.old }
    ensures places { list.new ≡ (places_call_of source.now list.old).places }
{
    let f = asm_sweeps::form(source);
    if let Some(line) = f {
        return Err(Refusal {
            kind: Fault::Form,
            line,
        });
    }
    let mut table = [Name {
        place: 0,
        key: 0,
        value: 0,
    }; 1024];
    let t = asm_sweeps::collect(source, &mut table);
    let names = Names {
        source,
        list: &table[..t.count],
    };
    let u = asm_sweeps::uses(&names);
    asm_sweeps::decide(None, t, u)?;
    let k = u.line;
    if ((list.len() / 8) as u64) < k {
        return Err(Refusal {
            kind: Fault::Room,
            line: 0,
        });
    }
    list_lines(list, &names);
    Ok(k)
}

// The reply of a verdict.
#[tactic(auto, unfolding(crate::specs::Call::places_reply))]
fn reply(v: Result<u64, Refusal>) -> u64
    ensures { result ≡ places_reply v }
{
    v.map_or_else(asm_call::refusal_reply, |k| asm_call::reply(0, k))
}

// The lines of a source, a record each, into the list lent. Refused, it stays as it was.
pub fn places_call(source: &[u8], list: &mut [u8]) -> u64
    ensures reply { result ≡ (places_call_of source.now list.old).reply }
    ensures places { list.new
        ≡ (places_call_of source.now list.old).places }
{
    reply(list_source(source, list))
}
