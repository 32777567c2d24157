// The sweeps over the lines of a source that judge it: form; names and places; uses. The names go
// into a lent table: where each starts in the source, its key and its value.
#![tactic(auto)]

ghost use Rattle.std.specs.Prelude.{◌≡◌, ◌<◌, length, drop};
ghost use Rattle.asm_text.specs.Text.{word, values_in};
ghost use Rattle.asm_line.specs.Line.{line_of};
ghost use Rattle.asm_sweeps.specs.Form.{end?, stops?, form_of};
ghost use Rattle.asm_sweeps.specs.Places.{note_lack, note_fault, placed_at, next_line, one_more};
ghost use Rattle.asm_sweeps.specs.Places.{named_of, line_after, read_above, table_of};
ghost use Rattle.asm_sweeps.specs.Uses.{place_after, use_after, uses_of, refused};
ghost use Rattle.asm_sweeps.specs.Uses.{least_of, verdict_for};
ghost use Rattle.asm_sweeps.specs.Held.{table_at, Holds, line_at, Apart};

use asm_text::{Name, Names};
use asm_value::{Lack, Value};
use asm_write::{Layout, Next};

// How far a sweep has come: the number of names given, the place and the line's number; and the
// first lines at fault with 18 and with 19.
#[derive(Clone, Copy)]
pub struct Tally {
    pub count: usize,
    pub place: u32,
    pub line: u64,
    pub unknown: Option<u64>,
    pub outside: Option<u64>,
}

// What a call is refused for: memory of another length (1), a line that fits no statement or a
// missing END (17), an unknown name (18), a value outside its range (19), a list too short (22).
#[derive(Clone, Copy)]
pub enum Fault {
    Memory,
    Form,
    Unknown,
    Outside,
    Room,
}

// A refusal: what is at fault, and the line.
#[derive(Clone, Copy)]
pub struct Refusal {
    pub kind: Fault,
    pub line: u64,
}

// 18 or 19 on this line.
#[tactic(auto, unfolding(crate::specs::Places::first_of))]
fn note_lack(e: Lack, t: Tally) -> Tally
    ensures { result ≡ note_lack e t }
{
    match e {
        Lack::Unknown => Tally {
            unknown: t.unknown.or(Some(t.line)),
            ..t
        },
        Lack::Outside => Tally {
            outside: t.outside.or(Some(t.line)),
            ..t
        },
    }
}

// The fault of a value or of a statement's number.
fn note_fault<A: Copy>(r: Result<A, Lack>, t: Tally) -> Tally
    ensures { result ≡ note_fault r t }
{
    match r {
        Ok(_) => t,
        Err(e) => note_lack(e, t),
    }
}

// The place after a statement, or its fault.
fn placed_at(t: Tally, n: Next) -> Tally
    ensures { result ≡ placed_at t n }
{
    match n {
        Ok(place) => Tally { place, ..t },
        Err(e) => note_lack(e, t),
    }
}

// The next line.
fn next_line(t: Tally) -> Tally
    requires { t.line < 18446744073709551615 }
    ensures { result ≡ next_line t }
{
    Tally {
        line: t.line + 1,
        ..t
    }
}

// Whether a statement is END.
pub fn is_stop(l: Layout) -> bool
    ensures { result ≡ stops? l }
{
    matches!(l, Layout::Stop)
}

// The first sweep, with no name known: the first line that fits no statement, or that after the
// last where END is missing.
pub fn form(source: &[u8]) -> Option<u64>
    ensures { result ≡ form_of source.now }
{
    let names = Names { source, list: &[] };
    let mut at = 0;
    let mut number: u64 = 1;
    while at < source.len() {
        let l = text_lines::line_at(source, at);
        let r = asm_line::read_line(&names, &source[at..l.stop]);
        let Some(line) = r else {
            return Some(number);
        };
        if is_stop(asm_write::layout_of(line.statement)) {
            return None;
        }
        at = l.next;
        number += 1;
    }
    Some(number)
}

// A tally after a line, and whether the line is END.
// Kept: both are there after every line, so this is no Option of one.
#[derive(Clone, Copy)]
pub struct Noted {
    pub tally: Tally,
    pub end: bool,
}

// One more name.
fn one_more(t: Tally) -> Tally
    requires { t.count < 1024 }
    ensures { result ≡ one_more t }
{
    Tally {
        count: t.count + 1,
        ..t
    }
}

// A name given at a place of the source: added with its value, unless it is given already or the
// table is full (18).
fn give(source: &[u8], list: &mut [Name], t: Tally, at: usize, v: Value) -> Tally
    requires { Holds source.now list.old t }
    ensures result_after { table_at source.now list.new result
        ≡ named_of (word (drop at source.now)) v
        (table_at source.now list.old t) }
    ensures holds { Holds source.now list.new result }
    ensures line_value { result.line ≡ t.line }
{
    let n = t.count;
    let key = asm_text::read_word(source, at).value.key;
    let names = Names {
        source,
        list: &list[..n],
    };
    let old = asm_text::look_up(&names, source, at, key);
    if old.is_ok() {
        return note_lack(Lack::Unknown, t);
    }
    if 1024 <= n {
        return note_lack(Lack::Unknown, t);
    }
    list[n] = Name {
        place: at,
        key,
        value: v.unwrap_or(0),
    };
    one_more(note_fault(v, t))
}

// The line of the source from `at` to `stop` in the second sweep.
fn name_line(source: &[u8], list: &mut [Name], t: Tally, at: usize, stop: usize) -> Noted
    requires { Holds source.now list.old t × Apart source.now at stop }
    ensures tally_after { table_at source.now list.new result.tally
        ≡ line_after (line_at source.now at stop)
        (read_above (line_at source.now at stop)
        (table_at source.now list.old t))
        (table_at source.now list.old t) }
    ensures end_value { result.end ≡ end? (read_above (line_at source.now at stop)
        (table_at source.now list.old t)) }
    ensures holds { Holds source.now list.new result.tally
        × (result.tally.line ≡ t.line) }
{
    let names = Names {
        source,
        list: &list[..t.count],
    };
    let r = asm_line::read_line(&names, &source[at..stop]);
    let Some(line) = r else {
        return Noted {
            tally: t,
            end: false,
        };
    };
    let l = asm_write::layout_of(line.statement);
    let end = is_stop(l);
    let after = placed_at(t, asm_write::after(t.place, l));
    let Some(name) = line.name else {
        return Noted { tally: after, end };
    };
    let v = asm_write::name_value(t.place, l);
    let given = give(source, list, after, at + name, v);
    Noted { tally: given, end }
}

// The tally before the first line.
const START: Tally = Tally {
    count: 0,
    place: 0,
    line: 1,
    unknown: None,
    outside: None,
};

// The second sweep: names and places.
pub fn collect(source: &[u8], list: &mut [Name]) -> Tally
    requires { length list.old ≡ 1024 }
    ensures result_after { table_at source.now list.new result ≡ table_of source.now }
    ensures holds { Holds source.now list.new result }
{
    let mut at = 0;
    let mut t = START;
    while at < source.len() {
        let l = text_lines::line_at(source, at);
        let stop = l.stop;
        let next = l.next;
        let r = name_line(source, list, t, at, stop);
        if r.end {
            return r.tally;
        }
        t = next_line(r.tally);
        at = next;
    }
    t
}

// The place after a statement; where it is at fault, it stays.
#[tactic(auto, unfolding(crate::specs::Uses::place_after))]
pub fn place_after(p: u32, n: Next) -> u32
    ensures { result ≡ place_after p n }
{
    n.unwrap_or(p)
}

// A line in the third sweep.
fn use_line(names: &Names<'_>, part: &[u8], t: Tally) -> Noted
    ensures tally_value { result.tally ≡ use_after (line_of (values_in names.now) part.now) t }
    ensures end_value { result.end ≡ end? (line_of (values_in names.now) part.now) }
    ensures line_value { result.tally.line ≡ t.line }
{
    let r = asm_line::read_line(names, part);
    let Some(line) = r else {
        return Noted {
            tally: t,
            end: false,
        };
    };
    let l = asm_write::layout_of(line.statement);
    let end = is_stop(l);
    let place = place_after(t.place, asm_write::after(t.place, l));
    let used = note_fault(asm_write::used(t.place, line.statement), t);
    Noted {
        tally: Tally { place, ..used },
        end,
    }
}

// The third sweep: uses.
pub fn uses(names: &Names<'_>) -> Tally
    ensures { result ≡ uses_of (values_in names.now) names.now.source.now }
{
    let source = names.source;
    let mut at = 0;
    let mut t = START;
    while at < source.len() {
        let l = text_lines::line_at(source, at);
        let stop = l.stop;
        let next = l.next;
        let part = &source[at..stop];
        let r = use_line(names, part, t);
        if r.end {
            return r.tally;
        }
        t = next_line(r.tally);
        at = next;
    }
    t
}

// The lesser of two lines at fault.
#[tactic(auto, unfolding(crate::specs::Uses::least_of))]
fn least(a: Option<u64>, b: Option<u64>) -> Option<u64>
    ensures { result ≡ least_of a b }
{
    match (a, b) {
        (Some(x), Some(y)) => Some(x.min(y)),
        _ => a.or(b),
    }
}

// A refusal of a kind, where a line is at fault with it.
fn refused(kind: Fault, line: Option<u64>) -> Result<(), Refusal>
    ensures { result ≡ refused kind line }
{
    match line {
        None => Ok(()),
        Some(line) => Err(Refusal { kind, line }),
    }
}

// The verdict after three sweeps.
#[tactic(auto, unfolding(crate::specs::Uses::verdict_for))]
pub fn decide(form: Option<u64>, t: Tally, u: Tally) -> Result<(), Refusal>
    ensures { result ≡ verdict_for form t u }
{
    refused(Fault::Form, form)?;
    let unknown = least(t.unknown, u.unknown);
    refused(Fault::Unknown, unknown)?;
    refused(Fault::Outside, t.outside.or(u.outside))
}
