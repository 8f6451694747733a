// What is written of a literal's pieces: records, and the counters that stand for both buffers; and the rows of its fields.
#![tactic(auto)]

pub mod again;
pub mod rows;

ghost use Rattle.std.specs.Prelude.{◌≡◌, ◌+◌, nat_eq, if◌then◌else◌};
ghost use Rattle.records.specs.Counts.{word as word_of, plus as plus_of, minus as minus_of};
ghost use Rattle.records.specs.Written.{written, closed, put as put_of, held, literal as literal_of, ended, spec_text, reserved, specified, documented, documented_text, field_put, field};

use again::{frame_again, sink_again};
use buffers::{add_again, add_spaces, put};
use marks::conversion_of;
use record_words::{Record, put_record};
use utf8::Cursor;

// What every top-level record of a call carries: its kind, the call's first start and last end, and its u mark.
#[derive(Clone, Copy)]
pub struct Whole {
    pub kind: u32,
    pub start: u32,
    pub end: u32,
    pub mark: u32,
}

// Which rows of a call are written: those from number `skip` on, each with `within` as its last number.
#[derive(Clone, Copy)]
pub struct Window {
    pub within: u32,
    pub skip: u32,
}

// A literal: its kind and range, where its body begins, which rows are written, and its call's whole.
#[derive(Clone, Copy)]
pub struct Frame {
    pub kind: u32,
    pub start: u32,
    pub end: u32,
    pub base: u32,
    pub window: Window,
    pub whole: Whole,
}

// What is written so far: records, text bytes, 1 if a top-level text is held open and from where, and the parts at this depth.
// `held` and `from` are no Option: a smaller flag was tried, and slower (docs/DECISIONS.md).
#[derive(Clone, Copy)]
pub struct Sink {
    pub count: usize,
    pub used: usize,
    pub held: usize,
    pub from: usize,
    pub parts: usize,
}

// A field's head as read: the cursor after its `}` or `:`, the text's used length, the spaces after a self-documenting `=`, the bytes taken
// just after the first such `=` and after the `!`, 0 where there is none, and the conversion.
// Where there is none, a sign is 0 and no Option, as in the rows that are lent (docs/PROMISES.md, `put_row`).
#[derive(Clone, Copy)]
pub struct Head {
    pub at: Cursor,
    pub used: usize,
    pub spaces: usize,
    pub equals: usize,
    pub bang: usize,
    pub conversion: u32,
    pub blank: bool,
}

// A number as a word.
pub fn word(n: usize) -> u32
    ensures { result ≡ word_of n }
{
    (n % 4294967296) as u32
}

// A place so many bytes behind another, as a word.
pub(crate) fn place_in(base: u32, taken: usize) -> u32
    ensures { result ≡ word_of (base + taken) }
{
    let from = base as usize;
    word(from + taken % 4294967296)
}

// A sum and a difference of counts.
fn plus(a: usize, b: usize) -> usize
    ensures { result ≡ plus_of a b }
{
    a.wrapping_add(b)
}

fn minus(a: usize, b: usize) -> usize
    ensures { result ≡ minus_of a b }
{
    a.wrapping_sub(b)
}

// The held text becomes a record.
pub fn close_held(words: &mut [u32], w: Whole, k: Sink) -> Sink
    ensures { written words.new result ≡ closed w (written words.old k) }
{
    if k.held == 1 {
        let record = Record {
            kind: w.kind,
            offset: word(k.from),
            length: word(minus(k.used, k.from)),
            start: w.start,
            end: w.end,
            conversion: w.mark,
            parts: 0,
            place: 0,
        };
        put_record(words, k.count, record);
        return Sink {
            count: plus(k.count, 1),
            held: 0,
            from: 0,
            ..k
        };
    }
    k
}

// A record that is no top-level literal, of the text from the used length up to `to`; what was held is closed.
fn put_inner(
    words: &mut [u32],
    fr: Frame,
    a: Sink,
    to: usize,
    kind: u32,
    conversion: u32,
    parts: u32,
    place: u32,
) -> Sink
    ensures { written words.new result ≡ put_of fr to kind conversion parts place (written words.old a) }
{
    let record = Record {
        kind,
        offset: word(a.used),
        length: word(minus(to, a.used)),
        start: fr.start,
        end: fr.end,
        conversion,
        parts,
        place,
    };
    put_record(words, a.count, record);
    Sink {
        count: plus(a.count, 1),
        used: to,
        parts: plus(a.parts, 1),
        ..a
    }
}

// Where a top-level text that goes on from the used length begins.
fn held_from(k: Sink) -> usize
    ensures { result ≡ (if nat_eq k.held 1 then k.from else k.used) }
{
    if k.held == 1 { k.from } else { k.used }
}

// The text from the used length up to `to` is held: a literal at depth 0.
fn hold(k: Sink, to: usize) -> Sink
    ensures { result ≡ held to k }
{
    Sink {
        used: to,
        held: 1,
        from: held_from(k),
        parts: plus(k.parts, 1),
        ..k
    }
}

// A literal of the text from the used length up to `to`: at depth 0 it is held, deeper it is a record.
pub fn literal(words: &mut [u32], fr: Frame, k: Sink, to: usize, nested: usize) -> Sink
    ensures { written words.new result ≡ literal_of fr to nested (written words.old k) }
{
    if nested == 0 {
        return hold(k, to);
    }
    let a = close_held(words, fr.whole, k);
    put_inner(words, fr, a, to, 1, 0, 0, 0)
}

// A literal of the text from the used length up to `to`, if there is any.
pub fn end_text(words: &mut [u32], fr: Frame, k: Sink, to: usize, nested: usize) -> Sink
    ensures { written words.new result ≡ ended fr to nested (written words.old k) }
{
    if k.used == to {
        return k;
    }
    if nested == 0 {
        return hold(k, to);
    }
    literal(words, frame_again(fr), sink_again(k), to, nested)
}

// A record of the text from the used length up to `to`, if there is any: a spec's first, before which nothing is held.
pub fn spec_text(words: &mut [u32], fr: Frame, k: Sink, to: usize) -> Sink
    ensures { written words.new result ≡ spec_text fr to (written words.old k) }
{
    if k.used == to {
        return k;
    }
    put_inner(words, fr, k, to, 1, 0, 0, 0)
}

// A field's record, of the text from the used length up to `to`.
fn put_field(
    words: &mut [u32],
    fr: Frame,
    k: Sink,
    to: usize,
    conversion: u32,
    parts: u32,
    at: usize,
) -> Sink
    ensures { written words.new result ≡ field_put fr to conversion parts at (written words.old k) }
{
    let place = place_in(fr.base, at);
    let a = close_held(words, fr.whole, k);
    put_inner(words, fr, a, to, 2, conversion, parts, place)
}

// A record place is kept for a spec, whose parts are counted from none.
pub fn reserve(k: Sink) -> Sink
    ensures { result ≡ reserved k }
{
    Sink {
        count: plus(k.count, 1),
        parts: 0,
        ..k
    }
}

// A spec's record at the place kept for it, once its parts are counted.
pub fn fill_spec(words: &mut [u32], fr: Frame, before: Sink, k: Sink) -> Sink
    ensures { written words.new result ≡ specified fr before (written words.old k) }
{
    let record = Record {
        kind: 3,
        offset: word(before.used),
        length: 0,
        start: fr.start,
        end: fr.end,
        conversion: 0,
        parts: word(k.parts),
        place: 0,
    };
    put_record(words, before.count, record);
    Sink {
        parts: before.parts,
        ..k
    }
}

// If a field documents itself, its literals, with its expression once more behind them.
fn put_documented(
    words: &mut [u32],
    text: &mut [u8],
    fr: Frame,
    k: Sink,
    h: Head,
    nested: usize,
) -> Sink
    ensures { (written words.new result ≡ documented fr h nested (written words.old k)) × (text.new ≡ documented_text h k.used text.old) }
{
    if 0 < h.equals {
        let to = h.used;
        let equal = plus(to, 1);
        let end = plus(equal, h.spaces);
        put(text, to, b'=');
        add_spaces(text, equal, h.spaces);
        add_again(text, end, k.used, to);
        if nested == 0 {
            return hold(hold(k, equal), end);
        }
        let f = frame_again(fr);
        let a = literal(words, f, sink_again(k), equal, nested);
        return literal(words, f, a, end, nested);
    }
    k
}

// A field whose expression stands from the used length up to the head's, with its literals if it documents itself, up to its spec.
pub fn emit_field(
    words: &mut [u32],
    text: &mut [u8],
    fr: Frame,
    k: Sink,
    h: Head,
    parts: u32,
    at: usize,
    nested: usize,
) -> Sink
    ensures { (written words.new result ≡ field fr h parts at nested (written words.old k)) × (text.new ≡ documented_text h k.used text.old) }
{
    let a = put_documented(words, text, fr, k, h, nested);
    let to = plus(a.used, minus(h.used, k.used));
    let conversion = conversion_of(0 < h.equals, h.conversion, parts);
    put_field(words, fr, a, to, conversion, parts, at)
}
