// Bodies of literals read to records, one text and rows: the first refusal, or all in order.
#![tactic(auto)]

mod fstring;

ghost use Rattle.std.specs.Prelude.{◌≡◌, [], ◌<◌, ◌≤◌, length, Err};
ghost use Rattle.std.proofs.Math.Option.{none};
ghost use Rattle.definition.specs.Escapes.{held_names};
ghost use Rattle.definition.specs.Entry.{body, not_mixed};
ghost use Rattle.definition.specs.Body.{read_body};
ghost use Rattle.definition.specs.Reading.{all_chars, zeros};
ghost use Rattle.escapes.specs.Answers.{naming};
ghost use Rattle.entry.specs.Answers.{described, six, refusal_of};
ghost use Rattle.entry.specs.Literals.{literals};
ghost use Rattle.entry.proofs.Passed.{Passed};
ghost use Rattle.marks.specs.Marks.{fault_of};
ghost use Rattle.bodies.specs.Sinks.{whole_of, Fits};
ghost use Rattle.bodies.specs.Fstring.{Room as BodyRoom, ReadIs, SignedIs};
ghost use Rattle.bodies.specs.Lists.{whole_for, no_rows, Room, Stands, First, refused_at, frame_of, ListIs, RowsAre, ClosedAs, ReadingIs};
ghost use Rattle.bodies.specs.FieldEnds.{EndIs};
ghost use Rattle.edges.specs.Edges.{Opens};
ghost use Rattle.wholes.specs.Wholes.{nothing};

use edges::opens_field;
use entry::{Class, Descriptor};
use fstring::{Read, parse_fstring};
use marks::Refusal;
use names::{HELD, Names};
use records::again::frame_again;
use records::{Frame, Sink, Whole, Window, close_held, literal};
use texts::{NoEnd, Text, parse_alone, parse_string};
use utf8::Cursor;
use wholes::{refused_in, text_alone, whole_between};

// A list that was checked, read and written: what its top-level records carry, and how many records, text bytes, fields and characters it has.
#[derive(Clone, Copy)]
pub struct Written {
    pub kind: u32,
    pub mark: u32,
    pub start: u32,
    pub end: u32,
    pub records: u32,
    pub text: u32,
    pub fields: u32,
    pub chars: u32,
}

// A list that was read and written, with the count of its fields.
#[derive(Clone, Copy)]
pub(crate) struct Listed {
    sink: Sink,
    fields: usize,
}

// The counters before anything is written.
const NOTHING: Sink = Sink {
    count: 0,
    used: 0,
    held: 0,
    from: 0,
    parts: 0,
};

const LARGEST_BODY: usize = 1048576;

// A literal's body, read and written.
fn read_body(
    s: &[u8],
    fr: Frame,
    words: &mut [u32],
    text: &mut [u8],
    rows: &mut [u32],
    k: Sink,
    fields: usize,
    names: &Names,
) -> Read
    requires body_room { BodyRoom s.now 0 fr k }
    requires fields_le_count { fields ≤ k.count }
    ensures { ReadIs (read_body (naming names.now) fr.kind s.now) fr 0 words.old text.old words.new text.new k result × SignedIs result (read_body (naming names.now) fr.kind s.now) fr rows.old rows.new fields }
{
    if entry::is_of(Class::FStrings, fr.kind) {
        return parse_fstring(
            s,
            Cursor { at: 0 },
            0,
            fr,
            words,
            text,
            rows,
            k,
            fields,
            names,
            false,
        );
    }
    match parse_string(s, fr.kind, text, k.used, names) {
        Text::Refused(r) => Read::Refused(r),
        Text::Done(used) => {
            Read::Done(
                Cursor { at: s.len() },
                literal(words, fr, k, used, 0),
                fields,
            )
        }
    }
}

// A literal of the script, read and written.
fn read_literal(
    script: &[u8],
    l: Descriptor,
    whole: Whole,
    words: &mut [u32],
    text: &mut [u8],
    rows: &mut [u32],
    k: Sink,
    fields: usize,
    window: Window,
    names: &Names,
) -> Read
    requires room { Room script.now l k }
    requires fields_le_count { fields ≤ k.count }
    ensures { ReadIs (read_body (naming names.now) l.kind (body script.now (described l))) (frame_of l whole window) 0 words.old text.old words.new text.new k result × SignedIs result (read_body (naming names.now) l.kind (body script.now (described l))) (frame_of l whole window) rows.old rows.new fields }
{
    let from = l.offset as usize;
    let to = from + l.size as usize;
    let base = l.start + entry::opening(l);
    let fr = Frame {
        kind: l.kind,
        start: l.start,
        end: l.end,
        base,
        whole,
        window,
    };
    read_body(&script[from..to], fr, words, text, rows, k, fields, names)
}

// How many characters the first literals have, which passed the checks.
fn chars_before(script: &[u8], numbers: &[u32], count: u32) -> u32
    requires { First script.now numbers.now count }
    ensures { result ≡ all_chars script.now (literals numbers.now 0 count) }
{
    let mut chars: u32 = 0;
    for i in 0..count {
        let l = entry::literal_at(numbers, i);
        let from = l.offset as usize;
        let to = from + l.size as usize;
        chars += counts::heads(&script[from..to]) as u32;
    }
    chars
}

// The refusal of a body, number i of the list: its place, line and column, the place of its bracket, and the characters before.
fn refusal_in(script: &[u8], numbers: &[u32], i: u32, l: Descriptor, x: Refusal) -> entry::Refusal
    requires { Stands script.now l x.taken x.opened × First script.now numbers.now i }
    ensures { refusal_of result ≡ refused_at script.now numbers.now i (described l) (fault_of x) }
{
    let from = l.offset as usize;
    let to = from + l.size as usize;
    let k = counts::count_before(&script[from..to], x.taken);
    refused_in(l, i, x, k, chars_before(script, numbers, i))
}

// All literals in order, read and written: the first refusal ends it.
fn read_list(
    script: &[u8],
    numbers: &[u32],
    count: u32,
    whole: Whole,
    words: &mut [u32],
    text: &mut [u8],
    rows: &mut [u32],
    window: Window,
    names: &Names,
) -> Result<Listed, entry::Refusal>
    requires { Passed script.now numbers.now count }
    ensures { ListIs (naming names.now) script.now (literals numbers.now 0 count) (whole_of whole) words.old text.old words.new text.new result × RowsAre (naming names.now) window script.now (literals numbers.now 0 count) rows.old rows.new result }
{
    let mut sink = NOTHING;
    let mut fields = 0;
    for i in 0..count {
        let l = entry::literal_at(numbers, i);
        match read_literal(
            script, l, whole, words, text, rows, sink, fields, window, names,
        ) {
            Read::Refused(x) => {
                return Err(refusal_in(script, numbers, i, l, x));
            }
            Read::Done(_, next, n) => {
                sink = next;
                fields = n;
            }
        }
    }
    Ok(Listed { sink, fields })
}

// What every top-level record of the literals carries.
fn whole_of(numbers: &[u32], count: u32) -> Whole
    requires { (0 < count) × (not_mixed (literals numbers.now 0 count) ≡ none) }
    ensures { whole_of result ≡ whole_for (literals numbers.now 0 count) }
{
    let first = entry::literal_at(numbers, 0);
    let last = entry::literal_at(numbers, count - 1);
    whole_between(first, last)
}

// A refusal: all three buffers are filled with zeros.
fn refuse(
    words: &mut [u32],
    text: &mut [u8],
    rows: &mut [u32],
    r: entry::Refusal,
) -> Result<Written, entry::Refusal>
    ensures { (result ≡ Err r) × (words.new ≡ zeros words.old) × (text.new ≡ zeros text.old) × (rows.new ≡ zeros rows.old) }
{
    buffers::fill(words, 0);
    buffers::fill(text, 0);
    buffers::fill(rows, 0);
    Err(r)
}

// What was written of a list, once its held text is closed.
fn written_of(words: &mut [u32], whole: Whole, sink: Sink, fields: usize, chars: u32) -> Written
    requires { Fits sink × (fields ≤ sink.count) }
    ensures { ClosedAs whole sink fields chars words.old words.new result }
{
    let k = close_held(words, whole, sink);
    Written {
        kind: whole.kind,
        mark: whole.mark,
        start: whole.start,
        end: whole.end,
        records: k.count as u32,
        text: k.used as u32,
        fields: fields as u32,
        chars,
    }
}

// Reads the literals whose numbers are listed, six for each, with the names of a lent file, or where that is empty the held ones: their records, their text, and the
// rows of their fields from number `skip` on, each with `within` as its last number, are written as far as there is room.
pub fn read_all(
    script: &[u8],
    numbers: &[u32],
    within: u32,
    skip: u32,
    words: &mut [u32],
    text: &mut [u8],
    rows: &mut [u32],
    names: &Names,
) -> Result<Written, entry::Refusal>
    ensures { ReadingIs (naming names.now) within skip script.now numbers.now words.old text.old rows.old words.new text.new rows.new result }
{
    match checks::check(script, numbers) {
        Err(r) => refuse(words, text, rows, r),
        Ok(chars) => {
            let count = (numbers.len() / 6) as u32;
            let whole = whole_of(numbers, count);
            let window = Window { within, skip };
            match read_list(
                script, numbers, count, whole, words, text, rows, window, names,
            ) {
                Err(r) => refuse(words, text, rows, r),
                Ok(done) => Ok(written_of(words, whole, done.sink, done.fields, chars)),
            }
        }
    }
}

// A body that is read alone: into buffers that hold nothing yet, with the held names and no rows.
// Apart from `read_body`, which was slower for it, as `parse_alone` is.
fn body_alone(s: &[u8], fr: Frame, words: &mut [u32], text: &mut [u8]) -> Read
    requires { BodyRoom s.now 0 fr nothing }
    ensures { ReadIs (read_body held_names fr.kind s.now) fr 0 words.old text.old words.new text.new nothing result × SignedIs result (read_body held_names fr.kind s.now) fr [] [] 0 }
{
    if entry::is_of(Class::FStrings, fr.kind) {
        let mut rows = [0u32; 0];
        return parse_fstring(
            s,
            Cursor { at: 0 },
            0,
            frame_again(fr),
            words,
            text,
            &mut rows,
            NOTHING,
            0,
            &HELD,
            false,
        );
    }
    match parse_alone(s, fr.kind, text) {
        Text::Refused(r) => Read::Refused(r),
        Text::Done(used) => { Read::Done(Cursor { at: s.len() }, text_alone(used), 0) }
    }
}

// A literal that is read alone.
// Apart from `read_literal`, which was slower for it, as `parse_alone` is.
fn literal_alone(
    script: &[u8],
    l: Descriptor,
    whole: Whole,
    words: &mut [u32],
    text: &mut [u8],
) -> Read
    requires { Room script.now l nothing }
    ensures { ReadIs (read_body held_names l.kind (body script.now (described l))) (frame_of l whole no_rows) 0 words.old text.old words.new text.new nothing result × SignedIs result (read_body held_names l.kind (body script.now (described l))) (frame_of l whole no_rows) [] [] 0 }
{
    let from = l.offset as usize;
    let to = from + l.size as usize;
    let base = l.start + entry::opening(l);
    let window = Window { within: 0, skip: 0 };
    let fr = Frame {
        kind: l.kind,
        start: l.start,
        end: l.end,
        base,
        whole,
        window,
    };
    body_alone(&script[from..to], fr, words, text)
}

// Reads one literal with the held names, as a list of its own: its records and its text are written as far as there is room.
// Apart from `read_all`, which was slower for it, as `parse_alone` is.
pub fn read_one(
    script: &[u8],
    l: Descriptor,
    words: &mut [u32],
    text: &mut [u8],
) -> Result<Written, entry::Refusal>
    ensures { ReadingIs held_names 0 0 script.now (six l) words.old text.old [] words.new text.new [] result }
{
    let none = [0u32; 0];
    let mut rows = [0u32; 0];
    match checks::check_one(script, l) {
        Err(r) => refuse(words, text, &mut rows, r),
        Ok(chars) => {
            let whole = whole_between(l, l);
            match literal_alone(script, l, whole, words, text) {
                Read::Refused(x) => {
                    refuse(words, text, &mut rows, refusal_in(script, &none, 0, l, x))
                }
                Read::Done(_, sink, fields) => { Ok(written_of(words, whole, sink, fields, chars)) }
            }
        }
    }
}

// Where a field ends that opens at a place.
fn read_field(s: &[u8], at: Cursor) -> Result<usize, NoEnd>
    requires { (length s.now ≤ 1048576) × (at.at < length s.now) × Opens s.now at.at }
    ensures { EndIs s.now at.at result }
{
    let whole = Whole {
        kind: 1,
        start: 0,
        end: 0,
        mark: 0,
    };
    let window = Window { within: 0, skip: 0 };
    let fr = Frame {
        kind: 1,
        start: 0,
        end: 0,
        base: 0,
        window,
        whole,
    };
    let mut words = [0u32; 0];
    let mut text = [0u8; 0];
    let mut rows = [0u32; 0];
    match parse_fstring(
        s, at, 0, fr, &mut words, &mut text, &mut rows, NOTHING, 0, &HELD, true,
    ) {
        Read::Refused(_) => Err(NoEnd::Refused),
        Read::Done(after, _, _) => Ok(after.at),
    }
}

// Where the field ends that a `{` at a place opens, at depth 0 of a body of kind 1, with the held names. Nothing of it is kept.
pub fn field_end(s: &[u8], at: usize) -> Result<usize, NoEnd>
    ensures { EndIs s.now at result }
{
    if LARGEST_BODY < s.len() {
        return Err(NoEnd::TooLong);
    }
    let from = Cursor { at };
    if opens_field(s, from) {
        return read_field(s, from);
    }
    Err(NoEnd::Nowhere)
}
