// F-strings: text, fields and specs, which call for one another.
ghost use Rattle.std.specs.Prelude.{◌≡◌, true, false, [], ◌+◌, ◌-◌, ◌*◌, ◌<◌, ◌≤◌, length};
ghost use Rattle.definition.specs.Chars.{part, next};
ghost use Rattle.definition.specs.Body.{calls, text_move, first_end, text_n, field_n, fresh, spec_n, enough};
ghost use Rattle.escapes.specs.Answers.{naming};
ghost use Rattle.buffers.specs.Over.{over};
ghost use Rattle.bodies.specs.Sinks.{is_held, load_of};
ghost use Rattle.bodies.specs.Fstring.{Room, ReadIs, SpecIs, SignedIs, EndsAs};

use buffers::put;
use edges::end_field;
use heads::{Opened, read_head};
use marks::{Refusal, is_brace};
use names::Names;
use records::again::{frame_again, sink_again};
use records::rows::put_signs;
use records::{Frame, Sink, emit_field, end_text, fill_spec, reserve, spec_text};
use texts::{Run, text_run};
use utf8::Cursor;

// A text, field or spec that was read up to a cursor and written, with the count of fields so far; or a refusal.
// An answer of our own, as docs/DECISIONS.md, "Forms", has it.
#[derive(Clone, Copy)]
pub(crate) enum Read {
    Done(Cursor, Sink, usize),
    Refused(Refusal),
}

// A run of bytes that was written, up to a cursor, and the used length.
#[derive(Clone, Copy)]
struct Raw {
    at: Cursor,
    used: usize,
}

// A spec's first piece, as it stands up to the first brace.
fn read_first(s: &[u8], from: Cursor, text: &mut [u8], used: usize) -> Raw
    requires { (from.at ≤ length s.now) × (length s.now ≤ 1048576) × (used < 4294967296) }
    ensures { (result.at.at ≡ first_end s.now from.at) × (result.used + from.at ≡ used + result.at.at) × (text.new ≡ over text.old used (part s.now from.at result.at.at)) }
{
    let mut to = used;
    for i in from.at..s.len() {
        let b = s[i];
        if is_brace(b) {
            return Raw {
                at: Cursor { at: i },
                used: to,
            };
        }
        put(text, to, b);
        to += 1;
    }
    Raw {
        at: Cursor { at: s.len() },
        used: to,
    }
}

// A spec, from after its `:`: its record, its first piece as it stands, and from the first `{` on text one depth further.
#[cycle(parse_formatted_value_parse_fstring_parse_spec)]
fn parse_spec(
    s: &[u8],
    at: Cursor,
    nested: usize,
    fr: Frame,
    words: &mut [u32],
    text: &mut [u8],
    rows: &mut [u32],
    k: Sink,
    fields: usize,
    names: &Names,
) -> Read
    requires room { Room s.now at.at fr k }
    requires nested_bound { (nested ≤ 1) × (is_held k ≡ false) × (load_of k + 8 * (length s.now - at.at) < 16777216) }
    requires fields_le_count { fields ≤ k.count }
    ensures { SpecIs (spec_n (naming names.now) (enough s.now) fr.kind s.now nested at.at) fr nested words.old text.old words.new text.new k result × SignedIs result (spec_n (naming names.now) (enough s.now) fr.kind s.now nested at.at) fr rows.old rows.new fields }
{
    let first = read_first(s, at, text, k.used);
    let end = first.at;
    let a = spec_text(words, fr, reserve(k), first.used);
    if end.peek(s) != '{' as u32 {
        return Read::Done(end, fill_spec(words, fr, k, a), fields);
    }
    match parse_fstring(
        s,
        end,
        nested + 1,
        frame_again(fr),
        words,
        text,
        rows,
        sink_again(a),
        fields,
        names,
        false,
    ) {
        Read::Refused(r) => Read::Refused(r),
        Read::Done(next, b, n) => Read::Done(next, fill_spec(words, fr, k, b), n),
    }
}

// A replacement field, from after its `{` up to its `}`.
#[cycle(parse_formatted_value_parse_fstring_parse_spec)]
fn parse_formatted_value(
    s: &[u8],
    at: Cursor,
    nested: usize,
    fr: Frame,
    words: &mut [u32],
    text: &mut [u8],
    rows: &mut [u32],
    k: Sink,
    fields: usize,
    names: &Names,
) -> Read
    requires room { Room s.now at.at fr k }
    requires nested_bound { nested ≤ 1 }
    requires fields_le_count { fields ≤ k.count }
    ensures { ReadIs (field_n (naming names.now) (enough s.now) fr.kind s.now nested at.at at.at fresh) fr nested words.old text.old words.new text.new k result × SignedIs result (field_n (naming names.now) (enough s.now) fr.kind s.now nested at.at at.at fresh) fr rows.old rows.new fields }
{
    match read_head(s, at, text, k.used as u32) {
        Opened::Refused(r) => Read::Refused(r),
        Opened::Ended(h, parts) => {
            let after = h.at;
            let size = h.used - k.used;
            let a = emit_field(words, text, fr, k, h, parts, at.at, nested);
            if parts == 0 {
                put_signs(rows, fields, fr, h, size, parts, at.at, 0, after.at);
                return Read::Done(after, a, fields + 1);
            }
            match parse_spec(
                s,
                after,
                nested,
                fr,
                words,
                text,
                rows,
                a,
                fields + 1,
                names,
            ) {
                Read::Refused(r) => Read::Refused(r),
                Read::Done(next, b, n) => match end_field(s, next, h.blank) {
                    Err(r) => Read::Refused(r),
                    Ok(close) => {
                        put_signs(rows, fields, fr, h, size, parts, at.at, after.at, close.at);
                        Read::Done(close, b, n)
                    }
                },
            }
        }
    }
}

// F-string text at a depth, up to its end; or `once`, at a `{` that opens a field, that field alone.
#[cycle(parse_formatted_value_parse_fstring_parse_spec)]
pub(crate) fn parse_fstring(
    s: &[u8],
    at: Cursor,
    nested: usize,
    fr: Frame,
    words: &mut [u32],
    text: &mut [u8],
    rows: &mut [u32],
    k: Sink,
    fields: usize,
    names: &Names,
    once: bool,
) -> Read
    requires room { Room s.now at.at fr k }
    requires nested_bound { nested ≤ 2 }
    requires fields_le_count { fields ≤ k.count }
    ensures { (once ≡ false → ReadIs (text_n (naming names.now) (enough s.now) fr.kind s.now nested at.at [] []) fr nested words.old text.old words.new text.new k result × SignedIs result (text_n (naming names.now) (enough s.now) fr.kind s.now nested at.at [] []) fr rows.old rows.new fields) × (once ≡ true → text_move (naming names.now) fr.kind s.now nested at.at [] ≡ calls → EndsAs (field_n (naming names.now) (enough s.now) fr.kind s.now nested (next s.now at.at) (next s.now at.at) fresh) result) }
{
    let mut cursor = at;
    let mut sink = k;
    let mut count = fields;
    // A step is a run of text, and a field behind it.
    loop {
        match text_run(s, cursor, nested, fr.kind, text, sink.used, names) {
            Run::Refused(r) => return Read::Refused(r),
            Run::Over(next, used) => {
                return Read::Done(next, end_text(words, fr, sink, used, nested), count);
            }
            Run::Field(next, used) => {
                let a = end_text(words, fr, sink, used, nested);
                match parse_formatted_value(
                    s, next, nested, fr, words, text, rows, a, count, names,
                ) {
                    Read::Refused(r) => return Read::Refused(r),
                    Read::Done(after, b, n) => {
                        if once {
                            return Read::Done(after, b, n);
                        }
                        cursor = after;
                        sink = b;
                        count = n;
                    }
                }
            }
        }
    }
}
