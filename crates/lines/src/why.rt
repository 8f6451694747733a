// Why each field of a body has its conversion: a line each, or the line of its refusal.
ghost use Rattle.std.specs.Prelude.{◌≡◌, ℕ, suc, ◌+◌, ◌*◌, ◌<◌, ◌≤◌, length};
ghost use Rattle.objects.specs.Written.{Adds, Fits};
ghost use Rattle.lines.specs.Written.{Room};
ghost use Rattle.lines.specs.Whys.{fields_after, fields_in, why_place, why_places, Lies, Explains};

use crate::{LARGEST_BODY, RECORD_WORDS, text, words};
use answers::Outcome;
use numbering::{Number, RecordKind};
use objects::put_refusal;
use objects::why::put_why;
use strings::{parse_signs, parse_strings};

// The kind of a record that is a field.
const FIELD: u32 = RecordKind::Field as u32;

// A row has so many numbers.
const ROW_NUMBERS: usize = 10;

// How much is written: the used bytes, and of how many fields.
#[derive(Clone, Copy)]
struct Written {
    used: usize,
    fields: usize,
}

// Writes the line of the record at a record place, if it is a field; its row is the next one.
fn write_place(
    out: &mut [u8],
    words: &[u32],
    text: &[u8],
    rows: &[u32],
    i: usize,
    so: Written,
) -> Written
    requires { Lies words.now text.now rows.now i so.fields × (i < 4294967296) × (so.fields < 4294967296) × Fits so.used (why_place words.now text.now rows.now i so.fields) }
    ensures { Adds (why_place words.now text.now rows.now i so.fields) out.old so.used out.new result.used × (result.fields ≡ fields_after words.now i so.fields) }
{
    let at = i * RECORD_WORDS;
    if words[at] != FIELD {
        return so;
    }
    let row = so.fields * ROW_NUMBERS;
    let from = words[at + 1] as usize;
    let to = from + words[at + 2] as usize;
    let lent = so.used.min(out.len());
    let size = put_why(
        &mut out[lent..],
        &text[from..to],
        rows[row + 2],
        rows[row],
        rows[row + 6],
    );
    Written {
        used: so.used + size,
        fields: so.fields + 1,
    }
}

// Writes the lines of the fields among so many records that lie in words.
fn write_whys(out: &mut [u8], words: &[u32], text: &[u8], rows: &[u32], count: usize) -> usize
    requires { ((i : ℕ) → i < count → Lies words.now text.now rows.now i (fields_in words.now i)) × (count < 4294967296) × Fits 0 (why_places words.now text.now rows.now count) }
    ensures { Adds (why_places words.now text.now rows.now count) out.old 0 out.new result }
{
    let mut so = Written { used: 0, fields: 0 };
    for i in 0..count {
        so = write_place(out, words, text, rows, i, so);
    }
    so.used
}

// Reads a body into words, text and rows that have room for it, and writes the lines of its fields.
fn read_whys(
    body: &[u8],
    words: &mut [u32],
    text: &mut [u8],
    rows: &mut [u32],
    out: &mut [u8],
) -> usize
    requires { Room body.now words.old text.old × ((length body.now + 1) * 10 ≤ length rows.old) }
    ensures { Explains body.now out.old out.new result }
{
    let size = body.len() as u32;
    let numbers = [1, 0, 0, size, 0, size + 3];
    match parse_strings(body, &numbers, words, text) {
        Outcome::Refused(r) => put_refusal(out, r.number, r.place, r.a, r.b),
        Outcome::Accepted(x) => {
            parse_signs(body, &numbers, rows);
            let used = x.text as usize;
            write_whys(out, words, &text[..used], rows, x.records as usize)
        }
    }
}

// Numbers for the rows of any body of at most 1,024 bytes.
fn rows() -> [u32; 10250]
    ensures { 10250 ≡ length result }
{
    [0; 10250]
}

// Writes, for each field of a body, why it has its conversion, or the body's refusal, and says how many bytes they are.
pub fn why_lines(body: &[u8], out: &mut [u8]) -> usize
    ensures { Explains body.now out.old out.new result }
{
    if LARGEST_BODY < body.len() {
        return put_refusal(out, Number::BodiesTooLong as u32, 0, 0, 0);
    }
    let mut words = words();
    let mut text = text();
    let mut rows = rows();
    read_whys(body, &mut words, &mut text, &mut rows, out)
}
