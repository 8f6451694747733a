// The lines of a body, written: RFC 8259 objects for its records, or for its refusal.
#![tactic(auto)]

pub mod why;

ghost use Rattle.std.specs.Prelude.{◌≡◌, length};
ghost use Rattle.objects.specs.Written.{Adds, Fits};
ghost use Rattle.lines.specs.Written.{place_lines, Lie, Lists, Room};

use answers::Outcome;
use numbering::Number;
use objects::{put_line, put_refusal};
use strings::parse_strings;

// The lines of a body are never longer: 70 bytes for each of 1,025 records, and six for each of 2,048 bytes of text.
pub const LONGEST: usize = 84038;

// A body has at most so many bytes.
pub(crate) const LARGEST_BODY: usize = 1024;

// A record has so many words.
pub(crate) const RECORD_WORDS: usize = 8;

// Writes the lines of so many records that lie in words.
fn write_lines(out: &mut [u8], words: &[u32], text: &[u8], count: usize) -> usize
    requires { Lie words.now text.now count × Fits 0 (place_lines words.now text.now count) }
    ensures { Adds (place_lines words.now text.now count) out.old 0 out.new result }
{
    let mut used = 0;
    for i in 0..count {
        let at = i * RECORD_WORDS;
        let from = words[at + 1] as usize;
        let to = from + words[at + 2] as usize;
        let lent = used.min(out.len());
        used += put_line(
            &mut out[lent..],
            words[at],
            &text[from..to],
            words[at + 5],
            words[at + 6],
            words[at + 7],
        );
    }
    used
}

// Reads a body into words and text that have room for it, and writes its lines.
fn read_lines(body: &[u8], words: &mut [u32], text: &mut [u8], out: &mut [u8]) -> usize
    requires { Room body.now words.old text.old }
    ensures { Lists body.now out.old out.new result }
{
    let size = body.len() as u32;
    let numbers = [1, 0, 0, size, 0, size + 3];
    match parse_strings(body, &numbers, words, text) {
        Outcome::Refused(r) => put_refusal(out, r.number, r.place, r.a, r.b),
        Outcome::Accepted(x) => {
            let used = x.text as usize;
            write_lines(out, words, &text[..used], x.records as usize)
        }
    }
}

// Words for the records of any body of at most 1,024 bytes.
pub(crate) fn words() -> [u32; 8200]
    ensures { 8200 ≡ length result }
{
    [0; 8200]
}

// Bytes for the text of any body of at most 1,024 bytes.
pub(crate) fn text() -> [u8; 2048]
    ensures { 2048 ≡ length result }
{
    [0; 2048]
}

// Writes the lines of a body, and says how many bytes they are.
pub fn body_lines(body: &[u8], out: &mut [u8]) -> usize
    ensures { Lists body.now out.old out.new result }
{
    if LARGEST_BODY < body.len() {
        return put_refusal(out, Number::BodiesTooLong as u32, 0, 0, 0);
    }
    let mut words = words();
    let mut text = text();
    read_lines(body, &mut words, &mut text, out)
}
