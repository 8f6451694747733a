// A line of a body, written: an RFC 8259 object for a record, for a refusal, or for why a field has its conversion.
#![tactic(auto)]

pub mod why;

ghost use Rattle.std.specs.Prelude.{◌≡◌, [], ◌∷◌, ◌++◌, ◌<◌, length};
ghost use Rattle.definition.specs.Chars.{◌is◌};
ghost use Rattle.definition_lines.specs.Lines.{decimal, hex_code, escaped, escaped_text, literal_line, field_line, spec_line, refusal_line, line_of};
ghost use Rattle.objects.specs.Written.{Adds, Fits, of_text, Puts};

// A longer text has no line.
pub(crate) const MOST_TEXT: usize = 0xFFFFFFFF;

// Writes a byte.
fn write_byte(out: &mut [u8], used: usize, byte: u8) -> usize
    requires { Fits used (byte ∷ []) }
    ensures { Adds (byte ∷ []) out.old used out.new result }
{
    buffers::put(out, used, byte);
    used + 1
}

// Writes a run of bytes.
pub(crate) fn write_run(out: &mut [u8], used: usize, run: &[u8]) -> usize
    requires { Fits used run.now }
    ensures { Adds run.now out.old used out.new result }
{
    buffers::add_run(out, used, run);
    used + run.len()
}

// Writes a number in decimal.
fn write_number(out: &mut [u8], used: usize, n: u32) -> usize
    requires { Fits used (decimal n) }
    ensures { Adds (decimal n) out.old used out.new result }
{
    if n < 10 {
        return write_byte(out, used, b'0' + n as u8);
    }
    let last = write_number(out, used, n / 10);
    write_byte(out, last, b'0' + (n % 10) as u8)
}

// Writes a run of bytes, and a number after it.
pub(crate) fn write_numbered(out: &mut [u8], used: usize, run: &[u8], n: u32) -> usize
    requires { Fits used (run.now ++ decimal n) }
    ensures { Adds (run.now ++ decimal n) out.old used out.new result }
{
    let to = write_run(out, used, run);
    write_number(out, to, n)
}

// The code of a hex digit.
fn hex_code(digit: u8) -> u8
    requires { digit < 16 }
    ensures { result ≡ hex_code digit }
{
    match digit {
        0..=9 => b'0' + digit,
        _ => b'a' - 10 + digit,
    }
}

// Whether a byte of text gets a backslash.
fn is_marked(byte: u8) -> bool
    ensures { result ≡ (byte is "\"\\") }
{
    matches!(byte, b'"' | b'\\')
}

// Writes a byte of text, escaped.
fn write_escaped(out: &mut [u8], used: usize, byte: u8) -> usize
    requires { Fits used (escaped byte) }
    ensures { Adds (escaped byte) out.old used out.new result }
{
    if is_marked(byte) {
        let marked = write_byte(out, used, b'\\');
        write_byte(out, marked, byte)
    } else if byte < b' ' {
        let high = write_run(out, used, b"\\u00");
        let low = write_byte(out, high, hex_code(byte / 16));
        write_byte(out, low, hex_code(byte % 16))
    } else {
        write_byte(out, used, byte)
    }
}

// Writes a text, escaped.
pub(crate) fn write_text(out: &mut [u8], used: usize, text: &[u8]) -> usize
    requires { Fits used (escaped_text text.now) }
    ensures { Adds (escaped_text text.now) out.old used out.new result }
{
    let mut to = used;
    for &byte in text {
        to = write_escaped(out, to, byte);
    }
    to
}

// Writes a literal's line.
fn write_literal(out: &mut [u8], used: usize, text: &[u8]) -> usize
    requires { Fits used (literal_line text.now) }
    ensures { Adds (literal_line text.now) out.old used out.new result }
{
    let from = write_run(out, used, b"{\"kind\":\"literal\",\"text\":\"");
    let to = write_text(out, from, text);
    write_run(out, to, b"\"}\n")
}

// Writes a field's line.
fn write_field(out: &mut [u8], used: usize, text: &[u8], conversion: u32, place: u32) -> usize
    requires { Fits used (field_line text.now conversion place) }
    ensures { Adds (field_line text.now conversion place) out.old used out.new result }
{
    let from = write_run(out, used, b"{\"kind\":\"field\",\"text\":\"");
    let to = write_text(out, from, text);
    let converted = write_numbered(out, to, b"\",\"conversion\":", conversion);
    let placed = write_numbered(out, converted, b",\"at\":", place);
    write_run(out, placed, b"}\n")
}

// Writes a spec's line.
fn write_spec(out: &mut [u8], used: usize, parts: u32) -> usize
    requires { Fits used (spec_line parts) }
    ensures { Adds (spec_line parts) out.old used out.new result }
{
    let counted = write_numbered(out, used, b"{\"kind\":\"spec\",\"parts\":", parts);
    write_run(out, counted, b"}\n")
}

// Writes a refusal's line.
fn write_refusal(out: &mut [u8], used: usize, number: u32, place: u32, a: u32, b: u32) -> usize
    requires { Fits used (refusal_line number place a b) }
    ensures { Adds (refusal_line number place a b) out.old used out.new result }
{
    let named = write_numbered(out, used, b"{\"refusal\":", number);
    let placed = write_numbered(out, named, b",\"at\":", place);
    let first = write_numbered(out, placed, b",\"a\":", a);
    let second = write_numbered(out, first, b",\"b\":", b);
    write_run(out, second, b"}\n")
}

// Writes the line of a record of a kind.
fn write_line(
    out: &mut [u8],
    used: usize,
    kind: u32,
    text: &[u8],
    mode: u32,
    parts: u32,
    place: u32,
) -> usize
    requires { Fits used (line_of kind text.now mode parts place) }
    ensures { Adds (line_of kind text.now mode parts place) out.old used out.new result }
{
    match kind {
        2 => write_field(out, used, text, mode, place),
        3 => write_spec(out, used, parts),
        _ => write_literal(out, used, text),
    }
}

// Writes the line of a record of a kind from the front on, and says how many bytes it has; nothing for a text of more than 4,294,967,295 bytes.
// The kind stays a number: put_line promises a line for every number.
pub fn put_line(out: &mut [u8], kind: u32, text: &[u8], mode: u32, parts: u32, place: u32) -> usize
    ensures { Puts (of_text text.now (line_of kind text.now mode parts place)) out.old out.new result }
{
    if MOST_TEXT < text.len() {
        return 0;
    }
    write_line(out, 0, kind, text, mode, parts, place)
}

// Writes a refusal's line from the front on, and says how many bytes it has.
pub fn put_refusal(out: &mut [u8], number: u32, place: u32, a: u32, b: u32) -> usize
    ensures { Puts (refusal_line number place a b) out.old out.new result }
{
    write_refusal(out, 0, number, place, a, b)
}
