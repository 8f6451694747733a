// The text of a body: strings, bytes, and what stands between an f-string's fields.
#![tactic(auto)]

ghost use Rattle.std.specs.Prelude.{◌≡◌, ◌&&◌, not, [], ℕ, ◌+◌, ◌≤◌, ◌<◌, ◌^◌, length, IfSome, MatchOption};
ghost use Rattle.definition.specs.Numbers.{is_raw};
ghost use Rattle.definition.specs.Chars.{◌is◌, part, code};
ghost use Rattle.definition.specs.Escapes.{Naming, held_names, fault, got, stands, octal_digit, simple, hex, scalar, encode, escape};
ghost use Rattle.definition.specs.Body.{goes, with_escape, string_move, string_n, text_move, enough};
ghost use Rattle.escapes.specs.Answers.{naming};
ghost use Rattle.marks.specs.Marks.{refusal};
ghost use Rattle.buffers.specs.Over.{over};
ghost use Rattle.texts.specs.Codes.{Asks, HexIs, OctalIs, CodedIs};
ghost use Rattle.texts.specs.EscapeEnds.{EscapeIs};
ghost use Rattle.texts.specs.Text.{Room, Taken, PlainIs, Does, StringBy, Begun, FromIs, StringIs, RunBy, RunIs};

use escapes::{Escaped, is_any_bytes};
use marks::{Refusal, Unclosed, is_escape, is_foreign, refused_at, unclosed_brace};
use names::{HELD, Names};
use numbering::Number;
use plain::{is_plain_at, plain_end};
use utf8::{Cursor, Step};

const LARGEST_BODY: usize = 1048576;

const LARGEST_TEXT: usize = 4294967296;

const LEFT_BRACE: u32 = '{' as u32;

const RIGHT_BRACE: u32 = '}' as u32;

// A string's or bytes' used length, or why it is refused.
// An answer of our own, as docs/DECISIONS.md, "Forms", has it.
#[derive(Clone, Copy)]
pub enum Text {
    Done(usize),
    Refused(Refusal),
}

// What stops a run of text, with the used length: a field, with the cursor after its `{`; the text's end, with the cursor there. Or why it is refused.
// An answer of our own, as docs/DECISIONS.md, "Forms", has it.
#[derive(Clone, Copy)]
pub enum Run {
    Field(Cursor, usize),
    Over(Cursor, usize),
    Refused(Refusal),
}

// Why no end is told: what begins there is refused; nothing begins there; or the body is over the size limit.
#[derive(Clone, Copy, PartialEq, Eq)]
pub enum NoEnd {
    Refused,
    Nowhere,
    TooLong,
}

// What a character does: it goes into the text, with the cursor after it and the used length; it opens a field, with the cursor after it; it ends the text. Or it is refused.
// An answer of our own, as docs/DECISIONS.md, "Forms", has it.
#[derive(Clone, Copy)]
enum Piece {
    On(Cursor, usize),
    Field(Cursor),
    Over,
    Refused(Refusal),
}

// What an escape of a string stands for, and the index after it.
#[derive(Clone, Copy)]
struct Coded {
    code: u32,
    to: usize,
}

// A place in a body, and the used length of the text up to it.
#[derive(Clone, Copy)]
struct Reached {
    cursor: Cursor,
    used: usize,
}

// Writes the bytes of a body from `from` up to `to` at the used length, and gives the new one.
fn add_part(s: &[u8], from: usize, to: usize, text: &mut [u8], used: usize) -> usize
    requires { (from ≤ to) × (to ≤ length s.now) × Room s.now used }
    ensures { (result ≡ used + length (part s.now from to)) × (text.new ≡ over text.old used (part s.now from to)) }
{
    buffers::add_run(text, used, &s[from..to]);
    used + (to - from)
}

// The bytes of a body from a cursor up to another go into the text, and reading goes on at `next`.
fn take(s: &[u8], from: Cursor, to: Cursor, next: Cursor, text: &mut [u8], used: usize) -> Piece
    requires { (from.at ≤ to.at) × (to.at ≤ length s.now) × Room s.now used }
    ensures { Does (goes next.at (part s.now from.at to.at)) s.now from.at used text.old text.new result }
{
    let length = add_part(s, from.at, to.at, text, used);
    Piece::On(next, length)
}

// Writes the text of a code at the used length, and gives the new one; in bytes, its low eight bits.
fn add_code(text: &mut [u8], used: usize, code: u32, kind: u32) -> usize
    requires { used ≤ 2 ^ 33 }
    ensures { (result ≡ used + length (encode kind code)) × (text.new ≡ over text.old used (encode kind code)) }
{
    if is_any_bytes(kind) {
        buffers::put(text, used, (code % 256) as u8);
        return used + 1;
    }
    let n = codes::add_char(text, used, code);
    used + n
}

// The escape of the backslash at `from`, which was just taken.
fn escape_text(
    s: &[u8],
    from: Cursor,
    after: Cursor,
    kind: u32,
    text: &mut [u8],
    used: usize,
    names: &Names,
) -> Piece
    requires { Taken s.now from.at after.at × Room s.now used }
    ensures { Does (with_escape kind s.now from.at [] (escape (naming names.now) kind s.now after.at)) s.now from.at used text.old text.new result }
{
    let escaped = escapes::parse_escaped_char(s, after, kind, names);
    match escaped {
        Escaped::Code(code, to) => {
            let length = add_code(text, used, code, kind);
            Piece::On(to, length)
        }
        Escaped::Kept(to) => take(s, from, to, to, text, used),
        Escaped::Gone(to) => Piece::On(to, used),
        Escaped::Refused(r) => Piece::Refused(refused_at(r.number, r.at)),
    }
}

// The character of a string or bytes at a cursor.
fn string_piece(
    s: &[u8],
    from: Cursor,
    kind: u32,
    text: &mut [u8],
    used: usize,
    names: &Names,
) -> Piece
    requires { Room s.now used }
    ensures { Does (string_move (naming names.now) kind s.now from.at []) s.now from.at used text.old text.new result }
{
    let Step::Char(c, after) = from.next_char(s) else {
        return Piece::Over;
    };
    if is_escape(c, kind) {
        return escape_text(s, from, after, kind, text, used, names);
    }
    if is_foreign(c, kind) {
        return Piece::Refused(refused_at(Number::NonAsciiInBytes as u32, after.at));
    }
    take(s, from, after, after, text, used)
}

// At a `{`: doubled it is one, at depth 0; as the last character it is refused there; else a field opens.
fn left_brace(
    s: &[u8],
    from: Cursor,
    after: Cursor,
    nested: usize,
    text: &mut [u8],
    used: usize,
) -> Piece
    requires { Taken s.now from.at after.at × (code s.now from.at ≡ 123) × (nested < 2) × Room s.now used }
    ensures { (look : Naming) (kind : ℕ) → Does (text_move look kind s.now nested from.at []) s.now from.at used text.old text.new result }
{
    if nested != 0 {
        return Piece::Field(after);
    }
    let Step::Char(c, past) = after.next_char(s) else {
        return Piece::Refused(unclosed_brace(Unclosed::LastBrace, after.at));
    };
    if c != LEFT_BRACE {
        return Piece::Field(after);
    }
    take(s, from, after, past, text, used)
}

// At a `}`: it ends the text at depth 1; doubled it is one; else it is refused.
fn right_brace(
    s: &[u8],
    from: Cursor,
    after: Cursor,
    nested: usize,
    text: &mut [u8],
    used: usize,
) -> Piece
    requires { Taken s.now from.at after.at × (code s.now from.at ≡ 125) × (nested < 2) × Room s.now used }
    ensures { (look : Naming) (kind : ℕ) → Does (text_move look kind s.now nested from.at []) s.now from.at used text.old text.new result }
{
    if nested != 0 {
        return Piece::Over;
    }
    let Step::Char(c, past) = after.next_char(s) else {
        return Piece::Refused(refused_at(Number::SingleRbrace as u32, after.at));
    };
    if c != RIGHT_BRACE {
        return Piece::Refused(refused_at(Number::SingleRbrace as u32, after.at));
    }
    take(s, from, after, past, text, used)
}

// Whether a character of f-string text begins an escape: a backslash does, but not in a raw one, nor before a brace.
fn begins_escape(s: &[u8], c: u32, after: Cursor, kind: u32) -> bool
    ensures { result ≡ (c is "\\" && not (is_raw kind) && not (code s.now after.at is "{}")) }
{
    is_escape(c, kind) && !matches!(after.peek(s), LEFT_BRACE | RIGHT_BRACE)
}

// The character of f-string text at a cursor.
fn text_piece(
    s: &[u8],
    from: Cursor,
    nested: usize,
    kind: u32,
    text: &mut [u8],
    used: usize,
    names: &Names,
) -> Piece
    requires { (nested < 2) × Room s.now used }
    ensures { Does (text_move (naming names.now) kind s.now nested from.at []) s.now from.at used text.old text.new result }
{
    let Step::Char(c, after) = from.next_char(s) else {
        return Piece::Over;
    };
    if c == LEFT_BRACE {
        return left_brace(s, from, after, nested, text, used);
    }
    if c == RIGHT_BRACE {
        return right_brace(s, from, after, nested, text, used);
    }
    if begins_escape(s, c, after, kind) {
        return escape_text(s, from, after, kind, text, used, names);
    }
    take(s, from, after, after, text, used)
}

// The plain bytes from a cursor on go into the text, as one run.
fn plain_text(s: &[u8], from: Cursor, kind: u32, text: &mut [u8], used: usize) -> Reached
    requires { (from.at ≤ length s.now) × Room s.now used }
    ensures { PlainIs kind s.now from.at used text.old text.new result }
{
    let at = plain_end(s, from.at, kind);
    let length = add_part(s, from.at, at, text, used);
    Reached {
        cursor: Cursor { at },
        used: length,
    }
}

// The code of a letter's escape, if it has one.
fn letter_code(b: u8) -> Option<u32>
    ensures { IfSome result (λ code. (kind : ℕ) → Asks kind b (simple code)) }
{
    match b {
        b'\\' => Some('\\' as u32),
        b'\'' => Some('\'' as u32),
        b'"' => Some('"' as u32),
        b'a' => Some(7),
        b'b' => Some(8),
        b'f' => Some(12),
        b'n' => Some('\n' as u32),
        b'r' => Some('\r' as u32),
        b't' => Some('\t' as u32),
        b'v' => Some(11),
        _ => None,
    }
}

// How many hex digits follow the letter of an escape, `x` or `u`.
fn digits_of(b: u8, kind: u32) -> Option<usize>
    ensures { IfSome result (λ n. (n ≤ 4) × Asks kind b (hex n)) }
{
    match b {
        b'x' => Some(2),
        b'u' if !is_any_bytes(kind) => Some(4),
        _ => None,
    }
}

// The code that at most four hex digits give: a surrogate is U+FFFD.
#[tactic(auto, unfolding(definition::specs::Escapes::scalar))]
fn scalar_of(v: u32) -> u32
    requires { v < 65536 }
    ensures { (i letter : ℕ) → scalar v i letter ≡ got (stands result) i }
{
    match v {
        0xD800..=0xDFFF => 0xFFFD,
        _ => v,
    }
}

// The code of so many hex digits from an index on, if they stand there.
fn hex_code(s: &[u8], from: usize, digits: usize) -> Option<u32>
    requires { (from ≤ length s.now) × (digits ≤ 4) }
    ensures { IfSome result (λ code. HexIs digits s.now from code) }
{
    if s.len() - from < digits {
        return None;
    }
    let to = from + digits;
    let mut p: u32 = 0;
    for i in from..to {
        let d = names::hex_digit(u32::from(s[i]))?;
        p = p * 16 + d;
    }
    Some(scalar_of(p))
}

// The value of the octal digit at an index, if there is one.
fn octal_at(s: &[u8], at: usize) -> Option<u32>
    ensures { MatchOption result (octal_digit (code s.now at) ≡ 8) (λ d. (d ≡ octal_digit (code s.now at)) × (d < 8)) }
{
    if s.len() <= at {
        return None;
    }
    let b = s[at];
    if b < b'0' || b'7' < b {
        return None;
    }
    Some(u32::from(b - b'0'))
}

// The escape of one to three octal digits after the backslash at an index, if there is one.
fn octal_code(s: &[u8], at: usize) -> Option<Coded>
    requires { (at ≤ length s.now) × (length s.now ≤ 1048576) }
    ensures { IfSome result (λ x. OctalIs s.now at x.code x.to) }
{
    let first = at + 1;
    let a = octal_at(s, first)?;
    let second = first + 1;
    let Some(b) = octal_at(s, second) else {
        return Some(Coded {
            code: a,
            to: second,
        });
    };
    let third = second + 1;
    let Some(c) = octal_at(s, third) else {
        return Some(Coded {
            code: a * 8 + b,
            to: third,
        });
    };
    Some(Coded {
        code: (a * 8 + b) * 8 + c,
        to: third + 1,
    })
}

// The escape of a letter or of digits at an index of a string, if there is one.
fn coded_at(s: &[u8], at: usize, kind: u32) -> Option<Coded>
    requires { (at ≤ length s.now) × (length s.now ≤ 1048576) }
    ensures { IfSome result (λ x. CodedIs kind s.now at x.code x.to) }
{
    let past = at + 1;
    if s.len() <= past {
        return None;
    }
    if !is_escape(u32::from(s[at]), kind) {
        return None;
    }
    let b = s[past];
    if 0x80 <= b {
        return None;
    }
    let to = past + 1;
    if let Some(code) = letter_code(b) {
        return Some(Coded { code, to });
    }
    let Some(digits) = digits_of(b, kind) else {
        return octal_code(s, at);
    };
    let code = hex_code(s, to, digits)?;
    Some(Coded {
        code,
        to: to + digits,
    })
}

// The text of a string or bytes from a cursor on, which was begun, at the used length.
fn string_from(
    s: &[u8],
    from: Cursor,
    kind: u32,
    text: &mut [u8],
    used: usize,
    names: &Names,
) -> Text
    requires { (length s.now ≤ 1048576) × Begun (naming names.now) kind s.now text.old from.at used }
    ensures { FromIs (naming names.now) kind s.now from.at used text.old text.new result }
{
    let mut cursor = from;
    let mut end = used;
    // A step is a run of plain bytes, an escape or a character.
    loop {
        if is_plain_at(s, cursor.at, kind) {
            let run = plain_text(s, cursor, kind, text, end);
            cursor = run.cursor;
            end = run.used;
            continue;
        }
        if let Some(escaped) = coded_at(s, cursor.at, kind) {
            end = add_code(text, end, escaped.code, kind);
            cursor = Cursor { at: escaped.to };
            continue;
        }
        let piece = string_piece(s, cursor, kind, text, end, names);
        match piece {
            Piece::On(after, length) => {
                cursor = after;
                end = length;
            }
            Piece::Refused(r) => return Text::Refused(r),
            Piece::Field(_) | Piece::Over => return Text::Done(end),
        }
    }
}

// The text of a string or bytes, at the used length: its plain bytes first.
fn string_text(s: &[u8], kind: u32, text: &mut [u8], used: usize, names: &Names) -> Text
    requires { (length s.now ≤ 1048576) × (used ≤ 2 ^ 32) }
    ensures { StringBy (naming names.now) kind s.now (string_n (naming names.now) (enough s.now) kind s.now 0 []) used text.old text.new result }
{
    let first = plain_text(s, Cursor { at: 0 }, kind, text, used);
    if s.len() <= first.cursor.at {
        return Text::Done(first.used);
    }
    string_from(s, first.cursor, kind, text, first.used, names)
}

// A string's or bytes' body: its text, at the used length. A body of more than 2^20 bytes, or a used length of more than 2^32, is refused before.
pub fn parse_string(s: &[u8], kind: u32, text: &mut [u8], used: usize, names: &Names) -> Text
    ensures { StringIs (naming names.now) kind s.now used text.old text.new result }
{
    if LARGEST_BODY < s.len() || LARGEST_TEXT < used {
        return Text::Refused(refused_at(Number::BodiesTooLong as u32, 0));
    }
    string_text(s, kind, text, used, names)
}

// A string's or bytes' body that is read alone: its text, from the buffer's front on, with the held names. A body of more than 2^20 bytes is refused before.
// Apart from `parse_string`, which was slower for it (docs/DECISIONS.md).
pub fn parse_alone(s: &[u8], kind: u32, text: &mut [u8]) -> Text
    ensures { StringIs held_names kind s.now 0 text.old text.new result }
{
    if LARGEST_BODY < s.len() {
        return Text::Refused(refused_at(Number::BodiesTooLong as u32, 0));
    }
    let first = plain_text(s, Cursor { at: 0 }, kind, text, 0);
    if s.len() <= first.cursor.at {
        return Text::Done(first.used);
    }
    string_from(s, first.cursor, kind, text, first.used, &HELD)
}

// F-string text from a cursor on, up to what stops it.
fn fstring_text(
    s: &[u8],
    at: Cursor,
    nested: usize,
    kind: u32,
    text: &mut [u8],
    used: usize,
    names: &Names,
) -> Run
    requires { (nested < 2) × (length s.now ≤ 1048576) × (used ≤ 2 ^ 32) }
    ensures { RunBy (naming names.now) kind s.now nested at.at used text.old text.new result }
{
    let mut cursor = at;
    let mut end = used;
    // A step is a run of plain bytes, an escape or a character.
    loop {
        if is_plain_at(s, cursor.at, kind) {
            let run = plain_text(s, cursor, kind, text, end);
            cursor = run.cursor;
            end = run.used;
            continue;
        }
        let piece = text_piece(s, cursor, nested, kind, text, end, names);
        match piece {
            Piece::On(after, length) => {
                cursor = after;
                end = length;
            }
            Piece::Field(after) => return Run::Field(after, end),
            Piece::Over => return Run::Over(cursor, end),
            Piece::Refused(r) => return Run::Refused(r),
        }
    }
}

// F-string text from a cursor on, up to what stops it; at a depth of 2 or more it is refused there. A body or a used length that is too large is refused before.
pub fn text_run(
    s: &[u8],
    at: Cursor,
    nested: usize,
    kind: u32,
    text: &mut [u8],
    used: usize,
    names: &Names,
) -> Run
    ensures { RunIs (naming names.now) kind s.now nested at.at used text.old text.new result }
{
    if LARGEST_BODY < s.len() || LARGEST_TEXT < used {
        return Run::Refused(refused_at(Number::BodiesTooLong as u32, 0));
    }
    if 2 <= nested {
        return Run::Refused(refused_at(Number::ExpressionNestedTooDeeply as u32, at.at));
    }
    fstring_text(s, at, nested, kind, text, used, names)
}

// Where the escape ends whose backslash stands at an index of a body of kind 1, with the held names. Nothing of it is kept.
pub fn escape_end(s: &[u8], at: usize) -> Result<usize, NoEnd>
    ensures { EscapeIs s.now at result }
{
    if LARGEST_BODY < s.len() {
        return Err(NoEnd::TooLong);
    }
    let from = Cursor { at };
    let Step::Char(_, after) = from.next_char(s) else {
        return Err(NoEnd::Nowhere);
    };
    let mut text = [0u8; 0];
    match escape_text(s, from, after, 1, &mut text, 0, &HELD) {
        Piece::On(to, _) => Ok(to.at),
        Piece::Field(_) | Piece::Over | Piece::Refused(_) => Err(NoEnd::Refused),
    }
}
