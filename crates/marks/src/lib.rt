// What characters and bytes are in a text, a field or a spec, and why a brace counts as unclosed. Nothing is written here.
#![tactic(auto)]

ghost use Rattle.std.specs.Prelude.{◌≡◌, ◌&&◌, not, ◌+◌, eqb, leb, drop, if◌then◌else◌};
ghost use Rattle.definition.specs.Numbers.{is_bytes, is_raw, unclosed_lbrace};
ghost use Rattle.definition.specs.Chars.{◌is◌, code, before};
ghost use Rattle.definition.specs.Escapes.{fault, detail};
ghost use Rattle.definition.specs.Body.{pair, is_blank, sign_case, matching, first_end};
ghost use Rattle.marks.specs.Marks.{special, case_is, plain_case, passing, converted, reason_of, refusal};

use escapes::is_any_bytes;
use numbering::Number;
use utf8::Cursor;

// Why a body is refused: the number, the bytes taken just after the bracket that it names and at its place, two details.
#[derive(Clone, Copy)]
pub struct Refusal {
    pub number: u32,
    pub opened: u32,
    pub taken: usize,
    pub a: u32,
    pub b: u32,
}

// The characters that have a rule of their own in a field, as codes.
const BANG: u32 = '!' as u32;

const EQUALS: u32 = '=' as u32;

const LESS: u32 = '<' as u32;

const MORE: u32 = '>' as u32;

const COLON: u32 = ':' as u32;

const LEFT_PARENTHESIS: u32 = '(' as u32;

const LEFT_BRACKET: u32 = '[' as u32;

const LEFT_BRACE: u32 = '{' as u32;

const RIGHT_PARENTHESIS: u32 = ')' as u32;

const RIGHT_BRACKET: u32 = ']' as u32;

const RIGHT_BRACE: u32 = '}' as u32;

const QUOTE: u32 = '"' as u32;

const APOSTROPHE: u32 = '\'' as u32;

const SPACE: u32 = ' ' as u32;

const BACKSLASH: u32 = '\\' as u32;

// Why a brace counts as unclosed: the body ends right after `!`; the character after a conversion is neither `}` nor `:`, or there is none; something not allowed follows a self-documenting `=`; the body ends elsewhere inside a field; a `{` at depth 0 is the last character.
#[derive(Clone, Copy, PartialEq, Eq)]
pub enum Unclosed {
    AfterBang,
    AfterConversion,
    AfterEquals,
    InField,
    LastBrace,
}

// What a character is in a field.
#[derive(Clone, Copy, PartialEq, Eq)]
pub enum Class {
    Pair,
    Converts,
    Documents,
    Formats,
    Opener,
    Closes,
    Closer,
    Quote,
    Space,
    Backslash,
    Stray,
    Plain,
}

// Whether a kind is raw.
fn is_raw(kind: u32) -> bool
    ensures { result ≡ is_raw kind }
{
    matches!(kind, 3..=5)
}

// Whether a character of a string begins an escape: a backslash does, but not in a raw one.
pub fn is_escape(c: u32, kind: u32) -> bool
    ensures { result ≡ (c is "\\" && not (is_raw kind)) }
{
    c == BACKSLASH && !is_raw(kind)
}

// Whether a character may not stand in a literal of the kind: in bytes it must be ASCII.
pub fn is_foreign(c: u32, kind: u32) -> bool
    ensures { result ≡ (is_bytes kind && leb 0x80 c) }
{
    is_any_bytes(kind) && 0x80 <= c
}

// Whether a byte may be no plain text: a brace, a backslash, or in bytes one above ASCII.
pub fn is_special(b: u8, kind: u32) -> bool
    ensures { result ≡ special kind b }
{
    matches!(b, b'{' | b'}' | b'\\') || is_foreign(u32::from(b), kind)
}

// Whether a byte is a brace.
pub fn is_brace(b: u8) -> bool
    ensures { result ≡ b is "{}" }
{
    matches!(b, b'{' | b'}')
}

// The index of the first brace from an index on, or the end.
pub fn brace_from(s: &[u8], from: usize) -> usize
    ensures { result ≡ first_end s.now from }
{
    for i in from..s.len() {
        if is_brace(s[i]) {
            return i;
        }
    }
    from.max(s.len())
}

// Whether a code has Unicode's property White_Space.
// One match over ranges, a form that is asked for: an arm for each range, since the arms joined by `|` did not prove.
pub fn is_blank(c: u32) -> bool
    ensures { result ≡ is_blank c }
{
    match c {
        0x0009..=0x000D => true,
        0x0020 => true,
        0x0085 => true,
        0x00A0 => true,
        0x1680 => true,
        0x2000..=0x200A => true,
        0x2028 => true,
        0x2029 => true,
        0x202F => true,
        0x205F => true,
        0x3000 => true,
        _ => false,
    }
}

// Whether a closing bracket is of an open one's kind.
// One match is plainer than three pairs joined by `||`.
pub fn matches(opener: u32, closer: u32) -> bool
    ensures { result ≡ matching opener closer }
{
    match opener {
        LEFT_PARENTHESIS => closer == RIGHT_PARENTHESIS,
        LEFT_BRACKET => closer == RIGHT_BRACKET,
        LEFT_BRACE => closer == RIGHT_BRACE,
        _ => false,
    }
}

// Whether a code is `s`, `a` or `r`.
pub fn is_conversion(c: u32) -> bool
    ensures { result ≡ c is "sar" }
{
    matches!(u8::try_from(c), Ok(b's' | b'a' | b'r'))
}

// Whether a code is `}` or `:`.
pub fn ends_head(c: u32) -> bool
    ensures { result ≡ c is "}:" }
{
    matches!(c, RIGHT_BRACE | COLON)
}

// A character with no rule of its own, after a self-documenting `=` or before one.
fn plain_class(documented: bool) -> Class
    ensures { case_is result ≡ plain_case documented }
{
    if documented {
        Class::Stray
    } else {
        Class::Plain
    }
}

// A class that stands outside brackets only.
fn outside_class(out: bool, class: Class, documented: bool) -> Class
    ensures { case_is result ≡ (if out then case_is class else plain_case documented) }
{
    if out { class } else { plain_class(documented) }
}

// A class, or that of a pair where a `=` follows.
fn pair_class(s: &[u8], after: Cursor, class: Class) -> Class
    ensures { case_is result ≡ (if code s.now after.at is "=" then pair else case_is class) }
{
    if after.peek(s) == EQUALS {
        Class::Pair
    } else {
        class
    }
}

// The class of a character before a cursor, in the order ! = < > : ( [ { } ) ] " ' space \ and the others.
pub fn class_of(s: &[u8], c: u32, after: Cursor, out: bool, documented: bool) -> Class
    ensures { case_is result ≡ sign_case c (code s.now after.at) out documented }
{
    match c {
        BANG => pair_class(s, after, outside_class(out, Class::Converts, documented)),
        EQUALS => pair_class(s, after, outside_class(out, Class::Documents, documented)),
        LESS | MORE => pair_class(s, after, plain_class(documented)),
        COLON => outside_class(out, Class::Formats, documented),
        LEFT_PARENTHESIS | LEFT_BRACKET | LEFT_BRACE => Class::Opener,
        RIGHT_BRACE => if out { Class::Closes } else { Class::Closer },
        RIGHT_PARENTHESIS | RIGHT_BRACKET => Class::Closer,
        QUOTE | APOSTROPHE => Class::Quote,
        SPACE => if documented {
            Class::Space
        } else {
            Class::Plain
        },
        BACKSLASH => Class::Backslash,
        _ => plain_class(documented),
    }
}

// Whether an expression stays blank with one more character.
pub fn still_blank(blank: bool, c: u32) -> bool
    ensures { result ≡ (blank && is_blank c) }
{
    blank && is_blank(c)
}

// Where a run that a quote opened has the same quote, or the body's end; from past the end, there.
pub fn run_end(s: &[u8], from: usize, quote: u32) -> usize
    ensures { result ≡ from + before (λ b. eqb b quote) (drop from s.now) }
{
    let mut i = from;
    // Left by a label, a form that is asked for.
    'run: loop {
        if s.len() <= i {
            break 'run i;
        }
        if u32::from(s[i]) == quote {
            break 'run i;
        }
        i += 1;
    }
}

// Whether a byte has no rule of its own in a field: ^ to z, * to 9 and ? to Z have none.
fn is_passing(b: u8) -> bool
    ensures { result ≡ passing b }
{
    // Guards, letters first: as one match over the three ranges each byte of an expression costs up to three times as much.
    if b'^' <= b {
        return b <= b'z';
    }
    if b < b'*' {
        return false;
    }
    if b <= b'9' {
        return true;
    }
    if b < b'?' {
        return false;
    }
    b <= b'Z'
}

// How far from an index on bytes have no rule of their own.
pub fn passing_end(s: &[u8], at: usize) -> usize
    ensures { result ≡ at + before (λ b. not (passing b)) (drop at s.now) }
{
    for i in at..s.len() {
        if !is_passing(s[i]) {
            return i;
        }
    }
    at.max(s.len())
}

// A field's conversion; a self-documenting field with neither conversion nor spec has r.
#[tactic(auto, unfolding(definition::specs::Body::conversion_of))]
pub fn conversion_of(documented: bool, conversion: u32, parts: u32) -> u32
    ensures { result ≡ converted documented conversion parts }
{
    if documented && parts == 0 && conversion == 0 {
        'r' as u32
    } else {
        conversion
    }
}

// The number of a reason.
impl From<Unclosed> for u32 {
    ghost from_gives = { λ why n. n ≡ reason_of why };

    fn from(why: Unclosed) -> u32 {
        match why {
            Unclosed::AfterBang => 1,
            Unclosed::AfterConversion => 2,
            Unclosed::AfterEquals => 3,
            Unclosed::InField => 4,
            Unclosed::LastBrace => 5,
        }
    }
}

// A refusal without details, after so many bytes.
pub fn refused_at(number: u32, taken: usize) -> Refusal
    ensures { result ≡ refusal (fault number taken) }
{
    Refusal {
        number,
        opened: 0,
        taken,
        a: 0,
        b: 0,
    }
}

// A brace that counts as unclosed, and why.
pub fn unclosed_brace(why: Unclosed, taken: usize) -> Refusal
    ensures { result ≡ refusal (detail unclosed_lbrace taken (reason_of why)) }
{
    Refusal {
        a: u32::from(why),
        ..refused_at(Number::UnclosedLbrace as u32, taken)
    }
}
