// Escapes: Python 3.11 Language Reference, "String and Bytes literals". Nothing is written here: an answer says what to write.
#![tactic(auto)]

ghost use Rattle.std.specs.Prelude.{◌≡◌, ◌<◌, ◌≤◌, unwrap_or, IfSome};
ghost use Rattle.definition.specs.Chars.{no_code};
ghost use Rattle.definition.specs.Numbers.{is_bytes};
ghost use Rattle.definition.specs.Escapes.{fault, refused, octal_digit, octal_from, scalar, hex_from, unicode_name, escape};
ghost use Rattle.escapes.specs.Answers.{says, naming};

use names::Names;
use numbering::Number;
use searches::first_of;
use utf8::{Cursor, Step};

// A refusal's number, and the bytes taken at its place.
#[derive(Clone, Copy)]
pub struct Refusal {
    pub number: u32,
    pub at: usize,
}

// What an escape stands for, with the cursor after it: a code; the backslash and the character as they are; nothing. Or a refusal.
// An answer of our own, as docs/DECISIONS.md, "Forms", has it.
#[derive(Clone, Copy)]
pub enum Escaped {
    Code(u32, Cursor),
    Kept(Cursor),
    Gone(Cursor),
    Refused(Refusal),
}

// A refusal with a number, at a place.
fn refuse(number: u32, at: usize) -> Escaped
    ensures { says result ≡ refused (fault number at) }
{
    Escaped::Refused(Refusal { number, at })
}

// Whether a kind is of bytes.
pub fn is_any_bytes(kind: u32) -> bool
    ensures { result ≡ is_bytes kind }
{
    matches!(kind, 2 | 5)
}

// The value of an octal digit.
fn octal_digit(c: u32) -> Option<u32>
    ensures value { unwrap_or result 8 ≡ octal_digit c }
    ensures digit { IfSome result (λ d. d < 8) }
{
    // A code may be past every byte, so the range is numbers: that of `0` to `7`.
    match c {
        48..=55 => Some(c - 48),
        _ => None,
    }
}

// The character of a code: a surrogate is U+FFFD, and above 10FFFF there is none.
fn char_of(v: u32, to: Cursor, letter: usize) -> Escaped
    ensures { says result ≡ scalar v to.at letter }
{
    match v {
        0..=0xD7FF | 0xE000..=0x10FFFF => Escaped::Code(v, to),
        0xD800..=0xDFFF => Escaped::Code(0xFFFD, to),
        _ => refuse(Number::UnicodeError as u32, letter),
    }
}

// So many hex digits, after the escape's letter.
fn parse_unicode_literal(s: &[u8], from: Cursor, digits: usize) -> Escaped
    requires { digits ≤ 8 }
    ensures { says result ≡ hex_from digits 0 s.now from.at from.at }
{
    let letter = from.at;
    let mut p: u32 = 0;
    let mut cursor = from;
    for _done in 0..digits {
        let Step::Char(c, next) = cursor.next_char(s) else {
            return refuse(Number::UnicodeError as u32, letter);
        };
        let Some(d) = names::hex_digit(c) else {
            return refuse(Number::UnicodeError as u32, letter);
        };
        p = p * 16 + d;
        cursor = next;
    }
    char_of(p, cursor, letter)
}

// An octal digit's value, with at most two digits more.
fn parse_octet(s: &[u8], from: Cursor, first: u32) -> Escaped
    requires { first < 8 }
    ensures { says result ≡ octal_from 2 first s.now from.at }
{
    let mut p = first;
    let mut cursor = from;
    for _done in 0..2usize {
        let Step::Char(c, next) = cursor.next_char(s) else {
            return Escaped::Code(p, cursor);
        };
        let Some(d) = octal_digit(c) else {
            return Escaped::Code(p, cursor);
        };
        p = p * 8 + d;
        cursor = next;
    }
    Escaped::Code(p, cursor)
}

// The code of a name: in a lent file, by its index; where that is empty, among the held ones.
fn code_in(name: &[u8], names: &Names) -> Option<u32>
    ensures code { unwrap_or result no_code ≡ naming names.now name.now }
    ensures below { IfSome result (λ v. v < no_code) }
{
    if names.file.is_empty() {
        held::code_of(name)
    } else {
        names::look_up(names.file, names.index, name)
    }
}

// A name in braces, after the `N`.
fn parse_unicode_name(s: &[u8], from: Cursor, names: &Names) -> Escaped
    ensures { says result ≡ unicode_name (naming names.now) s.now from.at }
{
    let at = from.at;
    let Step::Char(c, inner) = from.next_char(s) else {
        return refuse(Number::StringError as u32, at);
    };
    if c != 0x7B {
        return refuse(Number::StringError as u32, at);
    }
    let start = inner.at;
    let n = s.len();
    let end = first_of(s, start, b'}', b'}', b'}');
    if n <= end {
        return refuse(Number::StringError as u32, n);
    }
    let past = end + 1;
    if 88 < end - start {
        return refuse(Number::UnicodeError as u32, past);
    }
    let Some(code) = code_in(&s[start..end], names) else {
        return refuse(Number::NameNotHeld as u32, start);
    };
    Escaped::Code(code, Cursor { at: past })
}

// The escape whose backslash was just taken; names are looked up in a lent file by its index, or where that is empty among the held ones.
pub fn parse_escaped_char(s: &[u8], from: Cursor, kind: u32, names: &Names) -> Escaped
    ensures { says result ≡ escape (naming names.now) kind s.now from.at }
{
    let Step::Char(c, next) = from.next_char(s) else {
        return refuse(Number::StringError as u32, from.at);
    };
    let bytes = is_any_bytes(kind);
    // A code may be past every byte, so the characters are numbers.
    // A guard over the three letters that bytes keep was tried, and the proof did not close.
    match c {
        34 | 39 | 92 => Escaped::Code(c, next),
        97 => Escaped::Code(7, next),
        98 => Escaped::Code(8, next),
        102 => Escaped::Code(12, next),
        110 => Escaped::Code(10, next),
        114 => Escaped::Code(13, next),
        116 => Escaped::Code(9, next),
        118 => Escaped::Code(11, next),
        48..=55 => parse_octet(s, next, c - 48),
        120 => parse_unicode_literal(s, next, 2),
        117 => {
            if bytes {
                Escaped::Kept(next)
            } else {
                parse_unicode_literal(s, next, 4)
            }
        }
        85 => {
            if bytes {
                Escaped::Kept(next)
            } else {
                parse_unicode_literal(s, next, 8)
            }
        }
        78 => {
            if bytes {
                Escaped::Kept(next)
            } else {
                parse_unicode_name(s, next, names)
            }
        }
        10 => Escaped::Gone(next),
        _ => {
            if bytes && 0x80 <= c {
                refuse(Number::NonAsciiInBytes as u32, next.at)
            } else {
                Escaped::Kept(next)
            }
        }
    }
}
