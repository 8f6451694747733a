#![tactic(auto)]

// UTF-8 by the Unicode Standard, tables 3-6 and 3-7: byte classes, a character's length, the character step. Nothing is written here.
ghost use Rattle.std.specs.Prelude.{◌≡◌, ◌+◌, ◌<◌, ◌≤◌, max, length};
ghost use Rattle.definition.specs.Chars.{byte, follow, width, decoded, code};
ghost use Rattle.utf8.specs.Classes.{classes, class_of, ranges};
ghost use Rattle.utf8.specs.Steps.{step_at};

// A place in the bytes of a body.
#[derive(Clone, Copy)]
pub struct Cursor {
    pub at: usize,
}

// An answer of our own, as docs/DECISIONS.md, "Forms", has it.
// What stands at a cursor: a character's code and the cursor after it, or the end.
#[derive(Clone, Copy)]
pub enum Step {
    Char(u32, Cursor),
    End,
}

// The class of each byte, as a digit.
const CLASS: [u8; 256] = *b"\
    1111111111111111111111111111111111111111111111111111111111111111\
    1111111111111111111111111111111111111111111111111111111111111111\
    0000000000000000000000000000000000000000000000000000000000000000\
    0022222222222222222222222222222234444444444445667888900000000000";

// By class: how many bytes follow the first, and the second byte's range.
const MORE: [u8; 10] = [0, 0, 1, 2, 2, 2, 2, 3, 3, 3];

const LOW: [u8; 10] = [0, 0, 0x80, 0xA0, 0x80, 0x80, 0x80, 0x90, 0x80, 0x80];

const HIGH: [u8; 10] = [0, 0, 0xBF, 0xBF, 0xBF, 0x9F, 0xBF, 0xBF, 0xBF, 0x8F];

// The byte's row of table 3-7, from 1, by the table; 0 if it begins no character, as `class` promises.
fn class_in(table: &[u8; 256], b: u8) -> usize
    requires { table.now ≡ classes }
    ensures { result ≡ class_of b }
{
    (table[b as usize] - b'0') as usize
}

// The byte's row of table 3-7, from 1; 0 if it begins no character.
// A number and no Option: class promises the row's number, or 0.
pub fn class(b: u8) -> usize
    ensures { result ≡ class_of b }
{
    let table = CLASS;
    class_in(&table, b)
}

// Whether so many bytes stand from an index on, the first within low to high and the others within 80 to BF.
fn follows(s: &[u8], from: usize, more: usize, low: u8, high: u8) -> bool
    ensures { result ≡ follow (ranges more low high) s.now from }
{
    let mut least = low;
    let mut most = high;
    for k in 0..more {
        let i = from + k;
        if s.len() <= i || s[i] < least || most < s[i] {
            return false;
        }
        least = 0x80;
        most = 0xBF;
    }
    true
}

// The length of the well-formed character at an index, by the class of its first byte in the table; 0 if there is none, as `char_len` promises.
fn len_in(s: &[u8], at: usize, table: &[u8; 256]) -> usize
    requires { (at < length s.now) × (table.now ≡ classes) }
    ensures { result ≡ width s.now at }
{
    let class = class_in(table, s[at]);
    if class == 0 {
        return 0;
    }
    let more = MORE[class] as usize;
    if follows(s, at + 1, more, LOW[class], HIGH[class]) {
        more + 1
    } else {
        0
    }
}

// The length of the well-formed character at an index; 0 if there is none.
// A number and no Option: char_len promises the definition's width.
pub fn char_len(s: &[u8], at: usize) -> usize
    ensures { result ≡ width s.now at }
{
    if s.len() <= at {
        return 0;
    }
    let table = CLASS;
    len_in(s, at, &table)
}

// The byte at an index, as a number.
fn byte_at(s: &[u8], i: usize) -> u32
    requires { i < length s.now }
    ensures { result ≡ byte s.now i }
{
    s[i] as u32
}

// The code of the character of so many bytes at an index.
fn decode(s: &[u8], at: usize, len: usize) -> u32
    requires { at + max 1 len ≤ length s.now }
    ensures { result ≡ decoded len s.now at }
{
    let b = byte_at(s, at);
    match len {
        0 => 0xFFFD,
        1 => b,
        2 => b % 32 * 64 + byte_at(s, at + 1) % 64,
        3 => b % 16 * 4096 + byte_at(s, at + 1) % 64 * 64 + byte_at(s, at + 2) % 64,
        _ => {
            b % 8 * 262144
                + byte_at(s, at + 1) % 64 * 4096
                + byte_at(s, at + 2) % 64 * 64
                + byte_at(s, at + 3) % 64
        }
    }
}

// The character at an index, by the classes of bytes.
fn next_wide(s: &[u8], at: usize) -> Step
    requires { at < length s.now }
    ensures { result ≡ step_at s.now at }
{
    let table = CLASS;
    let len = len_in(s, at, &table);
    let code = decode(s, at, len);
    if len == 0 {
        return Step::Char(code, Cursor { at: at + 1 });
    }
    Step::Char(code, Cursor { at: at + len })
}

impl Cursor {
    // The character at the cursor. A byte that begins no well-formed one is taken alone, as U+FFFD.
    pub fn next_char(self, s: &[u8]) -> Step
        ensures { result ≡ step_at s.now self.at }
    {
        let at = self.at;
        if s.len() <= at {
            return Step::End;
        }
        let b = byte_at(s, at);
        if b < 0x80 {
            return Step::Char(b, Cursor { at: at + 1 });
        }
        next_wide(&s[..], at)
    }

    // The code of the character at the cursor; 0x110000 at the end.
    // A number and no Option: peek promises the definition's code.
    pub fn peek(self, s: &[u8]) -> u32
        ensures { result ≡ code s.now self.at }
    {
        let at = self.at;
        if s.len() <= at {
            return 0x110000;
        }
        let b = byte_at(s, at);
        if b < 0x80 {
            return b;
        }
        let Step::Char(c, _) = next_wide(&s[..], at) else {
            return 0x110000;
        };
        c
    }
}
