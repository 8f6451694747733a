// The well-formed prefix of a text: by blocks, and character by character where one does not fit. Nothing is written here.
#![tactic(auto)]

ghost use Rattle.std.specs.Prelude.{◌≡◌, true, false, ◌&&◌, leb, eqb, ◌+◌, ◌<◌, ◌≤◌, length, if◌then◌else◌};
ghost use Rattle.definition.specs.Chars.{byte, width, well_formed};
ghost use Rattle.definition.specs.Counts.{counted};
ghost use Rattle.ascii.specs.Runs.{Ascii};
ghost use Rattle.prefixes.specs.Formed.{Formed};
ghost use Rattle.prefixes.specs.Fits.{is_due, SecondFits, Fits, AllFit, Fitting, last_start};

use ascii::{ascii_end, is_ascii};
use counts::{heads, is_trail};
use utf8::char_len;

// Whether the byte at an index is within low to high.
fn is_between(s: &[u8], i: usize, low: u8, high: u8) -> bool
    ensures { result ≡ (leb low (byte s.now i) && leb (byte s.now i) high) }
{
    i < s.len() && low <= s[i] && s[i] <= high
}

// The length of the well-formed character at an index if its first byte is C2 to DF or E1 to EC; else, or if there is none, 0.
// A number and no Option: 0 is what utf8::char_len promises for none.
fn common_len(s: &[u8], at: usize) -> usize
    requires { at < length s.now }
    ensures { (result ≡ 0 → ⊥) → width s.now at ≡ result }
{
    if is_between(s, at, 0xC2, 0xDF) && is_between(s, at + 1, 0x80, 0xBF) {
        2
    } else if is_between(s, at, 0xE1, 0xEC)
        && is_between(s, at + 1, 0x80, 0xBF)
        && is_between(s, at + 2, 0x80, 0xBF)
    {
        3
    } else {
        0
    }
}

// The least second byte after a first one of E0 to F4.
// Apart from `most_after`: the bytes and their ranges are other ones.
fn least_after(b: u8) -> u8
    ensures { result ≡ (if eqb b 0xE0 then 0xA0 else if eqb b 0xF0 then 0x90 else 0x80) }
{
    match b {
        0xE0 => 0xA0,
        0xF0 => 0x90,
        _ => 0x80,
    }
}

// The greatest second byte after a first one of E0 to F4.
fn most_after(b: u8) -> u8
    ensures { result ≡ (if eqb b 0xED then 0x9F else if eqb b 0xF4 then 0x8F else 0xBF) }
{
    match b {
        0xED => 0x9F,
        0xF4 => 0x8F,
        _ => 0xBF,
    }
}

// The length of the well-formed character at an index if its first byte is E0 to F4; else, or if there is none, 0.
// A number and no Option: 0 is what utf8::char_len promises for none.
fn long_len(s: &[u8], at: usize) -> usize
    requires { at < length s.now }
    ensures { (result ≡ 0 → ⊥) → width s.now at ≡ result }
{
    let b = s[at];
    if 0xE0 <= b
        && b <= 0xF4
        && is_between(s, at + 1, least_after(b), most_after(b))
        && is_between(s, at + 2, 0x80, 0xBF)
    {
        if b < 0xF0 {
            return 3;
        }
        if is_between(s, at + 3, 0x80, 0xBF) {
            return 4;
        }
    }
    0
}

// Whether after the bytes z, y and x one of 80 to BF must stand: x begins a character, or y one of three bytes or more, or z one of four.
#[tactic(auto, unfolding(crate::specs::Fits::is_due))]
fn is_due(z: u8, y: u8, x: u8) -> bool
    ensures { result ≡ is_due z y x }
{
    0xC2 <= x || 0xE0 <= y || 0xF0 <= z
}

// 0 only if both hold or neither.
fn differ(a: bool, b: bool) -> u8
    ensures { result ≡ 0 → a ≡ b }
{
    (a != b) as u8
}

// 0 only if not both hold.
fn both(a: bool, b: bool) -> u8
    ensures { result ≡ 0 → (a && b) ≡ false }
{
    (a && b) as u8
}

// 0 only if the byte b, where it is one of 80 to BF, is within its range as the second after x.
fn second_misfit(x: u8, b: u8) -> u8
    ensures { result ≡ 0 → SecondFits x b }
{
    let low = both(x == 0xE0, b < 0xA0).max(both(x == 0xF0, b < 0x90));
    let high = both(x == 0xED, 0xA0 <= b).max(both(x == 0xF4, 0x90 <= b));
    low.max(high)
}

// 0 only if the byte b may stand after z, y and x.
fn misfit(z: u8, y: u8, x: u8, b: u8) -> u8
    ensures { result ≡ 0 → Fits z y x b }
{
    let open = differ(is_due(z, y, x), is_trail(b));
    let never = both(0xC0 <= b, b < 0xC2).max(both(0xC2 <= b, 0xF5 <= b));
    open.max(never).max(second_misfit(x, b))
}

// Whether from each index up to another the fourth of four bytes may stand after the three.
fn is_fitting(s: &[u8], from: usize, to: usize) -> bool
    requires { to + 3 ≤ length s.now }
    ensures { result ≡ true → AllFit s.now from to }
{
    let mut most = 0;
    for i in from..to {
        most = misfit(s[i], s[i + 1], s[i + 2], s[i + 3]).max(most);
    }
    most == 0
}

// The same from an index on for 64, with a short way over ASCII.
fn is_fitting_block(s: &[u8], i: usize) -> bool
    requires { i + 67 ≤ length s.now }
    ensures { result ≡ true → AllFit s.now i (i + 64) }
{
    if is_ascii(&s[i + 3..i + 67]) {
        !is_due(s[i], s[i + 1], s[i + 2])
    } else {
        is_fitting(s, i, i + 64)
    }
}

// So far from an index on, by blocks of 64, the fourth of four bytes may stand after the three.
fn fitting_blocks(s: &[u8], at: usize) -> usize
    requires { at + 3 ≤ length s.now }
    ensures { Fitting s.now at result }
{
    let mut i = at;
    // A step is a block.
    while 67 <= s.len() - i && is_fitting_block(s, i) {
        i += 64;
    }
    i
}

// Where the last character begins if the three bytes at an index leave one open, else just after them.
fn last_start(s: &[u8], i: usize) -> usize
    requires { i + 3 ≤ length s.now }
    ensures { result ≡ last_start s.now i }
{
    if 0xC2 <= s[i + 2] {
        i + 2
    } else if 0xE0 <= s[i + 1] {
        i + 1
    } else if 0xF0 <= s[i] {
        i
    } else {
        i + 3
    }
}

// Further on from the end of a character, by blocks, to the end of another.
fn formed_blocks(s: &[u8], at: usize) -> usize
    requires { Formed s.now at }
    ensures { Formed s.now result }
{
    if at < 3 {
        return at;
    }
    let from = at - 3;
    if is_due(s[from], s[from + 1], s[from + 2]) {
        return at;
    }
    let to = fitting_blocks(s, from);
    last_start(s, to)
}

// Further on from the end of a character, one by one, to the end of the first that ends at an index or after it; if one is not well-formed, up to that.
fn formed_until(s: &[u8], from: usize, to: usize) -> usize
    requires { Formed s.now from × (to ≤ length s.now) }
    ensures { Formed s.now result × (result < to → width s.now result ≡ 0) }
{
    let mut at = from;
    // A step is a character.
    while at < to {
        if s[at] < 0x80 {
            let past = at + 1;
            at = past + ascii_end(&s[past..]);
            continue;
        }
        let common = common_len(s, at);
        if common != 0 {
            at += common;
            continue;
        }
        let long = long_len(s, at);
        if long != 0 {
            at += long;
            continue;
        }
        let len = char_len(s, at);
        if len == 0 {
            return at;
        }
        at += len;
    }
    at
}

// The length of the longest well-formed prefix, which begins with ASCII up to an index.
fn formed_end(s: &[u8], ascii: usize) -> usize
    requires { Ascii s.now 0 ascii }
    ensures { result ≡ well_formed s.now }
{
    if s.len() < 67 {
        return formed_until(s, ascii, s.len());
    }
    let begun = formed_until(s, ascii, 3);
    let blocks = formed_blocks(s, begun);
    formed_until(s, blocks, s.len())
}

// The longest well-formed prefix of a text: its length, and how many characters it has.
#[derive(Clone, Copy)]
pub struct Prefix {
    pub len: usize,
    pub chars: usize,
}

// The longest well-formed prefix.
pub fn well_formed(s: &[u8]) -> Prefix
    ensures { (result.len ≡ well_formed s.now) × (result.chars ≡ (counted s.now result.len).chars) }
{
    let ascii = ascii_end(s);
    if s.len() <= ascii {
        return Prefix {
            len: ascii,
            chars: ascii,
        };
    }
    let len = formed_end(s, ascii);
    Prefix {
        len,
        chars: ascii + heads(&s[ascii..len]),
    }
}
