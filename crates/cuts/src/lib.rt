// Long templates broken over lines: the check of cut offsets in a body of kind 1.
#![tactic(auto)]

ghost use Rattle.std.specs.Prelude.{◌≡◌, true, false, ◌≤◌, ◌<◌, length, drop};
ghost use Rattle.definition.specs.Chars.{byte, ◌is◌, well_formed};
ghost use Rattle.definition.specs.Escapes.{held_names};
ghost use Rattle.definition.specs.Reading.{read_alone};
ghost use Rattle.definition_cuts.specs.Cuts.{rise, pieces, all_short, all_read, is_read, checked};
ghost use Rattle.definition_cuts_laws.specs.Standing.{octal_at};
ghost use Rattle.cuts.specs.OnePass.{in_token, check_at};
ghost use Rattle.cuts.specs.Answers.{PassIs, VerdictIs};

use numbering::{Kind, Number};
use offsets::{is_tail, rises};
use plain::{is_plain_at, plain_end};
use tokens::{is_formed, token_end};

const LARGEST_BODY: usize = 1048576;

// The kind of an f-string: each character of what is plain there is a token.
const F_STRING: u32 = Kind::FString as u32;

// Whether an octal digit stands at an index.
fn is_octal_at(s: &[u8], at: usize) -> bool
    ensures { result ≡ (byte s.now at is "01234567") }
{
    at < s.len() && matches!(s[at], b'0'..=b'7')
}

// Whether an octal escape stands at an index.
fn octal_at(s: &[u8], at: usize) -> bool
    requires { at < length s.now }
    ensures { result ≡ octal_at s.now at }
{
    s[at] == b'\\' && is_octal_at(s, at + 1)
}

// The cut after those of a token, and whether one stood among octal digits.
#[derive(Clone, Copy)]
struct Passed {
    next: usize,
    differs: bool,
}

// The cuts of the token from i up to j, from number `from` on; none if one stands within the token.
fn pass_token(s: &[u8], i: usize, j: usize, cuts: &[u32], from: usize, flag: bool) -> Option<Passed>
    requires { (i < length s.now) × (length s.now ≤ 1048576) × (from ≤ length cuts.now) }
    ensures { PassIs (in_token s.now i j (drop from cuts.now) flag) cuts.now from result }
{
    let mut differs = flag;
    for k in from..cuts.len() {
        let c = cuts[k] as usize;
        if j <= c {
            return Some(Passed { next: k, differs });
        }
        if c == i {
            continue;
        }
        if !octal_at(s, i) || c < i + 2 {
            return None;
        }
        differs = true;
    }
    Some(Passed {
        next: cuts.len(),
        differs,
    })
}

// Whether one of the cuts stood among octal digits; none if one stands within a token, or a token is refused.
fn check_cuts(s: &[u8], cuts: &[u32]) -> Option<bool>
    requires { (length s.now ≤ 1048576) × (length s.now ≤ well_formed s.now) }
    ensures { VerdictIs (check_at s.now 0 cuts.now false) result }
{
    let mut i = 0;
    let mut k = 0;
    let mut differs = false;
    let mut plain = 0;
    // A step is a token, a run or a cut, so no `for` counts them.
    while i < s.len() {
        if i < plain {
            if cuts.len() <= k {
                i = plain;
                continue;
            }
            let c = cuts[k] as usize;
            if plain <= c {
                i = plain;
                continue;
            }
            if c < i || is_tail(s[c]) {
                return None;
            }
            i = c;
            k += 1;
        } else if is_plain_at(s, i, F_STRING) {
            plain = plain_end(s, i, F_STRING);
        } else {
            let j = token_end(s, i).ok()?;
            let passed = pass_token(s, i, j, cuts, k, differs)?;
            i = j;
            k = passed.next;
            differs = passed.differs;
        }
    }
    Some(differs)
}

// Whether each piece has at most so many bytes.
fn all_short(s: &[u8], limit: u32, cuts: &[u32]) -> bool
    requires { rise (length s.now) 0 cuts.now ≡ true }
    ensures { result ≡ all_short limit (pieces s.now 0 cuts.now) }
{
    let most = limit as usize;
    let mut from = 0;
    for cut in cuts {
        let c = *cut as usize;
        if most < c - from {
            return false;
        }
        from = c;
    }
    s.len() - from <= most
}

// Whether a piece is read alone.
fn reads(s: &[u8]) -> bool
    ensures { result ≡ is_read (read_alone held_names s.now) }
{
    s.len() <= LARGEST_BODY && is_formed(s) && check_cuts(s, &[]).is_some()
}

// Whether each piece is read alone.
fn all_read(s: &[u8], cuts: &[u32]) -> bool
    requires { rise (length s.now) 0 cuts.now ≡ true }
    ensures { result ≡ all_read (pieces s.now 0 cuts.now) }
{
    let mut from = 0;
    for cut in cuts {
        let c = *cut as usize;
        if !reads(&s[from..c]) {
            return false;
        }
        from = c;
    }
    reads(&s[from..])
}

// The check of a body that is not over the size limit.
fn check_short(s: &[u8], limit: u32, cuts: &[u32]) -> u32
    requires { (length s.now ≤ 1048576) × (rise (length s.now) 0 cuts.now ≡ true) × (all_short limit (pieces s.now 0 cuts.now) ≡ true) }
    ensures { result ≡ checked s.now limit cuts.now }
{
    if !is_formed(s) {
        return Number::PieceRefused as u32;
    }
    match check_cuts(s, cuts) {
        None => Number::PieceRefused as u32,
        Some(true) => Number::ReadingsDiffer as u32,
        Some(false) => 0,
    }
}

// The check of cut offsets in a body of kind 1: 0, or its first refusal. Over the size limit each piece is read alone.
// The number that it gives is the C interface's.
pub fn check(s: &[u8], limit: u32, cuts: &[u32]) -> u32
    ensures { result ≡ checked s.now limit cuts.now }
{
    if !rises(s, cuts) {
        return Number::WrongOffsets as u32;
    }
    if !all_short(s, limit, cuts) {
        return Number::PieceTooLong as u32;
    }
    if s.len() <= LARGEST_BODY {
        return check_short(s, limit, cuts);
    }
    if all_read(s, cuts) {
        Number::ReadingsDiffer as u32
    } else {
        Number::PieceRefused as u32
    }
}
