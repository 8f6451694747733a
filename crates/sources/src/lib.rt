// A field's source: where it ends, and where Python reads it or the spec otherwise, 75.
#![tactic(auto)]

ghost use Rattle.std.specs.Prelude.{◌≡◌, not, ◌≤◌, eqb, ltb, length, if◌then◌else◌};
ghost use Rattle.definition.specs.Chars.{◌is◌};
ghost use Rattle.definition_scripts.specs.Cut.{cut_part};
ghost use Rattle.definition_scripts.specs.Listing.{source_end, quoted_inside, more_after, spec_backslash, otherwise};
ghost use Rattle.found.specs.Found.{literal_of};
ghost use Rattle.sources.specs.Source.{capped, Inside, odd_of, signs_of, row_of, Source, otherwise_of};

use found::{Broken, Literal, MOST_BYTES, next_literal};
use scans::opens;
use searches::first_of;

// A field as its row has it: its literal's start, its place, and its signs.
#[derive(Clone, Copy)]
pub struct Field {
    pub start: u32,
    pub place: u32,
    pub equals: u32,
    pub bang: u32,
    pub colon: u32,
    pub close: u32,
}

// The first place of a byte from one index up to another, or the other.
fn byte_in(s: &[u8], from: usize, end: usize, b: u8) -> usize
    requires { (from ≤ end) × (end ≤ length s.now) }
    ensures { result ≡ capped (λ x. eqb x b) s.now from end }
{
    for i in from..end {
        if s[i] == b {
            return i;
        }
    }
    end
}

// The first place of anything but a space from one index up to another, or the other.
// Not one function with `byte_in` over a closure: its contract would be longer than both bodies.
fn text_in(s: &[u8], from: usize, end: usize) -> usize
    requires { (from ≤ end) × (end ≤ length s.now) }
    ensures { result ≡ capped (λ x. not (x is " ")) s.now from end }
{
    for i in from..end {
        if s[i] != b' ' {
            return i;
        }
    }
    end
}

// Whether a triple-quoted literal has its own quote inside.
fn quoted_inside(s: &[u8], l: Literal) -> bool
    requires { Inside s.now l }
    ensures { result ≡ quoted_inside s.now (literal_of l) }
{
    let from = l.offset as usize;
    let end = from + l.size as usize;
    l.triple == 1 && byte_in(s, from, end, s[l.end as usize - 1]) < end
}

// A place that was found before an end, or the script's length: a number and no Option, as the definition and the promise of `otherwise` have it.
fn found_in(s: &[u8], k: usize, end: usize) -> usize
    ensures { result ≡ (if ltb k end then k else length s.now) }
{
    if k < end { k } else { s.len() }
}

// The first `#` between the literals of a source, or the start of the first triple-quoted one that has its own quote inside.
fn odd_in(s: &[u8], from: usize, end: usize) -> usize
    requires { (from ≤ end) × (end ≤ length s.now) × (length s.now ≤ 1048576) }
    ensures { result ≡ odd_of s.now from end }
{
    let mut at = from;
    // A step is a literal of the cut.
    loop {
        match next_literal(&s[..end], at) {
            Ok(Some(l)) => {
                let start = l.start as usize;
                let sign = byte_in(s, at, start, b'#');
                if sign < start {
                    return sign;
                }
                if quoted_inside(s, l) {
                    return start;
                }
                at = l.end as usize;
            }
            Ok(None) => return found_in(s, byte_in(s, at, end, b'#'), end),
            Err(Broken::Literal(r)) => {
                let stop = r.place as usize;
                return found_in(s, byte_in(s, at, stop, b'#'), stop);
            }
            Err(Broken::TooLong) => return at,
        }
    }
}

// Where a field's source ends: at its first `!`, `:` or `}`.
#[tactic(auto, unfolding(definition_scripts::specs::Listing::source_end))]
pub fn source_end(f: Field) -> usize
    ensures { result ≡ source_end (signs_of f) }
{
    if f.bang != 0 {
        f.bang as usize - 1
    } else if f.colon != 0 {
        f.colon as usize - 1
    } else {
        (f.close as usize).saturating_sub(1)
    }
}

// Just after a field's first self-documenting `=`, if anything but spaces follows up to the end of its source; else the script's length.
fn more_after(s: &[u8], f: Field, end: usize) -> usize
    requires { (end ≡ source_end (signs_of f)) × (end ≤ length s.now) }
    ensures { result ≡ more_after s.now (signs_of f) }
{
    if f.equals == 0 {
        return s.len();
    }
    let from = f.equals as usize;
    if end < from {
        return s.len();
    }
    if text_in(s, from, end) < end {
        return from;
    }
    s.len()
}

// A backslash in a field's spec before any brace, in a literal of kind 1; else the script's length.
fn spec_backslash(s: &[u8], f: Field) -> usize
    ensures { result ≡ spec_backslash s.now f.start (signs_of f) }
{
    if f.colon == 0 {
        return s.len();
    }
    let Some(1) = opens(s, f.start as usize) else {
        return s.len();
    };
    let i = first_of(s, f.colon as usize, b'{', b'}', b'\\');
    match s.get(i) {
        Some(b'\\') => i,
        _ => s.len(),
    }
}

// The first place where Python reads a source that lies in the script, or its spec, otherwise; or the script's length.
fn first_otherwise(s: &[u8], f: Field) -> usize
    requires { Source s.now f }
    ensures { result ≡ otherwise s.now (row_of f) (cut_part s.now f.place (source_end (signs_of f))) }
{
    let end = source_end(f);
    let place = f.place as usize;
    let odd = odd_in(s, place, end);
    let back = byte_in(s, place, end, b'\\');
    let escaped = found_in(s, back, end);
    let more = more_after(s, f, end);
    let spec = spec_backslash(s, f);
    let later = more.min(spec);
    let first = escaped.min(later);
    odd.min(first)
}

// The first place where Python reads a field's source or spec otherwise. The script's length for none, and where the source does not lie in the script or the script is too long.
pub fn otherwise(s: &[u8], f: Field) -> usize
    ensures { result ≡ otherwise_of s.now f }
{
    let end = source_end(f);
    if end < f.place as usize {
        return s.len();
    }
    if s.len() < end {
        return s.len();
    }
    if MOST_BYTES < s.len() {
        return s.len();
    }
    first_otherwise(s, f)
}
