// Expressions and texts byte by byte: whether an expression is clean, whether a text is blank or has no brace.
#![tactic(auto)]

ghost use Rattle.std.specs.Prelude.{◌≡◌, ◌&&◌, true, false, [], ◌≤◌, ◌<◌, ◌+◌, eqb, length};
ghost use Rattle.definition.specs.Chars.{◌is◌, byte};
ghost use Rattle.definition.specs.Matched.{clear, see, blank, braceless};
ghost use Rattle.definition_written.specs.ReadsBack.{clean};
ghost use Rattle.expressions.specs.Scans.{opens, state_of, Keeps};

use marks::{brace_from, is_blank, matches};
use utf8::{Cursor, Step};

// The quote of the run that a scan is in, 0 outside of runs, and how many brackets are open, at most 64.
// The quote is no Option, which would be no plainer: it is only compared, with 0 or with a byte.
#[derive(Clone, Copy)]
struct Scan {
    quote: u8,
    depth: usize,
}

// Whether a byte is a quote.
fn is_quote(b: u8) -> bool
    ensures { result ≡ b is "\"'" }
{
    matches!(b, b'"' | b'\'')
}

// Whether a byte opens a bracket.
fn is_opener(b: u8) -> bool
    ensures { result ≡ b is "([{" }
{
    matches!(b, b'(' | b'[' | b'{')
}

// Whether a byte closes a bracket.
fn is_closer(b: u8) -> bool
    ensures { result ≡ b is ")]}" }
{
    matches!(b, b')' | b']' | b'}')
}

// Whether a byte may be the first of a pair.
fn is_first(b: u8) -> bool
    ensures { result ≡ b is "!=><" }
{
    matches!(b, b'!' | b'=' | b'>' | b'<')
}

// Whether a byte may not stand outside of brackets and runs, but in a pair.
fn is_sign(b: u8) -> bool
    ensures { result ≡ b is "!=:" }
{
    matches!(b, b'!' | b'=' | b':')
}

// An opening bracket outside of runs; nothing for an expression that is not clean.
// 64 places with a count: asked for, and nothing is allocated.
fn open_bracket(b: u8, depth: usize, stack: &mut [u8; 64]) -> Option<Scan>
    requires { (depth ≤ 64) × (length stack.old ≡ 64) × ((b is "\"'") ≡ false) × ((b is "([{") ≡ true) }
    ensures { Keeps (see (clear (opens stack.old depth)) b) stack.new result }
{
    if 64 <= depth {
        return None;
    }
    stack[depth] = b;
    Some(Scan {
        quote: 0,
        depth: depth + 1,
    })
}

// A closing bracket outside of runs; nothing for an expression that is not clean.
fn close_bracket(b: u8, depth: usize, stack: &[u8; 64]) -> Option<Scan>
    requires { (depth ≤ 64) × (length stack.now ≡ 64) × ((b is "\"'") ≡ false) × ((b is "([{") ≡ false) × ((b is ")]}") ≡ true) }
    ensures { Keeps (see (clear (opens stack.now depth)) b) stack.now result }
{
    if depth == 0 {
        return None;
    }
    let less = depth - 1;
    if matches(u32::from(stack[less]), u32::from(b)) {
        Some(Scan {
            quote: 0,
            depth: less,
        })
    } else {
        None
    }
}

// One more byte outside of runs; nothing for an expression that is not clean.
fn see_clear(b: u8, depth: usize, stack: &mut [u8; 64]) -> Option<Scan>
    requires { (depth ≤ 64) × (length stack.old ≡ 64) }
    ensures { Keeps (see (clear (opens stack.old depth)) b) stack.new result }
{
    if is_quote(b) {
        return Some(Scan { quote: b, depth });
    }
    if is_opener(b) {
        return open_bracket(b, depth, stack);
    }
    if is_closer(b) {
        return close_bracket(b, depth, stack);
    }
    if b == b'\\' {
        return None;
    }
    Some(Scan { quote: 0, depth })
}

// One more byte that is of no pair; nothing for an expression that is not clean.
fn see_byte(b: u8, quote: u8, depth: usize, stack: &mut [u8; 64]) -> Option<Scan>
    requires { (depth ≤ 64) × (length stack.old ≡ 64) }
    ensures { Keeps (see (state_of stack.old quote depth) b) stack.new result }
{
    if quote == 0 {
        return see_clear(b, depth, stack);
    }
    if b == quote {
        return Some(Scan { quote: 0, depth });
    }
    Some(Scan { quote, depth })
}

// Whether `=` stands at an index.
fn is_equals(s: &[u8], i: usize) -> bool
    ensures { result ≡ byte s.now i is "=" }
{
    i < s.len() && s[i] == b'='
}

// Whether a byte outside of runs is the first of a pair.
fn is_pair(s: &[u8], i: usize, quote: u8) -> bool
    requires { i < length s.now }
    ensures { result ≡ (eqb quote 0 && byte s.now i is "!=><" && byte s.now (i + 1) is "=") }
{
    quote == 0 && is_first(s[i]) && is_equals(s, i + 1)
}

// Whether a byte that is of no pair ends the expression.
fn is_ending(b: u8, quote: u8, depth: usize) -> bool
    ensures { result ≡ (eqb quote 0 && eqb depth 0 && b is "!=:") }
{
    is_settled(quote, depth) && is_sign(b)
}

// Whether nothing is open.
fn is_settled(quote: u8, depth: usize) -> bool
    ensures { result ≡ (eqb quote 0 && eqb depth 0) }
{
    quote == 0 && depth == 0
}

// Whether an expression is clean.
pub fn is_clean(s: &[u8]) -> bool
    ensures { result ≡ clean false (clear []) s.now }
{
    let mut stack = [0u8; 64];
    let mut quote = 0;
    let mut depth = 0;
    let mut i = 0;
    // A step is a byte or a pair, so no `for` counts them.
    while i < s.len() {
        if is_pair(s, i, quote) {
            i = i + 1 + 1;
            continue;
        }
        let b = s[i];
        if is_ending(b, quote, depth) {
            return false;
        }
        let Some(next) = see_byte(b, quote, depth, &mut stack) else {
            return false;
        };
        quote = next.quote;
        depth = next.depth;
        i += 1;
    }
    is_settled(quote, depth)
}

// Whether each character of a text is Unicode's White_Space.
pub fn is_blank_text(s: &[u8]) -> bool
    ensures { result ≡ blank s.now }
{
    let mut at = 0;
    // A step is a character.
    while at < s.len() {
        let Step::Char(c, after) = (Cursor { at }).next_char(s) else {
            return true;
        };
        if !is_blank(c) {
            return false;
        }
        at = after.at;
    }
    true
}

// Whether a text has no brace.
pub fn is_braceless(s: &[u8]) -> bool
    ensures { result ≡ braceless s.now }
{
    let end = brace_from(s, 0);
    s.len() <= end
}
