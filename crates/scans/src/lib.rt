// What is looked for in a script: what opens a literal and where it closes, and the ends of lines and comments.
#![tactic(auto)]

ghost use Rattle.std.specs.Prelude.{◌≡◌, ◌<◌, length};
ghost use Rattle.definition_scripts.specs.Opening.{one_letter, two_letters, opens, tripled, quotes_at, line_end, first_at};
ghost use Rattle.definition_scripts.specs.Literals.{body_case, closing};
ghost use Rattle.definition_scripts.specs.Cut.{comment_end};
ghost use Rattle.scans.specs.Scans.{Known, kind_of, number_of, third_of, case_of, closing_of, cut_mark};

use numbering::Number;
use searches::first_of;
use words::byte_at;

// What stands at an index of a body: nothing more, a backslash with what it takes, the closing quotes, a newline that may not stand there, or any other byte.
#[derive(Clone, Copy)]
pub(crate) enum BodyCase {
    Over,
    Takes,
    Closes,
    Breaks,
    Plain,
}

// Why a body has no closing quotes: the script ends before them, or a newline stands there that may not.
#[derive(Clone, Copy, PartialEq, Eq)]
pub enum Unclosed {
    NeverClosed,
    Newline,
}

// The number of the refusal.
impl From<Unclosed> for u32 {
    ghost from_gives = { λ e n. n ≡ number_of e };

    fn from(e: Unclosed) -> u32 {
        match e {
            Unclosed::NeverClosed => Number::NeverClosed as u32,
            Unclosed::Newline => Number::NewlineInLiteral as u32,
        }
    }
}

// The kind that a prefix of one letter says.
#[tactic(auto, unfolding(definition_scripts::specs::Opening::one_letter))]
fn one_letter(a: u8) -> Option<u32>
    ensures kind { kind_of result ≡ one_letter a }
    ensures known { Known result }
{
    match a {
        b'f' | b'F' => Some(1),
        b'b' | b'B' => Some(2),
        b'r' | b'R' => Some(3),
        b'u' | b'U' => Some(6),
        _ => None,
    }
}

// The kind that a prefix of two letters says.
#[tactic(auto, unfolding(definition_scripts::specs::Opening::two_letters))]
fn two_letters(a: u8, b: u8) -> Option<u32>
    ensures kind { kind_of result ≡ two_letters a b }
    ensures known { Known result }
{
    match (a, b) {
        (b'f' | b'F', b'r' | b'R') | (b'r' | b'R', b'f' | b'F') => Some(4),
        (b'b' | b'B', b'r' | b'R') | (b'r' | b'R', b'b' | b'B') => Some(5),
        _ => None,
    }
}

// The kind of the literal that opens at an index, if one does.
#[tactic(auto, unfolding(definition_scripts::specs::Opening::opens))]
pub fn opens(s: &[u8], at: usize) -> Option<u32>
    ensures kind { kind_of result ≡ opens s.now at }
    ensures known { Known result }
{
    match s.get(at..)? {
        [b'\'' | b'"', ..] => Some(0),
        [a, b'\'' | b'"', ..] => one_letter(*a),
        [a, b, b'\'' | b'"', ..] => two_letters(*a, *b),
        _ => None,
    }
}

// The flag of the quotes that begin at an index: 1 if three equal ones stand there.
#[tactic(auto, unfolding(definition_scripts::specs::Opening::tripled))]
pub fn tripled(s: &[u8], at: u32) -> u32
    ensures { result ≡ tripled s.now at }
{
    let at = at as usize;
    let quote = byte_at(s, at);
    u32::from(byte_at(s, at + 1) == quote && byte_at(s, at + 2) == quote)
}

// Whether a literal's quotes stand at an index.
#[tactic(auto, unfolding(definition_scripts::specs::Opening::quotes_at))]
fn quotes_at(s: &[u8], quote: u8, triple: u32, at: usize) -> bool
    requires { at < length s.now }
    ensures { result ≡ quotes_at s.now quote triple at }
{
    let quote = u32::from(quote);
    byte_at(s, at) == quote
        && (triple != 1 || byte_at(s, at + 1) == quote && byte_at(s, at + 2) == quote)
}

// What stands at an index of a body.
#[tactic(auto, unfolding(definition_scripts::specs::Literals::body_case))]
fn body_case(s: &[u8], quote: u8, triple: u32, at: usize) -> BodyCase
    ensures { case_of result ≡ body_case s.now quote triple at }
{
    match s.get(at) {
        None => BodyCase::Over,
        Some(b'\\') => BodyCase::Takes,
        Some(_) if quotes_at(s, quote, triple, at) => BodyCase::Closes,
        Some(b'\n') if triple != 1 => BodyCase::Breaks,
        Some(_) => BodyCase::Plain,
    }
}

// The third byte that a body's scan stops at, beside the quote and the backslash: the newline if it may not stand there.
fn third(quote: u8, triple: u32) -> u8
    ensures { result ≡ third_of quote triple }
{
    if triple == 1 { quote } else { b'\n' }
}

// Where the closing quotes of the body that begins at an index stand.
pub fn closing_from(s: &[u8], quote: u8, triple: u32, from: usize) -> Result<usize, Unclosed>
    ensures { closing_of result ≡ closing s.now quote triple from }
{
    if s.len() < from {
        return Err(Unclosed::NeverClosed);
    }
    let third = third(quote, triple);
    let mut at = from;
    // A step is what stands at the next byte that a body stops at.
    loop {
        let to = first_of(s, at, quote, b'\\', third);
        match body_case(s, quote, triple, to) {
            BodyCase::Over => return Err(Unclosed::NeverClosed),
            BodyCase::Takes => at = to + 2,
            BodyCase::Closes => return Ok(to),
            BodyCase::Breaks => return Err(Unclosed::Newline),
            BodyCase::Plain => at = to + 1,
        }
    }
}

// The index of the first newline from an index on, or the end.
pub fn line_end(s: &[u8], from: usize) -> usize
    ensures { result ≡ line_end s.now from }
{
    first_of(s, from, b'\n', b'\n', b'\n')
}

// The index of the first byte 10 or 13 from an index on, or the end.
pub fn comment_end(s: &[u8], from: usize) -> usize
    ensures { result ≡ comment_end s.now from }
{
    first_of(s, from, b'\n', b'\r', b'\r')
}

// The index of the first quote or `#` from an index on, or the end.
pub fn mark_from(s: &[u8], from: usize) -> usize
    ensures { result ≡ first_at cut_mark s.now from }
{
    first_of(s, from, b'\'', b'"', b'#')
}
