// Where a token of a body of kind 1 ends: a character, an escape, `{{`, `}}`, a field; a backslash that stays before a brace goes with what follows. Whether a body is well-formed.
#![tactic(auto)]

ghost use Rattle.std.specs.Prelude.{◌≡◌, ◌≤◌, leb, length, if◌then◌else◌};
ghost use Rattle.definition.specs.Chars.{next, well_formed};
ghost use Rattle.definition_cuts.specs.Tokens.{move_end, staying};
ghost use Rattle.utf8.proofs.Steps.{Stepped};
ghost use Rattle.tokens.specs.Tokens.{EndIs, TokenIs};

use bodies::field_end;
use texts::{NoEnd, escape_end};
use utf8::{Cursor, Step};

// Why no token ends: it is refused, or none stands there; or the body is over the size limit.
#[derive(Clone, Copy, PartialEq, Eq)]
pub enum NoToken {
    Refused,
    TooLong,
}

impl From<NoEnd> for NoToken {
    ghost use Rattle.tokens.specs.Tokens.{of_end};

    ghost from_gives = { λ e t. t ≡ of_end e };

    fn from(e: NoEnd) -> NoToken {
        match e {
            NoEnd::Refused | NoEnd::Nowhere => NoToken::Refused,
            NoEnd::TooLong => NoToken::TooLong,
        }
    }
}

const LARGEST_BODY: usize = 1048576;

// At a `{`, which was just taken: doubled it is one; as the last character it is refused; else a field opens.
fn left_end(s: &[u8], from: Cursor, after: Cursor) -> Result<usize, NoToken>
    requires { Stepped s.now from.at 0x7B after × (length s.now ≤ 1048576) }
    ensures { EndIs (move_end s.now from.at) result }
{
    let Step::Char(c, past) = after.next_char(s) else {
        return Err(NoToken::Refused);
    };
    if c == 0x7B {
        return Ok(past.at);
    }
    Ok(field_end(s, from.at)?)
}

// At a `}`, which was just taken: doubled it is one; else it is refused.
fn right_end(s: &[u8], from: Cursor, after: Cursor) -> Result<usize, NoToken>
    requires { Stepped s.now from.at 0x7D after }
    ensures { EndIs (move_end s.now from.at) result }
{
    let Step::Char(c, past) = after.next_char(s) else {
        return Err(NoToken::Refused);
    };
    if c == 0x7D {
        Ok(past.at)
    } else {
        Err(NoToken::Refused)
    }
}

// At a backslash, which was just taken: it stays before a brace; else an escape.
fn backslash_end(s: &[u8], from: Cursor, after: Cursor) -> Result<usize, NoToken>
    requires { Stepped s.now from.at 0x5C after × (length s.now ≤ 1048576) }
    ensures { EndIs (move_end s.now from.at) result }
{
    match after.peek(s) {
        0x7B | 0x7D => Ok(after.at),
        _ => Ok(escape_end(s, from.at)?),
    }
}

// What is read at a cursor in one step.
fn move_end(s: &[u8], from: Cursor) -> Result<usize, NoToken>
    requires { length s.now ≤ 1048576 }
    ensures { EndIs (move_end s.now from.at) result }
{
    let Step::Char(c, after) = from.next_char(s) else {
        return Err(NoToken::Refused);
    };
    match c {
        0x7B => left_end(s, from, after),
        0x7D => right_end(s, from, after),
        0x5C => backslash_end(s, from, after),
        _ => Ok(after.at),
    }
}

// After a backslash that stays before a brace; else where it was.
fn past_staying(s: &[u8], from: Cursor) -> Cursor
    ensures { result.at ≡ (if staying s.now from.at then next s.now from.at else from.at) }
{
    match from.next_char(s) {
        Step::Char(0x5C, after) => match after.peek(s) {
            0x7B | 0x7D => after,
            _ => from,
        },
        _ => from,
    }
}

// Where the token at an index of a body of kind 1 ends.
pub fn token_end(s: &[u8], at: usize) -> Result<usize, NoToken>
    ensures { TokenIs s.now at result }
{
    if LARGEST_BODY < s.len() {
        return Err(NoToken::TooLong);
    }
    let from = past_staying(s, Cursor { at });
    move_end(s, from)
}

// Whether a body is well-formed.
pub fn is_formed(s: &[u8]) -> bool
    ensures { result ≡ leb (length s.now) (well_formed s.now) }
{
    let prefix = prefixes::well_formed(s);
    s.len() <= prefix.len
}
