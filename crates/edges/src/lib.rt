// The edges of a field: whether one opens at a place, and where one ends behind its spec.
#![tactic(auto)]

ghost use Rattle.std.specs.Prelude.{◌≡◌, ◌<◌, length};
ghost use Rattle.texts.specs.Text.{Whether};
ghost use Rattle.edges.specs.Edges.{Opens, field_end};

use marks::{Refusal, Unclosed, refused_at, unclosed_brace};
use numbering::Number;
use utf8::{Cursor, Step};

// Whether a field opens at a place of a body, at depth 0: a `{` that is neither doubled nor the last character.
// Two guards, since each takes a character that the next one needs.
pub fn opens_field(s: &[u8], at: Cursor) -> bool
    ensures { Whether result ((at.at < length s.now) × Opens s.now at.at) (Opens s.now at.at → ⊥) }
{
    let Step::Char(c, after) = at.next_char(s) else {
        return false;
    };
    if c != '{' as u32 {
        return false;
    }
    let Step::Char(d, _) = after.next_char(s) else {
        return false;
    };
    d != '{' as u32
}

// Where a field ends, after its `}`, whose spec has ended at a cursor, at its `}` or at the body's end; or why it is refused there.
pub fn end_field(s: &[u8], at: Cursor, blank: bool) -> Result<Cursor, Refusal>
    ensures { result ≡ field_end s.now at.at blank }
{
    let Step::Char(_, after) = at.next_char(s) else {
        return Err(unclosed_brace(Unclosed::InField, at.at));
    };
    if blank {
        return Err(refused_at(Number::EmptyExpression as u32, after.at));
    }
    Ok(after)
}
