// The specs that are open at a record of a body written back, what reads back in them, and which bytes are doubled outside.
#![tactic(auto)]

ghost use Rattle.std.specs.Prelude.{◌≡◌, false, ◌&&◌, ◌≤◌, ◌-◌, eqb};
ghost use Rattle.definition.specs.Chars.{◌is◌, byte};
ghost use Rattle.definition_written.specs.ReadsBack.{text_reads, field_reads};
ghost use Rattle.definition_written.specs.Passes.{drained, took_text, took_field};
ghost use Rattle.opens.specs.Opens.{where_of, os_of};

use expressions::{is_blank_text, is_braceless, is_clean};

// The specs that are open, at most two: the parts of the inner one that are to come, whether a field came in it, and the same of the outer one.
#[derive(Clone, Copy)]
pub struct Opens {
    pub depth: usize,
    pub left: u32,
    pub late: bool,
    pub outer: u32,
    pub behind: bool,
}

// A field stands at a depth below this.
const DEEPEST: usize = 2;

// At the top.
// A value, which no test compares with.
pub const NONE_OPEN: Opens = Opens {
    depth: 0,
    left: 0,
    late: false,
    outer: 0,
    behind: false,
};

// Without the specs that have all their parts.
pub fn drain(o: Opens) -> Opens
    ensures { (os_of result ≡ drained (os_of o)) × (result.depth ≤ o.depth) }
{
    if o.depth == 0 || o.left != 0 {
        return o;
    }
    if o.depth == 1 || o.outer == 0 {
        return NONE_OPEN;
    }
    Opens {
        depth: 1,
        left: o.outer,
        late: o.behind,
        ..NONE_OPEN
    }
}

// One part fewer, after a text.
pub fn took_text(o: Opens) -> Opens
    ensures { (os_of result ≡ took_text (os_of o)) × (result.depth ≡ o.depth) × (result.late ≡ o.late) }
{
    Opens {
        left: o.left.saturating_sub(1),
        ..o
    }
}

// One part fewer, after a field.
pub fn took_field(o: Opens) -> Opens
    ensures { (os_of result ≡ took_field (os_of o)) × (result.depth ≡ o.depth) }
{
    Opens {
        left: o.left.saturating_sub(1),
        late: true,
        ..o
    }
}

// Whether a text reads back where it stands.
pub fn text_reads(text: &[u8], depth: usize, late: bool) -> bool
    ensures { result ≡ text_reads (where_of depth late) text.now }
{
    depth == 0 || late || is_braceless(text)
}

// Whether a brace stands first.
fn begins_brace(text: &[u8]) -> bool
    ensures { result ≡ byte text.now 0 is "{" }
{
    matches!(text, [b'{', ..])
}

// Whether a field's expression may not begin as it does: at the top, with a brace.
fn begins_badly(text: &[u8], depth: usize) -> bool
    ensures { result ≡ (eqb depth 0 && byte text.now 0 is "{") }
{
    depth == 0 && begins_brace(text)
}

// Whether a field reads back in a text so deep.
pub fn field_reads(text: &[u8], depth: usize) -> bool
    ensures { result ≡ field_reads depth (where_of depth false) text.now }
{
    depth < DEEPEST && !begins_badly(text, depth) && is_clean(text) && !is_blank_text(text)
}

// Whether a byte is doubled at the top.
pub fn is_doubled(b: u8) -> bool
    ensures { result ≡ b is "{}\\" }
{
    matches!(b, b'{' | b'}' | b'\\')
}
