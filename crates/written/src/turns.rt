// What each record does to the specs that are open, and what is written at it.
ghost use Rattle.std.specs.Prelude.{◌≡◌, ◌∷◌, ◌≤◌, ◌+◌, ◌-◌, ◌^◌, length};
ghost use Rattle.definition.specs.Records.{Record};
ghost use Rattle.definition_written.specs.Written.{early};
ghost use Rattle.definition_written.specs.Passes.{opened};
ghost use Rattle.opens.specs.Opens.{os_of};
ghost use Rattle.written.specs.Turns.{piece_of, Holds, TurnsTo};
ghost use Rattle.written.specs.Puts.{Puts};

use crate::spell::{put_closers, put_field, put_text};
use formed::Head;
use opens::{Opens, drain, field_reads, text_reads, took_field, took_text};

// One spec more.
fn push(o: Opens, parts: u32) -> Opens
    requires { o.depth ≤ 1 }
    ensures { (os_of result ≡ opened parts early ∷ os_of o) × (result.depth ≡ o.depth + 1) }
{
    Opens {
        depth: o.depth + 1,
        left: parts,
        late: false,
        outer: o.left,
        behind: o.late,
    }
}

// What a record does to the open specs; nothing for what does not read back.
pub(crate) fn turn(text: &[u8], h: Head, o: Opens) -> Option<Opens>
    requires { (o.depth ≤ 2) × (h.kind ≡ 3 → o.depth ≤ 1) × (h.offset + h.size ≤ length text.now) }
    ensures { (r : Record) → Holds r h → TurnsTo text.now o r result }
{
    if h.kind == 3 {
        return Some(push(o, h.parts));
    }
    let d = drain(o);
    let from = h.offset as usize;
    let to = from + h.size as usize;
    if h.kind == 1 {
        if text_reads(&text[from..to], d.depth, d.late) {
            return Some(took_text(d));
        }
        return None;
    }
    if field_reads(&text[from..to], d.depth) {
        return Some(took_field(d));
    }
    None
}

// Writes what is written at a record, by how deep it stands before and after.
pub(crate) fn put_record(
    body: &mut [u8],
    used: usize,
    text: &[u8],
    h: Head,
    before: usize,
    after: usize,
    late: bool,
) -> usize
    requires { (before ≤ 2) × (h.offset + h.size ≤ length text.now) × ((h.kind ≡ 1 → ⊥) → (h.kind ≡ 3 → ⊥) → h.mode ≤ 255) × (used ≤ 2 ^ 20) }
    ensures { (r : Record) → Holds r h → Puts body.old used (piece_of text.now r before after late) body.new result }
{
    if h.kind == 3 {
        return used;
    }
    let closed = before.saturating_sub(after);
    let from = h.offset as usize;
    let to = from + h.size as usize;
    let next = put_closers(body, used, closed);
    if h.kind == 1 {
        return put_text(body, next, &text[from..to], after, late);
    }
    put_field(body, next, &text[from..to], h.mode as u8, h.parts)
}
