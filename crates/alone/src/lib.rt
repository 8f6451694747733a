// A literal that is read alone, and its rows written behind so many: those of its fields, or its refusal, with 76 before them.
#![tactic(auto)]

ghost use Rattle.std.specs.Prelude.{◌≡◌, true, ◌<◌};
ghost use Rattle.definition.specs.Numbers.{is_fstring};
ghost use Rattle.definition_scripts.specs.Listing.{read_rows, own_rows};
ghost use Rattle.escapes.specs.Answers.{naming};
ghost use Rattle.found.specs.Found.{literal_of};
ghost use Rattle.alone.specs.Puts.{AloneIs, Puts, Front};

use answers::Outcome;
use found::Literal;
use names::Names;
use strings::parse_window;
use told::{Told, put_refusal, put_rows, put_unknown};

// Whether literals of a kind are read: f-strings.
pub fn is_fstring(kind: u32) -> bool
    ensures { result ≡ is_fstring kind }
{
    matches!(kind, 1 | 4)
}

// Reads an f-string alone: how many fields it has, or its refusal. The rows of its fields from number `skip` on are written, as far as there is room.
fn read_fstring(
    s: &[u8],
    l: Literal,
    within: u32,
    skip: u32,
    rows: &mut [u32],
    names: &Names,
) -> Result<usize, Told>
    requires { is_fstring l.kind ≡ true }
    ensures { AloneIs (naming names.now) s.now (literal_of l) within skip rows.old rows.new result }
{
    let numbers = [l.kind, l.triple, l.offset, l.size, l.start, l.end];
    match parse_window(s, &numbers, within, skip, rows, names) {
        Outcome::Accepted(x) => Ok(x.records as usize),
        Outcome::Refused(r) => Err(Told {
            start: l.start,
            place: r.place,
            number: r.number,
            a: r.a,
            b: r.b,
            opened: r.opened,
        }),
    }
}

// Reads a literal alone, if it is an f-string, in the same way. Any other has no field.
pub fn read_alone(
    s: &[u8],
    l: Literal,
    within: u32,
    skip: u32,
    rows: &mut [u32],
    names: &Names,
) -> Result<usize, Told>
    ensures { AloneIs (naming names.now) s.now (literal_of l) within skip rows.old rows.new result }
{
    if is_fstring(l.kind) {
        read_fstring(s, l, within, skip, rows, names)
    } else {
        Ok(0)
    }
}

// Writes the rows of an f-string behind so many: its fields, or its one refusal. Says how many there are then. It is read once up to 8 fields, and above them once more.
fn fstring_rows(
    s: &[u8],
    l: Literal,
    within: u32,
    rows: &mut [u32],
    count: usize,
    names: &Names,
) -> usize
    requires { (is_fstring l.kind ≡ true) × (count < 4294967297) }
    ensures { Puts (read_rows (naming names.now) s.now within (literal_of l)) rows.old rows.new count result × Front (read_rows (naming names.now) s.now within (literal_of l)) rows.old rows.new count }
{
    let mut block = [0u32; 80];
    match read_fstring(s, l, within, 0, &mut block, names) {
        Err(t) => {
            put_refusal(rows, count, within, t);
            count + 1
        }
        Ok(n) => {
            let to = count + n;
            if n <= 8 {
                put_rows(rows, count, &block[..n * 10]);
                return to;
            }
            if rows.len() / 10 < to {
                return to;
            }
            let part = &mut rows[count * 10..to * 10];
            let _ = read_fstring(s, l, within, 0, part, names);
            to
        }
    }
}

// Writes the rows of a literal behind so many. Only f-strings are read.
pub fn literal_rows(
    s: &[u8],
    l: Literal,
    within: u32,
    rows: &mut [u32],
    count: u32,
    names: &Names,
) -> usize
    ensures { Puts (own_rows (naming names.now) s.now within (literal_of l)) rows.old rows.new count result × Front (own_rows (naming names.now) s.now within (literal_of l)) rows.old rows.new count }
{
    let before = count as usize;
    let past = before + put_unknown(s, l, within, rows, before);
    if is_fstring(l.kind) {
        return fstring_rows(s, l, within, rows, past, names);
    }
    past
}
