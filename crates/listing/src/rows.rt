// The rows of a cut and of a row's source, written behind those before as long as there is room.
ghost use Rattle.std.specs.Prelude.{◌≡◌, ◌+◌, ◌*◌, ◌≤◌, length};
ghost use Rattle.definition_scripts.specs.Listing.{source_rows};
ghost use Rattle.escapes.specs.Answers.{naming};
ghost use Rattle.told.specs.Rows.{row_at, field_of};
ghost use Rattle.alone.specs.Puts.{Puts};
ghost use Rattle.listing.specs.Put.{PartIs, Lies, Bounded};

use alone::literal_rows;
use found::{Broken, next_literal};
use names::Names;
use numbering::Reason;
use sources::{Field, source_end};
use told::{Told, put_otherwise, put_refusal};

const REFUSAL: u32 = Reason::Refusal as u32;

// How many rows there are after a part was cut, how many literals it has, and how far it was cut.
#[derive(Clone, Copy)]
pub(crate) struct Part {
    pub(crate) count: usize,
    pub(crate) literals: u32,
    pub(crate) to: u32,
}

// Writes the rows of the cut of a part of the script.
pub(crate) fn cut_rows(
    s: &[u8],
    from: usize,
    end: usize,
    within: u32,
    rows: &mut [u32],
    count: usize,
    names: &Names,
) -> Part
    requires { Bounded s.now from end count }
    ensures { PartIs (naming names.now) s.now from end within rows.old rows.new count result }
{
    let mut at = from;
    let mut done = count;
    let mut literals: u32 = 0;
    // A step is a literal of the cut, found from the end of the one before.
    loop {
        match next_literal(&s[..end], at) {
            Ok(Some(l)) => {
                done = literal_rows(s, l, within, rows, done as u32, names);
                literals += 1;
                at = l.end as usize;
            }
            Ok(None) => {
                return Part {
                    count: done,
                    literals,
                    to: end as u32,
                };
            }
            Err(Broken::Literal(r)) => {
                let told = Told {
                    start: r.place,
                    place: r.place,
                    number: r.number,
                    a: 0,
                    b: 0,
                    opened: 0,
                };
                put_refusal(rows, done, within, told);
                return Part {
                    count: done + 1,
                    literals,
                    to: r.place,
                };
            }
            Err(Broken::TooLong) => {
                return Part {
                    count: done,
                    literals,
                    to: end as u32,
                };
            }
        }
    }
}

// The field of a row that is written.
pub(crate) fn field_at(rows: &[u32], i: usize) -> Field
    requires { i * 10 + 10 ≤ length rows.now }
    ensures { result ≡ field_of rows.now i }
{
    let at = i * 10;
    Field {
        start: rows[at + 1],
        place: rows[at + 2],
        equals: rows[at + 5],
        bang: rows[at + 6],
        colon: rows[at + 7],
        close: rows[at + 8],
    }
}

// Writes the rows of the source of row number i, from 0.
pub(crate) fn source_rows(
    s: &[u8],
    rows: &mut [u32],
    i: usize,
    count: usize,
    names: &Names,
) -> usize
    requires { Lies s.now rows.old i count }
    ensures { Puts (source_rows (naming names.now) s.now (i + 1) (row_at rows.old i)) rows.old rows.new count result }
{
    let at = i * 10;
    if rows[at] == REFUSAL {
        return count;
    }
    let f = field_at(rows, i);
    let within = (i + 1) as u32;
    let behind = count + put_otherwise(s, f, within, rows, count);
    let part = cut_rows(
        s,
        f.place as usize,
        source_end(f),
        within,
        rows,
        behind,
        names,
    );
    part.count
}
