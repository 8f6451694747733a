// The rows of refusals, and rows counted and copied.
#![tactic(auto)]

mod otherwise;
mod unknown;

ghost use Rattle.std.specs.Prelude.{◌≡◌, ◌*◌, ◌/◌, ◌≤◌, length};
ghost use Rattle.definition_scripts.specs.Listing.{ten_of, refusals_in};
ghost use Rattle.buffers.specs.Over.{over};
ghost use Rattle.told.specs.Rows.{refusal_row, rows_in, refusal};

use buffers::put_run;
use numbering::Reason;
pub use otherwise::put_otherwise;
use row_numbers::{Row, put_row};
pub use unknown::put_unknown;

const REFUSAL: u32 = Reason::Refusal as u32;

// Why a literal or a field is refused, and where.
#[derive(Clone, Copy)]
pub struct Told {
    pub start: u32,
    pub place: u32,
    pub number: u32,
    pub a: u32,
    pub b: u32,
    pub opened: u32,
}

// Writes a refusal's row at its place.
pub fn put_refusal(rows: &mut [u32], count: usize, within: u32, t: Told)
    ensures { rows.new ≡ over rows.old (count * 10) (ten_of (refusal_row within t)) }
{
    let row = Row {
        reason: REFUSAL,
        start: t.start,
        place: t.place,
        expression: t.number,
        conversion: t.a,
        equals: t.b,
        bang: t.opened,
        colon: 0,
        close: 0,
        within,
    };
    put_row(rows, count, row);
}

// Writes the numbers of rows behind so many rows, as far as there is room.
pub fn put_rows(rows: &mut [u32], count: usize, numbers: &[u32])
    ensures { rows.new ≡ over rows.old (count * 10) numbers.now }
{
    if count <= rows.len() / 10 {
        put_run(&mut rows[count * 10..], numbers);
    }
}

// 1 for the first number of a refusal's row, else 0.
fn refusal(first: u32) -> usize
    ensures { (result ≡ refusal first) × (result ≤ 1) }
{
    usize::from(first == REFUSAL)
}

// How many of the rows in a list are refusals.
pub fn refusals_in(rows: &[u32]) -> usize
    ensures { result ≡ refusals_in (rows_in rows.now 0 (length rows.now / 10)) }
{
    let mut n = 0;
    for i in 0..rows.len() / 10 {
        n += refusal(rows[i * 10]);
    }
    n
}
