// A row's ten numbers written into a lent buffer at the row's place: what would stand past the end is left out.
#![tactic(auto)]

ghost use Rattle.std.specs.Prelude.{◌≡◌, ◌*◌, min};
ghost use Rattle.buffers.specs.Over.{over};
ghost use Rattle.row_numbers.specs.Numbers.{numbers_of};

use buffers::put_group;

// A field's row: the reason of its conversion, its literal's start, its place, its expression's length and its conversion, its signs, and the
// row in whose source its literal stands.
#[derive(Clone, Copy)]
pub struct Row {
    pub reason: u32,
    pub start: u32,
    pub place: u32,
    pub expression: u32,
    pub conversion: u32,
    pub equals: u32,
    pub bang: u32,
    pub colon: u32,
    pub close: u32,
    pub within: u32,
}

impl From<Row> for [u32; 10] {
    ghost from_gives = { λ r xs. xs ≡ numbers_of r };

    // The numbers in their order.
    fn from(r: Row) -> [u32; 10] {
        [
            r.reason,
            r.start,
            r.place,
            r.expression,
            r.conversion,
            r.equals,
            r.bang,
            r.colon,
            r.close,
            r.within,
        ]
    }
}

// Writes a row at its place; ten numbers make one.
pub fn put_row(rows: &mut [u32], place: usize, r: Row)
    ensures { rows.new ≡ over rows.old (place * 10) (numbers_of r) }
{
    put_group(rows, place, <[u32; 10]>::from(r));
}
