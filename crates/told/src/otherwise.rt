// The row of 75: where Python reads a field otherwise.
ghost use Rattle.told.specs.Rows.{Wrote, told_otherwise};

use crate::{Told, put_refusal};
use numbering::Number;
use sources::{Field, otherwise};

// Writes the row of 75 of a field, if it has one, behind so many rows. Says how many it writes, with room or without.
pub fn put_otherwise(s: &[u8], f: Field, within: u32, rows: &mut [u32], count: usize) -> usize
    ensures { Wrote (told_otherwise s.now within f) rows.old rows.new count result }
{
    let place = otherwise(s, f);
    if s.len() <= place {
        return 0;
    }
    let told = Told {
        start: f.start,
        place: place as u32,
        number: Number::ReadOtherwise as u32,
        a: 0,
        b: 0,
        opened: 0,
    };
    put_refusal(rows, count, within, told);
    1
}
