// The row of 76: a word before a literal that may not stand there.
ghost use Rattle.std.specs.Prelude.{◌≡◌};
ghost use Rattle.definition_scripts.specs.Keywords.{word_start, may_stand};
ghost use Rattle.definition_scripts.specs.Listing.{unknown_row};
ghost use Rattle.found.specs.Found.{literal_of};
ghost use Rattle.told.specs.Rows.{Wrote};

use crate::{Told, put_refusal};
use found::Literal;
use numbering::Number;

// Whether what ends where a literal starts may stand there, of a word that begins at `word`; where there is none the word is not looked at.
fn stands(s: &[u8], start: usize, word: usize) -> bool
    requires { word ≡ word_start s.now start }
    ensures { result ≡ may_stand s.now start }
{
    word == start || words::may_stand(s, start)
}

// Writes the row of 76 of a literal, if it has one, behind so many rows. Says how many it writes, with room or without.
pub fn put_unknown(s: &[u8], l: Literal, within: u32, rows: &mut [u32], count: usize) -> usize
    ensures { Wrote (unknown_row s.now within (literal_of l)) rows.old rows.new count result }
{
    let start = l.start as usize;
    let word = words::word_start(s, start);
    if stands(s, start, word) {
        return 0;
    }
    let told = Told {
        start: l.start,
        place: word as u32,
        number: Number::UnknownPrefix as u32,
        a: 0,
        b: 0,
        opened: 0,
    };
    put_refusal(rows, count, within, told);
    1
}
