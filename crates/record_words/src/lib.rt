// A record's eight words written into a lent buffer at the record's place: what would stand past the end is left out.
#![tactic(auto)]

ghost use Rattle.std.specs.Prelude.{◌≡◌, ◌*◌, ◌≤◌, min, length};
ghost use Rattle.buffers.specs.Over.{over};
ghost use Rattle.record_words.specs.Words.{words_of};

use buffers::put_group;

// A record's eight words; a literal has its u mark in place of a conversion.
#[derive(Clone, Copy)]
pub struct Record {
    pub kind: u32,
    pub offset: u32,
    pub length: u32,
    pub start: u32,
    pub end: u32,
    pub conversion: u32,
    pub parts: u32,
    pub place: u32,
}

impl From<Record> for [u32; 8] {
    ghost from_gives = { λ r xs. xs ≡ words_of r };

    // The words in their order.
    fn from(r: Record) -> [u32; 8] {
        [
            r.kind,
            r.offset,
            r.length,
            r.start,
            r.end,
            r.conversion,
            r.parts,
            r.place,
        ]
    }
}

// Writes a record at a record place; eight words make one.
pub fn put_record(words: &mut [u32], place: usize, r: Record)
    ensures { words.new ≡ over words.old (place * 8) (words_of r) }
{
    put_group(words, place, <[u32; 8]>::from(r));
}
