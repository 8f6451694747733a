// Rows counted depth first, where a buffer has no room for them.
ghost use Rattle.std.specs.Prelude.{◌≡◌, true, ◌+◌, ◌≤◌, ◌<◌, length};
ghost use Rattle.definition.specs.Numbers.{is_fstring};
ghost use Rattle.definition_scripts.specs.Cut.{cut_part};
ghost use Rattle.definition_scripts.specs.Listing.{unknown_row, read_rows, cut_rows, source_end, otherwise_row};
ghost use Rattle.escapes.specs.Answers.{naming};
ghost use Rattle.found.specs.Found.{literal_of};
ghost use Rattle.sources.specs.Source.{signs_of, row_of, Source};
ghost use Rattle.told.specs.Rows.{rows_in};
ghost use Rattle.listing.specs.Put.{Bounded};
ghost use Rattle.listing.specs.Count.{total, Found, Seen, Block};

use crate::rows::field_at;
use alone::{is_fstring, read_alone};
use found::{Broken, Literal, next_literal};
use names::Names;
use sources::{Field, source_end};
use told::{put_otherwise, put_unknown};

// How many rows a literal has in all, and how many are some of them with those of their sources.
#[derive(Clone, Copy)]
pub(crate) struct Window {
    pub(crate) all: usize,
    pub(crate) rows: usize,
}

// A field's own row, and that of 75 if it has one.
fn own_rows(s: &[u8], f: Field) -> usize
    requires { Source s.now f }
    ensures { result ≡ 1 + length (otherwise_row s.now 0 (row_of f) (cut_part s.now f.place (source_end (signs_of f)))) }
{
    let mut none = [0u32; 0];
    1 + put_otherwise(s, f, 0, &mut none, 0)
}

// The first rows of a block, with those of their sources.
#[cycle(count_block_count_literal_count_part_count_window)]
fn count_block(s: &[u8], block: &[u32], n: usize, names: &Names) -> usize
    requires { Block (naming names.now) s.now block.now n }
    ensures { result ≡ total (naming names.now) s.now (rows_in block.now 0 n) }
{
    let mut rows = 0;
    for i in 0..n {
        let f = field_at(block, i);
        let own = own_rows(s, f);
        let below = count_part(s, f.place as usize, source_end(f), names);
        rows += own + below;
    }
    rows
}

// Up to 128 rows of an f-string from a number on, with those of their sources.
#[cycle(count_block_count_literal_count_part_count_window)]
fn count_window(s: &[u8], l: Literal, seen: usize, names: &Names) -> Window
    requires { Found s.now (literal_of l) × (is_fstring l.kind ≡ true) × (seen < 4294967296) × (1 ≤ seen → seen < length (read_rows (naming names.now) s.now 0 (literal_of l))) }
    ensures { Seen (naming names.now) s.now (read_rows (naming names.now) s.now 0 (literal_of l)) seen result }
{
    let mut block = [0u32; 1280];
    match read_alone(s, l, 0, seen as u32, &mut block, names) {
        Err(_) => Window { all: 1, rows: 1 },
        Ok(n) => {
            let some = (n - seen).min(128);
            let rows = count_block(s, &block, some, names);
            Window { all: n, rows }
        }
    }
}

// The rows of a literal, with those of their sources. Only f-strings are read.
#[cycle(count_block_count_literal_count_part_count_window)]
fn count_literal(s: &[u8], l: Literal, names: &Names) -> usize
    requires { Found s.now (literal_of l) }
    ensures { result ≡ total (naming names.now) s.now (read_rows (naming names.now) s.now 0 (literal_of l)) }
{
    let mut rows = 0;
    let mut seen = 0;
    if is_fstring(l.kind) {
        // A step is a window of 128 rows.
        loop {
            let w = count_window(s, l, seen, names);
            rows += w.rows;
            seen += 128;
            if w.all <= seen {
                return rows;
            }
        }
    }
    rows
}

// A literal's row of 76, if it has one.
fn unknown_rows(s: &[u8], l: Literal) -> usize
    ensures { result ≡ length (unknown_row s.now 0 (literal_of l)) }
{
    let mut none = [0u32; 0];
    put_unknown(s, l, 0, &mut none, 0)
}

// The rows of a part of the script, with those of their sources.
#[cycle(count_block_count_literal_count_part_count_window)]
pub(crate) fn count_part(s: &[u8], from: usize, end: usize, names: &Names) -> usize
    requires { Bounded s.now from end 0 }
    ensures { result ≡ total (naming names.now) s.now (cut_rows (naming names.now) s.now 0 (cut_part s.now from end)) }
{
    let mut at = from;
    let mut rows = 0;
    // A step is a literal of the cut.
    loop {
        match next_literal(&s[..end], at) {
            Ok(Some(l)) => {
                let told = unknown_rows(s, l);
                let read = count_literal(s, l, names);
                rows += told + read;
                at = l.end as usize;
            }
            Ok(None) => return rows,
            Err(Broken::Literal(_)) => return rows + 1,
            Err(Broken::TooLong) => return rows,
        }
    }
}
