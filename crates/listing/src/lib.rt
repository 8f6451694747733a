// Every field of a whole script: its rows, level by level.
#![tactic(auto)]

mod count;
mod rows;

ghost use Rattle.std.specs.Prelude.{◌≡◌, ◌≤◌, length};
ghost use Rattle.definition_scripts.specs.Listing.{fields_into};
ghost use Rattle.definition.specs.Escapes.{held_names};
ghost use Rattle.definition_names.specs.Names.{searched};
ghost use Rattle.definition_names.specs.NamedReading.{fields_named_into};
ghost use Rattle.escapes.specs.Answers.{naming};
ghost use Rattle.listing.specs.Answers.{Filled, CallIs};

use answers::{List, Unlisted};
use count::count_part;
use found::MOST_BYTES;
use names::{HELD, NO_NAMES, Names};
use rows::{Part, cut_rows, source_rows};
use told::refusals_in;

// The rows of the script's cut and then those of the source of each row, as long as there is room.
// A `while`, since each row's source adds rows to those that it goes over.
fn fill(script: &[u8], rows: &mut [u32], names: &Names) -> Part
    requires { length script.now ≤ 1048576 }
    ensures { Filled (naming names.now) script.now rows.old rows.new result }
{
    let room = rows.len() / 10;
    let first = cut_rows(script, 0, script.len(), 0, rows, 0, names);
    let mut count = first.count;
    let mut i = 0;
    while i < count {
        if room < count {
            return Part { count, ..first };
        }
        count = source_rows(script, rows, i, count, names);
        i += 1;
    }
    Part { count, ..first }
}

// Lists every field of a script that is not too long: names are looked up in a lent file by its index, or where that is empty among the held ones.
fn list_by(script: &[u8], rows: &mut [u32], names: &Names) -> Result<List, Unlisted>
    requires { length script.now ≤ 1048576 }
    ensures { CallIs (fields_into (naming names.now) script.now rows.old) rows.new result }
{
    let filled = fill(script, rows, names);
    let count = filled.count;
    if rows.len() / 10 < count {
        buffers::fill(rows, 0);
        let needed = count_part(script, 0, script.len(), names) as u32;
        return Err(Unlisted::Short(needed));
    }
    Ok(List {
        rows: count as u32,
        refusals: refusals_in(&rows[..count * 10]) as u32,
        literals: filled.literals,
        to: filled.to,
    })
}

// Lists every field of a script, ten numbers for each row.
pub fn list_fields(script: &[u8], rows: &mut [u32]) -> Result<List, Unlisted>
    ensures { CallIs (fields_into held_names script.now rows.old) rows.new result }
{
    if MOST_BYTES < script.len() {
        buffers::fill(rows, 0);
        return Err(Unlisted::TooLong);
    }
    list_by(script, rows, &HELD)
}

// The same, with names searched in a file by whatever index is lent.
fn list_searched(
    script: &[u8],
    rows: &mut [u32],
    file: &[u8],
    index: &[u32],
) -> Result<List, Unlisted>
    requires { length script.now ≤ 1048576 }
    ensures { CallIs (fields_into (searched file.now index.now) script.now rows.old) rows.new result }
{
    if file.is_empty() {
        let file = &NO_NAMES;
        return list_by(script, rows, &Names { file, index });
    }
    list_by(script, rows, &Names { file, index })
}

// Lists them as `list_fields` does, with the names of a file, which is checked with its index once.
// File and index apart, as the C interface has them.
pub fn list_named(
    script: &[u8],
    file: &[u8],
    index: &[u32],
    rows: &mut [u32],
) -> Result<List, Unlisted>
    ensures { CallIs (fields_named_into file.now index.now script.now rows.old) rows.new result }
{
    if MOST_BYTES < script.len() {
        buffers::fill(rows, 0);
        return Err(Unlisted::TooLong);
    }
    match names::check(file, index) {
        Err(e) => {
            buffers::fill(rows, 0);
            Err(Unlisted::WrongNames(u32::from(e)))
        }
        Ok(_) => list_searched(script, rows, file, index),
    }
}
