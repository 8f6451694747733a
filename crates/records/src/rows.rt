// A field's row, written once the field has ended.
ghost use Rattle.std.specs.Prelude.{◌≡◌, ℕ, ◌+◌};
ghost use Rattle.definition.specs.Body.{signs};
ghost use Rattle.definition.specs.Rows.{reason as reason_of, sign_at, row_numbers};
ghost use Rattle.records.specs.Counts.{word as word_of};
ghost use Rattle.records.specs.Rows.{row_of, windowed};

use crate::{Frame, Head, place_in, word};
use marks::conversion_of;
use row_numbers::{Row, put_row};

// The reason of a conversion, by a field's signs; 0 stands for none.
fn reason_of(equals: u32, bang: u32, colon: u32) -> u32
    ensures { (close : ℕ) → result ≡ reason_of (signs equals bang colon close) }
{
    if bang != 0 {
        1
    } else if equals == 0 {
        2
    } else if colon == 0 {
        3
    } else {
        4
    }
}

// A sign's place in the script, where the body begins at `base`; 0 stays 0.
fn sign_at(base: u32, taken: usize) -> u32
    ensures { result ≡ word_of (sign_at base taken) }
{
    if taken == 0 { 0 } else { place_in(base, taken) }
}

// Writes the row of a field that began at `at`, with an expression of so many bytes, at its place; if that is not lent, nothing is worked out.
pub fn put_signs(
    rows: &mut [u32],
    fields: usize,
    fr: Frame,
    h: Head,
    size: usize,
    parts: u32,
    at: usize,
    colon: usize,
    close: usize,
)
    ensures { rows.new ≡ windowed fr.window fields (row_numbers fr.window.within (row_of fr h size parts at colon close)) rows.old }
{
    if rows.is_empty() {
        return;
    }
    let skip = fr.window.skip as usize;
    if fields < skip {
        return;
    }
    let equals = sign_at(fr.base, h.equals);
    let bang = sign_at(fr.base, h.bang);
    let spec = sign_at(fr.base, colon);
    let end = sign_at(fr.base, close);
    let row = Row {
        reason: reason_of(equals, bang, spec),
        start: fr.start,
        place: place_in(fr.base, at),
        expression: word(size),
        conversion: conversion_of(0 < h.equals, h.conversion, parts),
        equals,
        bang,
        colon: spec,
        close: end,
        within: fr.window.within,
    };
    put_row(rows, fields - skip, row);
}
