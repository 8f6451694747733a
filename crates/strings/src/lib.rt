// String literals read to records and one text: the first refusal, or all records in order.
#![tactic(auto)]

ghost use Rattle.std.specs.Prelude.{◌≡◌, List, ℕ, ◌/◌, ◌≤◌, length, if◌then◌else◌};
ghost use Rattle.definition.specs.Numbers.{is_bytes};
ghost use Rattle.definition.specs.Escapes.{Naming, held_names};
ghost use Rattle.definition.specs.Entry.{any_of, refusal as a_refusal};
ghost use Rattle.definition.specs.Reading.{sort_of, sort_number, read_numbers, zeros};
ghost use Rattle.definition.specs.Rows.{signs_numbers};
ghost use Rattle.definition_names.specs.Names.{searched};
ghost use Rattle.definition_names.specs.NamedReading.{named_numbers};
ghost use Rattle.names.specs.Answers.{number_of};
ghost use Rattle.escapes.specs.Answers.{naming};
ghost use Rattle.entry.specs.Answers.{refusal_of};
ghost use Rattle.bodies.specs.Lists.{DoneIs};
ghost use Rattle.answers.specs.declared.Outcome.TheVariants.{Refused};
ghost use Rattle.strings.specs.Strings.{listed, Few, answer_of, CallIs, SignsIs};
ghost use Rattle.strings.specs.Window.{window_numbers};

use answers::{Answer, Outcome};
use bodies::Written;
use entry::Class;
use names::{HELD, IndexError, NO_NAMES, Names};

// A refusal: both buffers are filled with zeros.
fn refuse(words: &mut [u32], text: &mut [u8], r: entry::Refusal) -> Outcome
    ensures { (result ≡ Refused r) × (words.new ≡ zeros words.old) × (text.new ≡ zeros text.old) }
{
    buffers::fill(words, 0);
    buffers::fill(text, 0);
    Outcome::Refused(r)
}

// The sort of an answer whose top-level records are of a kind.
fn sort_of(numbers: &[u32], kind: u32) -> u32
    requires { (length numbers.now / 6 ≤ 1024) × (kind ≡ (if any_of is_bytes (listed numbers.now) then 4 else 1)) }
    ensures { result ≡ sort_number (sort_of (listed numbers.now)) }
{
    if entry::any_of(Class::FStrings, numbers, (numbers.len() / 6) as u32) {
        1
    } else if kind == 4 {
        2
    } else {
        0
    }
}

// The answer of literals that were read, with so many records and text bytes.
fn answer_of(numbers: &[u32], w: Written, records: u32, text: u32) -> Answer
    requires { Few numbers.now w }
    ensures { result ≡ answer_of (listed numbers.now) records text w.chars }
{
    Answer {
        sort: sort_of(numbers, w.kind),
        mark: w.mark,
        start: w.start,
        end: w.end,
        records,
        text,
        chars: w.chars,
    }
}

// The answer, if both buffers have room for what it needs.
fn finish(numbers: &[u32], w: Written, words: &mut [u32], text: &mut [u8]) -> Outcome
    requires { Few numbers.now w }
    ensures { (look : Naming) (within skip : ℕ) (script words₀ text₀ rows rows' : List ℕ) → DoneIs look within skip script numbers.now words₀ text₀ rows words.old text.old rows' w → CallIs (read_numbers look script numbers.now words₀ text₀) words.new text.new result }
{
    match entry::room(words.len() / 8, text.len(), w.records, w.text, w.chars) {
        Err(r) => refuse(words, text, r),
        Ok(_) => Outcome::Accepted(answer_of(numbers, w, w.records, w.text)),
    }
}

// Reads the literals whose numbers are listed, with the names of a lent file, or where that is empty the held ones.
fn parse_by(
    script: &[u8],
    numbers: &[u32],
    names: &Names,
    words: &mut [u32],
    text: &mut [u8],
) -> Outcome
    ensures { CallIs (read_numbers (naming names.now) script.now numbers.now words.old text.old) words.new text.new result }
{
    let mut rows = [0u32; 0];
    match bodies::read_all(script, numbers, 0, 0, words, text, &mut rows, names) {
        Err(r) => Outcome::Refused(r),
        Ok(w) => finish(numbers, w, words, text),
    }
}

// Reads a list of one literal from a script into both buffers.
fn parse_one(script: &[u8], numbers: &[u32], words: &mut [u32], text: &mut [u8]) -> Outcome
    requires { length numbers.now ≡ 6 }
    ensures { CallIs (read_numbers held_names script.now numbers.now words.old text.old) words.new text.new result }
{
    let l = entry::literal_at(numbers, 0);
    match bodies::read_one(script, l, words, text) {
        Err(r) => Outcome::Refused(r),
        Ok(w) => finish(numbers, w, words, text),
    }
}

// Reads the literals whose numbers are listed, six for each, from a script into both buffers.
pub fn parse_strings(script: &[u8], numbers: &[u32], words: &mut [u32], text: &mut [u8]) -> Outcome
    ensures { CallIs (read_numbers held_names script.now numbers.now words.old text.old) words.new text.new result }
{
    if numbers.len() == 6 {
        return parse_one(script, numbers, words, text);
    }
    // Not through `parse_by`: tried, and short calls were slower (docs/DECISIONS.md).
    let mut rows = [0u32; 0];
    match bodies::read_all(
        &script[..],
        &numbers[..],
        0,
        0,
        words,
        text,
        &mut rows,
        &HELD,
    ) {
        Err(r) => Outcome::Refused(r),
        Ok(w) => finish(numbers, w, words, text),
    }
}

// Reads them as `parse_strings` does, with names searched in a file by whatever index is lent.
// File and index apart, as the C interface has them.
pub fn parse_searched(
    script: &[u8],
    numbers: &[u32],
    file: &[u8],
    index: &[u32],
    words: &mut [u32],
    text: &mut [u8],
) -> Outcome
    ensures { CallIs (read_numbers (searched file.now index.now) script.now numbers.now words.old text.old) words.new text.new result }
{
    if file.is_empty() {
        let file = &NO_NAMES;
        return parse_by(script, numbers, &Names { file, index }, words, text);
    }
    parse_by(script, numbers, &Names { file, index }, words, text)
}

// A refusal of a file or its index: its number alone.
fn of_names(e: IndexError) -> entry::Refusal
    ensures { refusal_of result ≡ a_refusal (number_of e) 0 0 0 0 }
{
    entry::Refusal {
        number: u32::from(e),
        literal: 0,
        place: 0,
        a: 0,
        b: 0,
        opened: 0,
        line: 0,
        column: 0,
        chars: 0,
    }
}

// Reads them as `parse_strings` does, with the names of a file, which is checked with its index after the entry checks.
pub fn parse_named(
    script: &[u8],
    numbers: &[u32],
    file: &[u8],
    index: &[u32],
    words: &mut [u32],
    text: &mut [u8],
) -> Outcome
    ensures { CallIs (named_numbers file.now index.now script.now numbers.now words.old text.old) words.new text.new result }
{
    match checks::check(script, numbers) {
        Err(r) => refuse(words, text, r),
        Ok(_) => match names::check(file, index) {
            Err(e) => refuse(words, text, of_names(e)),
            Ok(_) => parse_searched(script, numbers, file, index, words, text),
        },
    }
}

// Reads the literals whose numbers are listed, as `parse_signs` does, and writes the rows of their fields from number `skip` on, as far as
// there is room; `within` is the last number of each.
pub fn parse_window(
    script: &[u8],
    numbers: &[u32],
    within: u32,
    skip: u32,
    rows: &mut [u32],
    names: &Names,
) -> Outcome
    ensures { SignsIs (window_numbers (naming names.now) within skip script.now numbers.now rows.old) rows.new result }
{
    let mut words = [0u32; 0];
    let mut text = [0u8; 0];
    match bodies::read_all(
        script, numbers, within, skip, &mut words, &mut text, rows, names,
    ) {
        Err(r) => Outcome::Refused(r),
        Ok(w) => Outcome::Accepted(answer_of(numbers, w, w.fields, 0)),
    }
}

// Reads the literals whose numbers are listed, as `parse_strings` does, and writes the row of each field, ten numbers for each. An answer's
// records are the fields.
pub fn parse_signs(script: &[u8], numbers: &[u32], rows: &mut [u32]) -> Outcome
    ensures { SignsIs (signs_numbers held_names script.now numbers.now rows.old) rows.new result }
{
    match parse_window(script, numbers, 0, 0, rows, &HELD) {
        Outcome::Refused(r) => Outcome::Refused(r),
        Outcome::Accepted(x) => match entry::room(rows.len() / 10, 0, x.records, 0, x.chars) {
            Err(r) => {
                buffers::fill(rows, 0);
                Outcome::Refused(r)
            }
            Ok(_) => Outcome::Accepted(x),
        },
    }
}
