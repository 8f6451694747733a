// A template as its records lie in words and its texts behind each other: its items one after another, how many fields it has, and what refuses it.
#![tactic(auto)]

ghost use Rattle.std.specs.Prelude.{◌≡◌, ◌||◌, List, [], ◌+◌, ◌<◌, ◌≤◌, min, eqb, length, if◌then◌else◌};
ghost use Rattle.definition.specs.Records.{Record};
ghost use Rattle.definition_replay.specs.Replay.{items_from, parts_from};
ghost use Rattle.templates.specs.Walk.{records_in, parts_laid, Sized, Stand, BelowIs, PlaceIs, FoundIs, field_part, number_in, fields_made, told_of_item, says_count, told_in};

use formats::FormError;
use numbering::RecordKind;

const FIELD: u32 = RecordKind::Field as u32;

// The records that stand below one: whether a field is among them, the number of the record behind them, and where their texts end.
#[derive(Clone, Copy)]
pub(crate) struct Below {
    nested: bool,
    next: usize,
    to: usize,
}

// A top-level item: its record's kind and conversion, and where its own text ends; whether a field is among the records below it, where their
// texts end, and the number of the next item's record.
#[derive(Clone, Copy)]
pub struct Place {
    pub kind: u32,
    pub mode: u32,
    pub own: usize,
    pub nested: bool,
    pub to: usize,
    pub next: usize,
}

// How many records lie in words, at most so many.
pub fn records_in(words: &[u32], count: u32) -> usize
    ensures { result ≡ records_in words.now count }
{
    (count as usize).min(words.len() / 8)
}

// Where so many bytes from a place on end, at most at the end of all.
fn text_end(at: usize, more: usize, size: usize) -> usize
    requires { at ≤ size }
    ensures { result ≡ min (at + more) size }
{
    at + more.min(size - at)
}

// Passes over the records that stand below one, from a number on, so many owed; their texts begin at a place.
fn pass_below(words: &[u32], count: usize, from: usize, parts: u32, text: &[u8], at: usize) -> Below
    requires { Sized words.now count × (1 ≤ from) × (from ≤ count) × (at ≤ length text.now) }
    ensures { ((rs : List Record) → Stand words.now count (length text.now) from at rs → BelowIs words.now count text.now at parts rs result) × (from ≤ result.next) × (result.next ≤ count) × (at ≤ result.to) × (result.to ≤ length text.now) }
{
    let mut owed = parts as usize;
    let mut to = at;
    let mut nested = false;
    for next in from..count {
        if owed == 0 {
            return Below { nested, next, to };
        }
        let first = next * 8;
        let kind = words[first];
        let size = words[first + 2] as usize;
        let more = words[first + 6] as usize;
        nested = nested || kind == FIELD;
        to = text_end(to, size, text.len());
        owed = owed - 1 + more;
    }
    Below {
        nested,
        next: count,
        to,
    }
}

// The top-level item whose record has a number among so many, and whose text begins at a place.
fn place_at(words: &[u32], count: usize, text: &[u8], i: usize, at: usize) -> Place
    requires { Sized words.now count × (i < count) × (at ≤ length text.now) }
    ensures { ((rs : List Record) → Stand words.now count (length text.now) i at rs → PlaceIs words.now count text.now at rs result) × (i < result.next) × (result.next ≤ count) × (at ≤ result.own) × (result.own ≤ result.to) × (result.to ≤ length text.now) }
{
    let first = i * 8;
    let kind = words[first];
    let size = words[first + 2] as usize;
    let mode = words[first + 5];
    let parts = words[first + 6];
    let own = text_end(at, size, text.len());
    let Below { nested, next, to } = pass_below(words, count, i + 1, parts, text, own);
    Place {
        kind,
        mode,
        own,
        nested,
        to,
        next,
    }
}

// The top-level item whose record has a number among at most so many that lie in words, and whose text begins at a place; none past their ends.
pub fn find_place(words: &[u32], count: u32, text: &[u8], i: usize, at: usize) -> Option<Place>
    ensures { FoundIs words.now (records_in words.now count) text.now i at result }
{
    let most = records_in(words, count);
    if most <= i || text.len() < at {
        return None;
    }
    Some(place_at(words, most, text, i, at))
}

// What refuses an item: of a field a field below it, else its spec, else its conversion.
fn check_item(kind: u32, mode: u32, nested: bool, spec: &[u8]) -> Result<(), FormError>
    ensures { told_of_item result ≡ number_in (field_part 0 kind mode nested [] spec.now) }
{
    if kind != FIELD {
        return Ok(());
    }
    if nested {
        return Err(FormError::OutsideSet);
    }
    let _form = formats::read_form(spec)?;
    if mode != 0 {
        return Err(FormError::OutsideSet);
    }
    Ok(())
}

// How many fields an item is.
fn fields_of(kind: u32) -> usize
    ensures { (result ≡ (if eqb kind 2 then 1 else 0)) × (result ≤ 1) }
{
    usize::from(kind == FIELD)
}

// A field that is refused, from 0, and why.
#[derive(Clone, Copy)]
pub struct Refused {
    pub why: FormError,
    pub field: usize,
}

// Checks every item of a template of so many records, up to the first that is refused, and counts its fields.
fn check_all(words: &[u32], count: usize, text: &[u8]) -> Result<usize, Refused>
    requires { Sized words.now count }
    ensures { ((rs : List Record) → Stand words.now count (length text.now) 0 0 rs → says_count result ≡ fields_made 0 (parts_from text.now 0 (items_from 0 rs))) × (told_in result ≤ count) }
{
    let mut i: usize = 0;
    let mut at: usize = 0;
    let mut k: usize = 0;
    // A step is an item of some records.
    while i < count {
        let item = place_at(words, count, text, i, at);
        let spec = &text[item.own..item.to];
        if let Err(why) = check_item(item.kind, item.mode, item.nested, spec) {
            return Err(Refused { why, field: k });
        }
        k += fields_of(item.kind);
        i = item.next;
        at = item.to;
    }
    Ok(k)
}

// Checks every item of a template, at most so many records that lie in words, up to the first that is refused, and counts its fields.
pub fn check_template(words: &[u32], count: u32, text: &[u8]) -> Result<usize, Refused>
    ensures { (says_count result ≡ fields_made 0 (parts_laid words.now count text.now)) × (told_in result ≤ records_in words.now count) }
{
    let most = records_in(words, count);
    check_all(words, most, text)
}
