// Two revisions of a script line: the top-level items of two answers that are lent, how far they are equal from the front and from the back, and what lies between.
#![tactic(auto)]

ghost use Rattle.std.specs.Prelude.{◌≡◌, reverse, ◌+◌, ◌-◌, ◌≤◌, ◌<◌, length, Err};
ghost use Rattle.definition.specs.Chars.{part, same};
ghost use Rattle.definition.specs.Reading.{zeros};
ghost use Rattle.definition_formed.specs.Formed.{lent};
ghost use Rattle.definition_revisions.specs.Revisions.{same_shape, same_item, run, counting, comparison, compares, compare_roomed, compare_called, compare_into};
ghost use Rattle.buffers.specs.Over.{over};
ghost use Rattle.revisions.specs.Walks.{conversion_of, shape_of_head, shapes_from, items_at, EndsAt, Counts, Skips, FrontIs};
ghost use Rattle.revisions.specs.Answers.{comparison_of, Within, CallIs};

use buffers::{fill, put};
use formed::{Head, is_formed, number_at, record_at};
use numbering::Number;

// How many items are equal at the front, and at the back; how many each side has.
#[derive(Clone, Copy, PartialEq, Eq)]
pub struct Comparison {
    pub front: u32,
    pub back: u32,
    pub first: u32,
    pub second: u32,
}

// Why there is no comparison: the number of the answer that is not well formed; or how many numbers the list needs that are not lent, at most 4294967295.
#[derive(Clone, Copy, PartialEq, Eq)]
pub enum Uncompared {
    Refused(u32),
    Short(u32),
}

// The front: its items, and the record after them on either side.
#[derive(Clone, Copy)]
pub(crate) struct Front {
    pub items: u32,
    pub first: u32,
    pub second: u32,
}

// A field's conversion; 0 of any other record.
fn conversion(kind: u32, mode: u32) -> u32
    ensures { result ≡ conversion_of kind mode }
{
    if kind == 2 { mode } else { 0 }
}

// Whether a part of one text and one of another are the same; what would lie past an end is left out.
fn same_span(text: &[u8], offset: u32, size: u32, other: &[u8], from: u32, length: u32) -> bool
    ensures { result ≡ same (part text.now offset (offset + size)) (part other.now from (from + length)) }
{
    let a = offset as usize;
    let b = from as usize;
    let start = a.min(text.len());
    let end = (a + size as usize).min(text.len());
    let low = b.min(other.len());
    let high = (b + length as usize).min(other.len());
    &text[start..end] == &other[low..high]
}

// Whether a record over one text and one over another are equal.
#[tactic(auto, unfolding(definition_revisions::specs::Revisions::same_shape, crate::specs::Walks::shape_of_head))]
fn same_record(text: &[u8], a: Head, other: &[u8], b: Head) -> bool
    ensures { result ≡ same_shape (shape_of_head text.now a) (shape_of_head other.now b) }
{
    a.kind == b.kind
        && a.parts == b.parts
        && conversion(a.kind, a.mode) == conversion(b.kind, b.mode)
        && same_span(text, a.offset, a.size, other, b.offset, b.size)
}

// The record after the item that begins at one.
fn item_end(words: &[u32], count: u32, at: u32) -> u32
    requires { at < count }
    ensures { EndsAt words.now count at result }
{
    let mut owed: u64 = 0;
    for i in at..count {
        owed = owed.saturating_sub(1) + record_at(words, i).parts as u64;
        if owed == 0 {
            return i + 1;
        }
    }
    count
}

// Whether an item of one side, from a record up to another, and one of the other side are equal.
fn same_items(
    words: &[u32],
    text: &[u8],
    i: u32,
    to: u32,
    others: &[u32],
    other: &[u8],
    j: u32,
    end: u32,
) -> bool
    requires { (i ≤ to) × (j ≤ end) }
    ensures { result ≡ same_item (shapes_from words.now text.now i (to - i)) (shapes_from others.now other.now j (end - j)) }
{
    let n = to - i;
    if end - j != n {
        return false;
    }
    for k in 0..n {
        let a = record_at(words, i + k);
        let b = record_at(others, j + k);
        if !same_record(text, a, other, b) {
            return false;
        }
    }
    true
}

// How many items two sides begin with that are equal.
fn front_of(
    words: &[u32],
    text: &[u8],
    count: u32,
    others: &[u32],
    other: &[u8],
    total: u32,
) -> Front
    ensures { FrontIs words.now text.now count others.now other.now total result }
{
    let mut items: u32 = 0;
    let mut i: u32 = 0;
    let mut j: u32 = 0;
    // A step is an item on each side, whose ends differ.
    while i < count && j < total {
        let to = item_end(words, count, i);
        let end = item_end(others, total, j);
        if !same_items(words, text, i, to, others, other, j, end) {
            break;
        }
        items += 1;
        i = to;
        j = end;
    }
    Front {
        items,
        first: i,
        second: j,
    }
}

// How many items begin from a record on.
fn items_from(words: &[u32], count: u32, at: u32) -> u32
    requires { at ≤ count }
    ensures { Counts words.now count at result }
{
    let mut items: u32 = 0;
    let mut i = at;
    // A step is an item of some records.
    while i < count {
        i = item_end(words, count, i);
        items += 1;
    }
    items
}

// The record after so many items from a record on.
fn skip(words: &[u32], count: u32, at: u32, items: u32) -> u32
    requires { at ≤ count }
    ensures { Skips words.now count at items result }
{
    let mut i = at;
    for _passed in 0..items {
        if count <= i {
            return i;
        }
        i = item_end(words, count, i);
    }
    i
}

// How many items two sides, which have as many from a record on, end with that are equal: counted forward, anew after each difference.
fn ends_alike(
    words: &[u32],
    text: &[u8],
    count: u32,
    at: u32,
    others: &[u32],
    other: &[u8],
    total: u32,
    from: u32,
) -> u32
    requires { (at ≤ count) × (from ≤ total) × (length (items_at words.now text.now count at) ≡ length (items_at others.now other.now total from)) }
    ensures { result ≡ run (reverse (items_at words.now text.now count at)) (reverse (items_at others.now other.now total from)) }
{
    let mut items: u32 = 0;
    let mut i = at;
    let mut j = from;
    // A step is an item on each side, whose ends differ.
    while i < count && j < total {
        let to = item_end(words, count, i);
        let end = item_end(others, total, j);
        if same_items(words, text, i, to, others, other, j, end) {
            items += 1;
        } else {
            items = 0;
        }
        i = to;
        j = end;
    }
    items
}

// The same of two sides that have `more` and `rest` items from a record on: the surplus of either is passed over.
fn back(
    words: &[u32],
    text: &[u8],
    count: u32,
    at: u32,
    more: u32,
    others: &[u32],
    other: &[u8],
    total: u32,
    from: u32,
    rest: u32,
) -> u32
    requires { (at ≤ count) × (from ≤ total) × (length (items_at words.now text.now count at) ≡ more) × (length (items_at others.now other.now total from) ≡ rest) }
    ensures { result ≡ run (reverse (items_at words.now text.now count at)) (reverse (items_at others.now other.now total from)) }
{
    if rest < more {
        let to = skip(words, count, at, more - rest);
        return ends_alike(words, text, count, to, others, other, total, from);
    }
    let end = skip(others, total, from, rest - more);
    ends_alike(words, text, count, at, others, other, total, end)
}

// Writes so many numbers, from one on, at an index.
fn put_counting(list: &mut [u32], at: usize, from: u32, count: u32)
    requires { (from + count ≤ 4294967295) × (at ≤ 4294967295) }
    ensures { list.new ≡ over list.old at (counting from count) }
{
    for k in 0..count {
        put(list, at + k as usize, from + k);
    }
}

// There is no comparison: the list buffer is filled with zeros.
fn refuse(list: &mut [u32], why: Uncompared) -> Result<Comparison, Uncompared>
    ensures answer { result ≡ Err why }
    ensures left { list.new ≡ zeros list.old }
{
    fill(list, 0);
    Err(why)
}

// The list of both middles, if there is room for it.
fn write(list: &mut [u32], x: Comparison) -> Result<Comparison, Uncompared>
    requires { Within x }
    ensures { CallIs (compare_called (compare_roomed (length list.old) (compares (comparison_of x))) list.old) list.new result }
{
    let first = x.first - x.front - x.back;
    let second = x.second - x.front - x.back;
    let needed = first as usize + second as usize;
    if list.len() < needed {
        return refuse(list, Uncompared::Short(needed.min(4294967295) as u32));
    }
    put_counting(list, 0, x.front, first);
    put_counting(list, first as usize, x.front, second);
    Ok(x)
}

// Compares the items of two sides.
fn compare_items(
    words: &[u32],
    text: &[u8],
    count: u32,
    others: &[u32],
    other: &[u8],
    total: u32,
    list: &mut [u32],
) -> Result<Comparison, Uncompared>
    ensures { CallIs (compare_called (compare_roomed (length list.old) (compares (comparison (items_at words.now text.now count 0) (items_at others.now other.now total 0)))) list.old) list.new result }
{
    let f = front_of(words, text, count, others, other, total);
    let more = items_from(words, count, f.first);
    let rest = items_from(others, total, f.second);
    let back = back(
        words, text, count, f.first, more, others, other, total, f.second, rest,
    );
    write(
        list,
        Comparison {
            front: f.items,
            back,
            first: f.items + more,
            second: f.items + rest,
        },
    )
}

// Compares two accepted answers, each lent as its numbers, 0 first, its words and its text, and lists the middle of the first and then of the second by item number.
pub fn compare(
    numbers: &[u32],
    words: &[u32],
    text: &[u8],
    figures: &[u32],
    others: &[u32],
    other: &[u8],
    list: &mut [u32],
) -> Result<Comparison, Uncompared>
    ensures { CallIs (compare_into (lent numbers.now words.now text.now) (lent figures.now others.now other.now) list.old) list.new result }
{
    if !is_formed(numbers, words, text) {
        return refuse(list, Uncompared::Refused(Number::FirstIllFormed as u32));
    }
    if !is_formed(figures, others, other) {
        return refuse(list, Uncompared::Refused(Number::SecondIllFormed as u32));
    }
    let count = number_at(numbers, 5);
    let total = number_at(figures, 5);
    let size = number_at(numbers, 6) as usize;
    let length = number_at(figures, 6) as usize;
    compare_items(
        words,
        &text[..size],
        count,
        others,
        &other[..length],
        total,
        list,
    )
}
