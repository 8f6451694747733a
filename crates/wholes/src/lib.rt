// What is told of a whole list of literals beside their bodies: what its top-level records carry, one text that is held, and the refusal of a body.
#![tactic(auto)]

ghost use Rattle.std.specs.Prelude.{◌≡◌, if◌then◌else◌};
ghost use Rattle.definition.specs.Numbers.{is_bytes, is_unicode};
ghost use Rattle.definition.specs.Entry.{place_of};
ghost use Rattle.definition.specs.Reading.{opened_at};
ghost use Rattle.counts.specs.Counts.{count_of};
ghost use Rattle.entry.specs.Answers.{described, refusal_of};
ghost use Rattle.marks.specs.Marks.{fault_of};
ghost use Rattle.records.specs.Counts.{word as word_of};
ghost use Rattle.records.specs.Written.{held};
ghost use Rattle.wholes.specs.Wholes.{nothing, whole_between, refused_in};

use counts::Count;
use entry::{Class, Descriptor};
use marks::Refusal;
use numbering::Number;
use records::{Sink, Whole, word};

// The kind of a top-level record, by the first literal's: 4 in bytes, else 1, as the lent records have it (`put_record`).
fn kind_of(kind: u32) -> u32
    ensures { result ≡ (if is_bytes kind then 4 else 1) }
{
    if entry::is_of(Class::Bytes, kind) {
        4
    } else {
        1
    }
}

// The u mark of a first kind.
// A number, as the records of the C interface have it.
fn u_mark(kind: u32) -> u32
    ensures { result ≡ (if is_unicode kind then 1 else 0) }
{
    if kind == 6 { 1 } else { 0 }
}

// What every top-level record carries of literals from a first to a last one.
pub fn whole_between(first: Descriptor, last: Descriptor) -> Whole
    ensures { result ≡ whole_between (described first) (described last) }
{
    Whole {
        kind: kind_of(first.kind),
        start: first.start,
        end: last.end,
        mark: u_mark(first.kind),
    }
}

// The counters of one text that is held, and nothing before it.
pub fn text_alone(used: usize) -> Sink
    ensures { result ≡ held used nothing }
{
    Sink {
        count: 0,
        used,
        held: 1,
        from: 0,
        parts: 1,
    }
}

// The place of so many bytes taken, as a word.
fn place_in(l: Descriptor, taken: u32) -> u32
    ensures { result ≡ word_of (place_of (described l) taken) }
{
    (entry::place(l, taken) % 4294967296) as u32
}

// The place just after the bracket that a body's refusal names, as a word; 0 if it names none, as the C interface has it.
fn opened_at(l: Descriptor, x: Refusal) -> u32
    ensures { result ≡ word_of (opened_at (described l) (fault_of x)) }
{
    if x.number == Number::MismatchedDelimiter as u32 {
        place_in(l, x.opened)
    } else {
        0
    }
}

// The refusal of a body, number i of a list: its place, line and column, the place of its bracket, and the characters before, of which so many stand in other literals. Each number is a word.
pub fn refused_in(l: Descriptor, i: u32, x: Refusal, k: Count, before: u32) -> entry::Refusal
    ensures { refusal_of result ≡ refused_in (described l) i (fault_of x) (count_of k) before }
{
    entry::Refusal {
        number: x.number,
        literal: i,
        place: place_in(l, word(x.taken)),
        a: x.a,
        b: x.b,
        opened: opened_at(l, x),
        line: word(k.line),
        column: word(k.column),
        chars: word((before as usize).wrapping_add(k.chars)),
    }
}
