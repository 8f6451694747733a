// What is lent: the literals' descriptors, and the room with its checks 30 and 31. Nothing is written here.
#![tactic(auto)]

ghost use Rattle.std.specs.Prelude.{◌≡◌, ◌||◌, eqb, get_or};
ghost use Rattle.definition.specs.Numbers.{prefix};
ghost use Rattle.definition.specs.Entry.{refusal, opening, place_of, bad, any_of};
ghost use Rattle.definition.specs.Reading.{refuses, outcome_of, short_of, room_for};
ghost use Rattle.entry.specs.Answers.{described, says, is_of};
ghost use Rattle.entry.specs.Literals.{literal_at, literals};

use numbering::Number;

// A literal's descriptor: six numbers.
#[derive(Clone, Copy, PartialEq, Eq)]
pub struct Descriptor {
    pub kind: u32,
    pub triple: u32,
    pub offset: u32,
    pub size: u32,
    pub start: u32,
    pub end: u32,
}

// A refusal: its number, the literal's index from 0, the place, two details, the place just after the bracket that it names, and its own
// place's line and column in the literal's body.
#[derive(Clone, Copy, PartialEq, Eq)]
pub struct Refusal {
    pub number: u32,
    pub literal: u32,
    pub place: u32,
    pub a: u32,
    pub b: u32,
    pub opened: u32,
    pub line: u32,
    pub column: u32,
    pub chars: u32,
}

// A class of kinds.
#[derive(Clone, Copy, PartialEq, Eq)]
pub enum Class {
    FStrings,
    Bytes,
    Others,
}

// The number at an index; 0 where the numbers end, as the definition has it.
fn number_at(numbers: &[u32], at: usize) -> u32
    ensures { result ≡ get_or numbers.now at 0 }
{
    numbers.get(at).copied().unwrap_or(0)
}

// The literal of an index from 0: its six numbers; zeros where the numbers end.
#[tactic(auto, unfolding(crate::specs::Literals::literal_at, crate::specs::Answers::described))]
pub fn literal_at(numbers: &[u32], i: u32) -> Descriptor
    ensures { described result ≡ literal_at numbers.now i }
{
    let at = i as usize * 6;
    if let Some([kind, triple, offset, size, start, end, ..]) = numbers.get(at..) {
        return Descriptor {
            kind: *kind,
            triple: *triple,
            offset: *offset,
            size: *size,
            start: *start,
            end: *end,
        };
    }
    Descriptor {
        kind: number_at(numbers, at),
        triple: number_at(numbers, at + 1),
        offset: number_at(numbers, at + 2),
        size: number_at(numbers, at + 3),
        start: number_at(numbers, at + 4),
        end: number_at(numbers, at + 5),
    }
}

// The length of a kind's prefix; 0 if the kind is unknown.
#[tactic(auto, unfolding(definition::specs::Numbers::prefix))]
fn prefix(kind: u32) -> u8
    ensures { result ≡ prefix kind }
{
    match kind {
        1 | 2 | 3 | 6 => 1,
        4 | 5 => 2,
        _ => 0,
    }
}

// The length of a literal's opening: the prefix plus 3 quotes if the flag is 1, else 1.
#[tactic(auto, unfolding(definition::specs::Entry::opening, crate::specs::Answers::described))]
pub fn opening(l: Descriptor) -> u32
    ensures { result ≡ opening (described l) }
{
    let prefix = prefix(l.kind) as u32;
    if l.triple == 1 {
        prefix + 3
    } else {
        prefix + 1
    }
}

// The place of so many bytes taken.
#[tactic(auto, unfolding(definition::specs::Entry::place_of, crate::specs::Answers::described))]
pub fn place(l: Descriptor, taken: u32) -> u64
    ensures { result ≡ place_of (described l) taken }
{
    l.start as u64 + opening(l) as u64 + taken as u64
}

// A refusal with no details.
#[tactic(auto, unfolding(definition::specs::Entry::refusal))]
pub fn refuse(number: u32, literal: u32, place: u32) -> Result<u32, Refusal>
    ensures { says result ≡ refuses (refusal number literal place 0 0) }
{
    Err(Refusal {
        number,
        literal,
        place,
        a: 0,
        b: 0,
        opened: 0,
        line: 0,
        column: 0,
        chars: 0,
    })
}

// Whether a descriptor is bad, after one that ended at `previous`.
#[tactic(auto, unfolding(definition::specs::Entry::bad, crate::specs::Answers::described))]
pub fn is_bad(script: &[u8], previous: u32, l: Descriptor) -> bool
    ensures { result ≡ bad script.now previous (described l) }
{
    6 < l.kind
        || 1 < l.triple
        || (script.len() as u64) < l.offset as u64 + l.size as u64
        || l.end < l.start
        || l.start < previous
        || (l.end as u64) < place(l, l.size)
}

// Whether a kind is of a class.
pub fn is_of(class: Class, kind: u32) -> bool
    ensures { result ≡ is_of class kind }
{
    match class {
        Class::FStrings => matches!(kind, 1 | 4),
        Class::Bytes => matches!(kind, 2 | 5),
        Class::Others => !matches!(kind, 2 | 5),
    }
}

// Whether the kind of any of so many literals is of a class.
pub fn any_of(class: Class, numbers: &[u32], count: u32) -> bool
    ensures { result ≡ any_of (is_of class) (literals numbers.now 0 count) }
{
    for i in 0..count {
        if is_of(class, literal_at(numbers, i).kind) {
            return true;
        }
    }
    false
}

// A refusal for want of room, with what is needed, after all characters.
#[tactic(auto, unfolding(definition::specs::Entry::refusal, definition::specs::Entry::moved, definition::specs::Reading::short_of))]
fn short(number: u32, records: u32, used: u32, chars: u32) -> Result<u32, Refusal>
    ensures { says result ≡ refuses (short_of number records used chars) }
{
    Err(Refusal {
        number,
        literal: 0,
        place: 0,
        a: records,
        b: used,
        opened: 0,
        line: 0,
        column: 0,
        chars,
    })
}

// 30 and 31: whether the record places and text bytes that are lent are as many as are needed.
#[tactic(auto, unfolding(definition::specs::Reading::outcome_of, definition::specs::Reading::room_for))]
pub fn room(
    places: usize,
    bytes: usize,
    records: u32,
    used: u32,
    chars: u32,
) -> Result<u32, Refusal>
    ensures { says result ≡ outcome_of records (room_for places bytes records used chars) }
{
    if places < records as usize {
        return short(Number::TooFewRecordPlaces as u32, records, used, chars);
    }
    if bytes < used as usize {
        return short(Number::TooLittleTextRoom as u32, records, used, chars);
    }
    Ok(records)
}
