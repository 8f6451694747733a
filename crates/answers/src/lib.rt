// What the calls answer that read literals, list fields, replay a trace, write a body back or plan cuts; and each answer in the twelve numbers of the C interface.
#![tactic(auto, unfolding(crate::specs::Twelve::twelve))]

ghost use Rattle.std.specs.Prelude.{◌≡◌};
ghost use Rattle.answers.specs.Twelve.{twelve, reading_says, fields_says, replay_says, writing_says, plan_says};

use entry::Refusal;
use numbering::Number;

// An acceptance: its sort (0 plain, 1 joined, 2 bytes), u mark, first start, last end, how many records and text bytes it has, and how many
// characters were read.
#[derive(Clone, Copy)]
pub struct Answer {
    pub sort: u32,
    pub mark: u32,
    pub start: u32,
    pub end: u32,
    pub records: u32,
    pub text: u32,
    pub chars: u32,
}

// An acceptance, or the first refusal.
// An answer of our own, as docs/DECISIONS.md, "Forms", has it.
#[derive(Clone, Copy)]
pub enum Outcome {
    Accepted(Answer),
    Refused(Refusal),
}

// A list: its rows, how many of them are refusals, the literals of the script, and how far it was cut.
#[derive(Clone, Copy)]
pub struct List {
    pub rows: u32,
    pub refusals: u32,
    pub literals: u32,
    pub to: u32,
}

// Why there is no list: the script is too long, the number of what is wrong with a file of names or its index, or how many rows a buffer does not hold.
#[derive(Clone, Copy)]
pub enum Unlisted {
    TooLong,
    WrongNames(u32),
    Short(u32),
}

// The lines that were written: the template's reading, how many rows there are, and how many bytes their lines have.
#[derive(Clone, Copy)]
pub struct Lines {
    pub reading: Answer,
    pub rows: u32,
    pub bytes: u32,
}

// A refusal of 68 to 73, and what is told of it: the field or the row, from 0, or the bytes that are needed; at most 4,294,967,295.
#[derive(Clone, Copy)]
pub struct Stop {
    pub number: u32,
    pub told: u32,
}

// Why nothing is replayed: the template's own refusal, or one of 68 to 73.
#[derive(Clone, Copy)]
pub enum Unreplayed {
    Unread(Refusal),
    Stopped(Stop),
}

// A refusal to write a body back: its number, and how many bytes are needed, 0 for none told.
#[derive(Clone, Copy)]
pub struct Unwritten {
    pub number: u32,
    pub needed: u32,
}

// A list of cuts that is too short: how many there are.
#[derive(Clone, Copy)]
pub struct NoRoom {
    pub needed: u32,
}

// Functions, and no `From`: a `Result` and an array are both std's, so no crate of ours may convert one to the other.

// An outcome's numbers, and zeros up to twelve.
pub fn of_reading(o: Outcome) -> [u32; 12]
    ensures { result ≡ twelve (reading_says o) }
{
    match o {
        Outcome::Accepted(x) => [
            0, x.sort, x.mark, x.start, x.end, x.records, x.text, 0, x.chars, 0, 0, 0,
        ],
        Outcome::Refused(r) => [
            r.number, r.literal, r.place, r.a, r.b, r.opened, r.line, r.column, r.chars, 0, 0, 0,
        ],
    }
}

// The numbers of a script's list, and zeros up to twelve.
pub fn of_fields(x: Result<List, Unlisted>) -> [u32; 12]
    ensures { result ≡ twelve (fields_says x) }
{
    match x {
        Ok(l) => [0, l.rows, l.refusals, l.literals, l.to, 0, 0, 0, 0, 0, 0, 0],
        Err(Unlisted::TooLong) => [
            Number::ScriptTooLong as u32,
            0,
            0,
            0,
            0,
            0,
            0,
            0,
            0,
            0,
            0,
            0,
        ],
        Err(Unlisted::WrongNames(number)) => [number, 0, 0, 0, 0, 0, 0, 0, 0, 0, 0, 0],
        Err(Unlisted::Short(count)) => [
            Number::TooLittleListRoom as u32,
            0,
            0,
            0,
            0,
            0,
            0,
            0,
            0,
            count,
            0,
            0,
        ],
    }
}

// A replay's numbers, and zeros up to twelve.
pub fn of_replay(x: Result<Lines, Unreplayed>) -> [u32; 12]
    ensures { result ≡ twelve (replay_says x) }
{
    match x {
        Ok(l) => [
            0,
            l.reading.sort,
            l.reading.mark,
            l.reading.start,
            l.reading.end,
            l.reading.records,
            l.reading.text,
            0,
            l.reading.chars,
            l.rows,
            l.bytes,
            0,
        ],
        Err(Unreplayed::Unread(r)) => of_reading(Outcome::Refused(r)),
        Err(Unreplayed::Stopped(s)) => [s.number, 0, 0, 0, 0, 0, 0, 0, 0, s.told, 0, 0],
    }
}

// A writing's numbers, and zeros up to twelve: how many bytes were written, or a refusal.
pub fn of_writing(x: Result<u32, Unwritten>) -> [u32; 12]
    ensures { result ≡ twelve (writing_says x) }
{
    match x {
        Ok(bytes) => [0, bytes, 0, 0, 0, 0, 0, 0, 0, 0, 0, 0],
        Err(s) => [s.number, 0, 0, 0, 0, 0, 0, 0, 0, s.needed, 0, 0],
    }
}

// A plan's numbers, and zeros up to twelve: how many cuts it has, or that there is none.
pub fn of_plan(x: Result<Option<u32>, NoRoom>) -> [u32; 12]
    ensures { result ≡ twelve (plan_says x) }
{
    match x {
        Ok(Some(count)) => [0, 1, count, 0, 0, 0, 0, 0, 0, 0, 0, 0],
        Ok(None) => [0, 0, 0, 0, 0, 0, 0, 0, 0, 0, 0, 0],
        Err(NoRoom { needed }) => [
            Number::TooLittleCutRoom as u32,
            0,
            0,
            0,
            0,
            0,
            0,
            0,
            0,
            needed,
            0,
            0,
        ],
    }
}
