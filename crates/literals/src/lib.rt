// The adjacent literals of a script from an offset on, and what is passed over after each; every literal of a script: each as a list.
#![tactic(auto)]

ghost use Rattle.std.specs.Prelude.{◌≡◌, List, ℕ, ◌*◌, ◌≤◌, length};
ghost use Rattle.definition_scripts.specs.Literals as s;
ghost use Rattle.definition_scripts.specs.Literals.{blank_case, passed, run, listed, list_into, literals_from, literals_into};
ghost use Rattle.definition_scripts.specs.CutList.{cut_listed, cut_into};
ghost use Rattle.buffers.specs.Over.{over};
ghost use Rattle.found.specs.Found.{numbers_of};
ghost use Rattle.literals.specs.Answers.{blank_of, RanIs, Few, fitted, CallIs};

use found::{Broken, Literal, Refusal, literal_here, next_literal};
use numbering::Number;
use scans::{line_end, opens};

// Literals that are listed: how many, and two numbers more: of a run the end of the last one and where it stopped, of a cut how far it went and the number it ended with.
#[derive(Clone, Copy)]
pub struct Listed {
    pub count: u32,
    pub to: u32,
    pub more: u32,
}

// Why a call gives no list: a refusal, or how many numbers the list needs that are not lent.
#[derive(Clone, Copy)]
pub enum Unlisted {
    Refused(Refusal),
    Short(u32),
}

impl From<Refusal> for Unlisted {
    ghost use Rattle.literals.specs.declared.Unlisted.{Unlisted};

    ghost from_gives = { λ r e. e ≡ Unlisted.Refused r };

    fn from(r: Refusal) -> Unlisted {
        Unlisted::Refused(r)
    }
}

// What stands between literals at an index: a space, tab or newline; a comment; or something else.
#[derive(Clone, Copy)]
pub(crate) enum BlankCase {
    Space,
    Comment,
    Other,
}

// A script has at most so many bytes.
const MOST_BYTES: usize = found::MOST_BYTES;

// What stands between literals at an index.
#[tactic(auto, unfolding(definition_scripts::specs::Literals::blank_case))]
fn blank_case(s: &[u8], at: usize) -> BlankCase
    ensures { blank_of result ≡ blank_case s.now at }
{
    match s.get(at) {
        Some(b' ' | b'\t' | b'\n') => BlankCase::Space,
        Some(b'#') => BlankCase::Comment,
        _ => BlankCase::Other,
    }
}

// The first index from an index on where nothing more is passed over.
fn passed(s: &[u8], from: usize) -> usize
    requires { from ≤ length s.now }
    ensures { result ≡ passed s.now from }
{
    let mut at = from;
    // A step is a blank or a whole comment.
    loop {
        match blank_case(s, at) {
            BlankCase::Space => at += 1,
            BlankCase::Comment => at = line_end(s, at),
            BlankCase::Other => return at,
        }
    }
}

// Writes the six numbers of a literal behind those of so many before it.
fn put_literal(numbers: &mut [u32], count: u32, l: Literal)
    ensures { numbers.new ≡ over numbers.old (count * 6) (numbers_of l) }
{
    let six = [l.kind, l.triple, l.offset, l.size, l.start, l.end];
    buffers::put_group(numbers, count as usize, six);
}

// The run from an index on, its list written as far as there is room.
fn list_run(s: &[u8], from: usize, numbers: &mut [u32]) -> Result<Listed, Refusal>
    requires { (length s.now ≤ 1048576) × (from ≤ length s.now) }
    ensures { (Few result) × RanIs (λ room. listed room (run s.now from)) numbers.old numbers.new result }
{
    let mut count: u32 = 0;
    let mut end: u32 = 0;
    let mut at = from;
    // A step is a literal.
    while let Some(l) = literal_here(s, at)? {
        put_literal(numbers, count, l);
        count += 1;
        end = l.end;
        at = passed(s, l.end as usize);
    }
    Ok(Listed {
        count,
        to: end,
        more: at as u32,
    })
}

// The run from an offset on, if a literal opens there.
fn list_from(script: &[u8], offset: u32, numbers: &mut [u32]) -> Result<Listed, Refusal>
    ensures { (Few result) × RanIs (λ room. listed room (literals_from script.now offset)) numbers.old numbers.new result }
{
    if MOST_BYTES < script.len() {
        return Err(Refusal {
            number: Number::ScriptTooLong as u32,
            place: 0,
        });
    }
    let from = offset as usize;
    match opens(script, from) {
        Some(_) => list_run(script, from, numbers),
        None => Err(Refusal {
            number: Number::NoLiteral as u32,
            place: offset,
        }),
    }
}

// The literals of a list that was written, if there is room for it.
fn fit(room: usize, r: Result<Listed, Refusal>) -> Result<Listed, Unlisted>
    requires { Few r }
    ensures { result ≡ fitted room r }
{
    let x = r?;
    let needed = x.count * 6;
    if room < needed as usize {
        Err(Unlisted::Short(needed))
    } else {
        Ok(x)
    }
}

// What a call gives whose list was written as far as there is room: the buffer is filled with zeros where it gives none.
fn finish(numbers: &mut [u32], r: Result<Listed, Refusal>) -> Result<Listed, Unlisted>
    requires { Few r }
    ensures { (in_room : ℕ → s.Listing) (buffer : List ℕ) → length numbers.old ≡ length buffer → RanIs in_room buffer numbers.old r → CallIs (list_into (in_room (length buffer)) buffer) numbers.new result }
{
    let given = fit(numbers.len(), r);
    if given.is_err() {
        buffers::fill(numbers, 0);
    }
    given
}

// Lists the adjacent literals of a script from an offset on, six numbers for each.
pub fn list_literals(script: &[u8], offset: u32, numbers: &mut [u32]) -> Result<Listed, Unlisted>
    ensures { CallIs (literals_into script.now offset numbers.old) numbers.new result }
{
    let r = list_from(script, offset, numbers);
    finish(numbers, r)
}

// The cut of a script, its list written as far as there is room.
fn cut_all(s: &[u8], numbers: &mut [u32]) -> Result<Listed, Refusal>
    ensures { (Few result) × RanIs (cut_listed s.now) numbers.old numbers.new result }
{
    let mut count: u32 = 0;
    let mut at = 0;
    // A step is a literal of the cut, found from the end of the one before.
    loop {
        match next_literal(s, at) {
            Ok(Some(found)) => {
                put_literal(numbers, count, found);
                count += 1;
                at = found.end as usize;
            }
            Ok(None) => {
                return Ok(Listed {
                    count,
                    to: s.len() as u32,
                    more: 0,
                });
            }
            Err(Broken::Literal(r)) => {
                return Ok(Listed {
                    count,
                    to: r.place,
                    more: r.number,
                });
            }
            Err(Broken::TooLong) => {
                return Err(Refusal {
                    number: Number::ScriptTooLong as u32,
                    place: 0,
                });
            }
        }
    }
}

// Lists every literal of a script, six numbers for each.
pub fn list_cut(script: &[u8], numbers: &mut [u32]) -> Result<Listed, Unlisted>
    ensures { CallIs (cut_into script.now numbers.old) numbers.new result }
{
    let r = cut_all(script, numbers);
    finish(numbers, r)
}
