// Names from a lent file: its lines, its index built and checked, and names looked up.
#![tactic(auto)]

ghost use Rattle.std.specs.Prelude.{◌≡◌, ◌≤◌, ◌<◌, ◌^◌, length, unwrap_or, IfSome};
ghost use Rattle.std.proofs.Math.Option.{none};
ghost use Rattle.definition.specs.Chars.{no_code};
ghost use Rattle.definition.specs.Escapes.{hex_digit};
ghost use Rattle.definition_names.specs.Names.{is_scalar, named_from, named, scalar_at, searched, check, build_into};
ghost use Rattle.definition_names.specs.IsIndex.{starts_at, is_start, in_order, Rising};
ghost use Rattle.definition_names.proofs.NameScan.{EndsOf};
ghost use Rattle.names.specs.Answers.{number_of, Steps, DigitsIs, count_of, StartsIs, FilledOf, Sized, OrderedIs, CheckedIs, MeetsIs, PartIs, RunIs, DistinctIs, says, answer_of, WrittenIs, CallIs};

use numbering::Number;

// What is searched as an empty file is, and is not empty.
// A file, and no sentinel: nothing is compared with it.
pub const NO_NAMES: [u8; 1] = *b";";

// A lent file of names, with the index beside it; where the file is empty, the held names are meant.
#[derive(Clone, Copy)]
pub struct Names<'a> {
    pub file: &'a [u8],
    pub index: &'a [u32],
}

// The held names.
pub const HELD: Names<'static> = Names {
    file: &[],
    index: &[],
};

// Why a file has no index, or a list is not its index.
#[derive(Clone, Copy, PartialEq, Eq)]
pub enum IndexError {
    LineMalformed,
    NameTwice,
    TooLittleRoom,
    WrongIndex,
}

impl From<IndexError> for u32 {
    ghost from_gives = { λ e n. n ≡ number_of e };

    fn from(e: IndexError) -> u32 {
        match e {
            IndexError::LineMalformed => Number::LineMalformed as u32,
            IndexError::NameTwice => Number::NameTwice as u32,
            IndexError::TooLittleRoom => Number::TooLittleIndexRoom as u32,
            IndexError::WrongIndex => Number::WrongIndex as u32,
        }
    }
}

// The value of the hex digits up to a `;`, and where that stands.
#[derive(Clone, Copy)]
pub(crate) struct Digits {
    value: u32,
    mark: usize,
}

// Where a line ends, and how many `;` it has.
#[derive(Clone, Copy)]
pub(crate) struct Ends {
    end: usize,
    marks: usize,
}

// A line that is not malformed: whether it has a name, and where the next one begins.
#[derive(Clone, Copy)]
pub(crate) struct Line {
    named: bool,
    next: usize,
}

// How many lines of a run have a name, and where the run ended.
#[derive(Clone, Copy)]
pub(crate) struct Filled {
    used: usize,
    next: usize,
}

// Whether the names of a run are distinct and not those of later lines, and where the run ended.
#[derive(Clone, Copy)]
pub(crate) struct Run {
    apart: bool,
    next: usize,
}

// The value of a hex digit.
pub fn hex_digit(c: u32) -> Option<u32>
    ensures value { unwrap_or result 16 ≡ hex_digit c }
    ensures digit { IfSome result (λ d. d < 16) }
{
    // A code may be past every byte, so the ranges are numbers: those of `0` to `9`, `A` to `F` and `a` to `f`.
    match c {
        48..=57 => Some(c - 48),
        65..=70 => Some(c - 55),
        97..=102 => Some(c - 87),
        _ => None,
    }
}

// The value of the hex digits at an index, if it has no more than six of them.
fn read_digits(file: &[u8], at: usize) -> Option<Digits>
    ensures { DigitsIs file.now at result }
{
    let mut v: u32 = 0;
    for i in at..file.len() {
        let b = file[i];
        if b == b';' {
            return Some(Digits { value: v, mark: i });
        }
        let d = hex_digit(b as u32)?;
        if 0x100000 <= v {
            return None;
        }
        v = v * 16 + d;
    }
    Some(Digits {
        value: v,
        mark: at.max(file.len()),
    })
}

// Where the line at an index ends.
fn line_ends(file: &[u8], at: usize) -> Ends
    requires { at ≤ length file.now }
    ensures { EndsOf file.now at result.end result.marks }
{
    let mut marks = 0;
    for i in at..file.len() {
        match file[i] {
            b'\n' => return Ends { end: i, marks },
            b';' => marks += 1,
            _ => {}
        }
    }
    Ends {
        end: file.len(),
        marks,
    }
}

// Whether a code is a scalar.
fn is_scalar(v: u32) -> bool
    ensures { result ≡ is_scalar v }
{
    matches!(v, 0..=0xD7FF | 0xE000..=0x10FFFF)
}

// What the line at an index is, if it is not malformed.
fn read_line(file: &[u8], at: usize) -> Option<Line>
    requires { (at < length file.now) × (length file.now < 2 ^ 32) }
    ensures { Steps file.now at result }
{
    let Ends { end, marks } = line_ends(file, at);
    if file.len() <= end || marks != 14 {
        return None;
    }
    let Digits { value, mark } = read_digits(file, at)?;
    if mark < at + 4 || at + 6 < mark {
        return None;
    }
    let next = end + 1;
    match file[mark + 1] {
        b';' => None,
        b'<' => Some(Line { named: false, next }),
        _ => is_scalar(value).then_some(Line { named: true, next }),
    }
}

// How many lines of a file have a name.
fn count_named(file: &[u8]) -> Option<u32>
    requires { length file.now < 2 ^ 32 }
    ensures { result ≡ count_of (named file.now) }
{
    let mut at = 0;
    let mut n: u32 = 0;
    // A step is a line.
    while at < file.len() {
        let line = read_line(file, at)?;
        if line.named {
            n += 1;
        }
        at = line.next;
    }
    Some(n)
}

// Whether a line begins at an index.
fn begins(file: &[u8], at: usize) -> bool
    requires { at < length file.now }
    ensures { result ≡ starts_at file.now at }
{
    at == 0 || file[at - 1] == b'\n'
}

// Whether a line with a name begins at an offset.
// A guard, since the name is looked for in the file alone.
fn is_start(file: &[u8], offset: u32) -> bool
    ensures { result ≡ is_start file.now offset }
{
    let at = offset as usize;
    if file.len() <= at || !begins(file, at) {
        return false;
    }
    let name = ordering::name_at(file, offset);
    file.len() <= name || file[name] != b'<'
}

// Whether a line with a name begins at each offset of a list.
fn are_starts(file: &[u8], list: &[u32]) -> bool
    ensures { StartsIs file.now list.now result }
{
    for &offset in list {
        if !is_start(file, offset) {
            return false;
        }
    }
    true
}

// Writes the offsets of lines with a name, from a line on, while there is room.
fn fill(file: &[u8], start: usize, list: &mut [u32]) -> Filled
    requires { (length file.now < 2 ^ 32) × (named_from file.now start ≡ none → ⊥) }
    ensures { FilledOf file.now start list.new result.used result.next }
{
    let mut at = start;
    let mut n = 0;
    // A step is a line.
    while at < file.len() {
        if n == list.len() {
            return Filled { used: n, next: at };
        }
        let Some(line) = read_line(file, at) else {
            return Filled { used: n, next: at };
        };
        if line.named {
            list[n] = at as u32;
            n += 1;
        }
        at = line.next;
    }
    Filled { used: n, next: at }
}

// Writes the index into a list with a place for each name; whether no name stands twice.
fn order_names(file: &[u8], index: &mut [u32]) -> bool
    requires { (length file.now < 2 ^ 32) × Sized file.now (length index.old) }
    ensures { OrderedIs file.now index.new result }
{
    fill(file, 0, index);
    ordering::sort(file, index);
    ordering::is_rising(file, index)
}

// Whether a lent list is the index of a file with n names.
fn is_index(file: &[u8], index: &[u32], n: usize) -> bool
    requires { Sized file.now n }
    ensures { CheckedIs file.now index.now result }
{
    n == index.len() && are_starts(file, index) && ordering::is_rising(file, index)
}

// Whether a line with a name, from a line on, has the name of an entry of a block.
fn meets(file: &[u8], start: usize, block: &[u32]) -> bool
    requires { (length file.now < 2 ^ 32) × Rising (in_order file.now) block.now × (named_from file.now start ≡ none → ⊥) }
    ensures { MeetsIs file.now start block.now result }
{
    let mut at = start;
    // A step is a line.
    while at < file.len() {
        let Some(line) = read_line(file, at) else {
            return false;
        };
        if line.named {
            let name = ordering::name_at(file, at as u32);
            if ordering::entry_of(file, block, file, name).is_some() {
                return true;
            }
        }
        at = line.next;
    }
    false
}

// Whether the names of a block of offsets, which it sorts, are distinct and not those of the lines from `next` on.
fn is_apart(file: &[u8], next: usize, part: &mut [u32]) -> bool
    requires { (length file.now < 2 ^ 32) × (named_from file.now next ≡ none → ⊥) }
    ensures { PartIs file.now part.old next result }
{
    ordering::sort(file, part);
    ordering::is_rising(file, part) && !meets(file, next, part)
}

// The run of lines from a line on that a block has room for.
fn read_run(file: &[u8], start: usize, block: &mut [u32]) -> Run
    requires { (length file.now < 2 ^ 32) × (named_from file.now start ≡ none → ⊥) × (start < length file.now) × (0 < length block.old) }
    ensures { RunIs file.now start result.apart result.next }
{
    let Filled { used, next } = fill(file, start, block);
    let apart = is_apart(file, next, &mut block[..used]);
    Run { apart, next }
}

// Whether no name stands twice, with no room but a block of its own.
fn is_distinct(file: &[u8]) -> bool
    requires { (length file.now < 2 ^ 32) × (named file.now ≡ none → ⊥) }
    ensures { DistinctIs file.now result }
{
    let mut block = [0u32; 4096];
    let mut at = 0;
    // A step is a run of lines.
    while at < file.len() {
        let run = read_run(file, at, &mut block);
        if !run.apart {
            return false;
        }
        at = run.next;
    }
    true
}

// Writes the index of a file at the front of a list; where there is none, the list is left in any state.
fn write_index(file: &[u8], index: &mut [u32]) -> Result<u32, IndexError>
    ensures { WrittenIs (build_into file.now index.old) index.new result }
{
    if 0x100000000 <= file.len() {
        return Err(IndexError::TooLittleRoom);
    }
    let n = count_named(file).ok_or(IndexError::LineMalformed)?;
    let places = n as usize;
    if index.len() < places {
        if is_distinct(file) {
            return Err(IndexError::TooLittleRoom);
        }
        return Err(IndexError::NameTwice);
    }
    if !order_names(file, &mut index[..places]) {
        return Err(IndexError::NameTwice);
    }
    Ok(n)
}

// Builds the index of a file at the front of a list; where there is none, the list is filled with zeros.
pub fn build(file: &[u8], index: &mut [u32]) -> Result<u32, IndexError>
    ensures { CallIs (build_into file.now index.old) index.new result }
{
    let built = write_index(file, index);
    if built.is_err() {
        buffers::fill(index, 0);
    }
    built
}

// Checks that a lent list is the index of a file.
pub fn check(file: &[u8], index: &[u32]) -> Result<u32, IndexError>
    ensures { says result ≡ answer_of (check file.now index.now) }
{
    if 0x100000000 <= file.len() {
        return Err(IndexError::WrongIndex);
    }
    let n = count_named(file).ok_or(IndexError::LineMalformed)?;
    if is_index(file, index, n as usize) {
        return Ok(n);
    }
    if is_distinct(file) {
        return Err(IndexError::WrongIndex);
    }
    Err(IndexError::NameTwice)
}

// The code of the line at an offset, if it is a scalar.
fn scalar_at(file: &[u8], offset: u32) -> Option<u32>
    ensures code { unwrap_or result no_code ≡ scalar_at file.now offset }
    ensures below { IfSome result (λ v. v < no_code) }
{
    let value = read_digits(file, offset as usize)?.value;
    is_scalar(value).then_some(value)
}

// The code of a name, by any list of offsets, if it is found.
pub fn look_up(file: &[u8], index: &[u32], name: &[u8]) -> Option<u32>
    ensures code { unwrap_or result no_code ≡ searched file.now index.now name.now }
    ensures below { IfSome result (λ v. v < no_code) }
{
    if name.contains(&b';') {
        return None;
    }
    let k = ordering::entry_of(file, index, name, 0)?;
    scalar_at(file, index[k])
}
