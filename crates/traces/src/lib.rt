// A trace by RFC 4180: rows of columns that are decimal integers. Numbers as they are told of it.
#![tactic(auto)]

ghost use Rattle.std.specs.Prelude.{◌≡◌, false, ◌&&◌, not, ◌+◌, ◌-◌, ◌<◌, ◌≤◌, min, eqb, length, drop};
ghost use Rattle.definition_replay.specs.Trace.{behind_column, row_of};
ghost use Rattle.definition_replay.specs.Replay.{in_range};
ghost use Rattle.digits.proofs.Digits.{Valued};
ghost use Rattle.traces.specs.declared.Ends.TheVariants.{Nothing};
ghost use Rattle.traces.specs.Cells.{SkipsByte, says_behind, cell_of, clip_cell, fit_cell, integer, says_cell, ended_by, reason_of, told_of_row, verdict_of, check_of};

use numbering::Number;

// What stands behind a column: nothing that may, a comma, or the row's end.
#[derive(Clone, Copy, PartialEq, Eq)]
pub enum Ends {
    Nothing,
    Comma,
    Row,
}

// What stands behind a column, and where it ends.
#[derive(Clone, Copy)]
pub(crate) struct Mark {
    ends: Ends,
    next: usize,
}

// A column: what stands behind it, its integer, its size at most 4,294,967,294, and where the next column or row begins.
#[derive(Clone, Copy)]
pub struct Column {
    pub ends: Ends,
    pub negative: bool,
    pub size: u32,
    pub next: usize,
}

// What refuses a row.
#[derive(Clone, Copy, PartialEq, Eq)]
pub enum RowError {
    RowMalformed,
    WrongColumns,
    OutOfRange,
}

// The number of the refusal.
impl From<RowError> for u32 {
    ghost from_gives = { λ e n. n ≡ reason_of e };

    fn from(e: RowError) -> u32 {
        match e {
            RowError::RowMalformed => Number::RowMalformed as u32,
            RowError::WrongColumns => Number::WrongColumns as u32,
            RowError::OutOfRange => Number::OutOfRange as u32,
        }
    }
}

// What stands behind a column.
fn behind(s: &[u8], at: usize) -> Mark
    requires { at ≤ length s.now }
    ensures { (says_behind s.now result.ends result.next ≡ behind_column (drop at s.now)) × (at ≤ result.next) × (result.next ≤ length s.now) }
{
    if s.len() <= at {
        return Mark {
            ends: Ends::Row,
            next: at,
        };
    }
    if s[at] == b',' {
        return Mark {
            ends: Ends::Comma,
            next: at + 1,
        };
    }
    if s[at] == b'\r' && at + 1 < s.len() && s[at + 1] == b'\n' {
        return Mark {
            ends: Ends::Row,
            next: at + 2,
        };
    }
    Mark {
        ends: Ends::Nothing,
        next: at,
    }
}

// Behind a byte at an index; there, if it is another.
fn skip(s: &[u8], at: usize, byte: u8) -> usize
    requires { at ≤ length s.now }
    ensures { SkipsByte byte s.now at result }
{
    if at < s.len() && s[at] == byte {
        at + 1
    } else {
        at
    }
}

// Whether a number is below 0: a minus stands before it, and it is not 0.
fn is_negative(minus: bool, size: u32) -> bool
    ensures { result ≡ (minus && not (eqb size 0)) }
{
    minus && size != 0
}

// A column of an integer that ends at an index.
fn column_end(s: &[u8], at: usize, minus: bool, size: u32) -> Column
    requires { at ≤ length s.now }
    ensures { (says_cell s.now result.ends result.negative result.size result.next ≡ ended_by (minus && not (eqb size 0)) size (behind_column (drop at s.now))) × (at ≤ result.next) × (result.next ≤ length s.now) }
{
    let Mark { ends, next } = behind(s, at);
    Column {
        ends,
        negative: is_negative(minus, size),
        size,
        next,
    }
}

// No column at an index.
fn no_column(next: usize) -> Column
    ensures { result ≡ record { ends = Nothing; negative = false; size = 0; next = next } }
{
    Column {
        ends: Ends::Nothing,
        negative: false,
        size: 0,
        next,
    }
}

// The column at an index of the text.
fn column_at(s: &[u8], at: usize) -> Column
    requires { at ≤ length s.now }
    ensures { (says_cell s.now result.ends result.negative result.size result.next ≡ clip_cell (cell_of (drop at s.now))) × ((result.ends ≡ Nothing → ⊥) → at < result.next) × (result.next ≤ length s.now) }
{
    let from = skip(s, at, b'"');
    let start = skip(s, from, b'-');
    let number = digits::read_digits(s, start);
    if number.told == 0 {
        return no_column(at);
    }
    let size = number.told - 1;
    let end = number.next;
    let minus = start != from;
    if from == at {
        return column_end(s, end, minus, size);
    }
    let past = skip(s, end, b'"');
    if past == end {
        return no_column(at);
    }
    column_end(s, past, minus, size)
}

// Whether an integer is one of 32 bits.
fn in_range(negative: bool, size: u32) -> bool
    ensures { result ≡ in_range (integer negative size) }
{
    if negative {
        size <= 0x80000000
    } else {
        size <= 0x7FFFFFFF
    }
}

// The column at an index, whose number is one of 32 bits, whatever it looks like; none past the end.
fn read_any(s: &[u8], at: usize) -> Column
    ensures { (says_cell s.now result.ends result.negative result.size result.next ≡ fit_cell (cell_of (drop at s.now))) × ((result.ends ≡ Nothing → ⊥) → at < result.next) × (result.next ≤ length s.now) }
{
    if s.len() < at {
        return no_column(s.len());
    }
    let column = column_at(s, at);
    if !in_range(column.negative, column.size) {
        return no_column(at);
    }
    column
}

// Digits that were read, nine at most: their value, and where they end.
#[derive(Clone, Copy)]
pub(crate) struct Short {
    value: u32,
    next: usize,
}

// Where nine bytes from a place on end, at most at the end of all.
fn short_end(at: usize, size: usize) -> usize
    requires { at ≤ size }
    ensures { (at ≤ result) × (result ≤ size) × (result ≤ at + 9) }
{
    at + (size - at).min(9)
}

// Reads the digits at an index, nine at most.
fn read_short(s: &[u8], at: usize) -> Short
    requires { at ≤ length s.now }
    ensures { Valued s.now at result.value result.next × (result.value < 1000000000) × (result.next ≤ length s.now) }
{
    let end = short_end(at, s.len());
    let mut value: u32 = 0;
    for i in at..end {
        let b = s[i];
        if !b.is_ascii_digit() {
            return Short { value, next: i };
        }
        value = value * 10 + u32::from(b - b'0');
    }
    Short { value, next: end }
}

// The column at an index, whose number is one of 32 bits; none past the end. Most columns are not in quotes and have nine digits at most.
pub fn read_column(s: &[u8], at: usize) -> Column
    ensures { (says_cell s.now result.ends result.negative result.size result.next ≡ fit_cell (cell_of (drop at s.now))) × ((result.ends ≡ Nothing → ⊥) → at < result.next) × (result.next ≤ length s.now) }
{
    if s.len() <= at || s[at] == b'"' {
        return read_any(s, at);
    }
    let start = skip(s, at, b'-');
    let number = read_short(s, start);
    if number.next == start {
        return read_any(s, at);
    }
    let column = column_end(s, number.next, start != at, number.value);
    match column.ends {
        Ends::Nothing => read_any(s, at),
        _ => column,
    }
}

// What refuses a row that has so many columns, all of them in range or not.
fn verdict(fields: usize, count: usize, fits: bool) -> Result<(), RowError>
    ensures { told_of_row result ≡ verdict_of fields count fits }
{
    if count != fields {
        Err(RowError::WrongColumns)
    } else if !fits {
        Err(RowError::OutOfRange)
    } else {
        Ok(())
    }
}

// What refuses the row at an index: so many columns are wanted, each an integer of 32 bits.
pub fn check_row(s: &[u8], at: usize, fields: usize) -> Result<(), RowError>
    ensures { told_of_row result ≡ check_of fields (row_of (drop at s.now)) }
{
    let mut i = at;
    let mut count: usize = 0;
    let mut fits = true;
    // A step is a column.
    while i <= s.len() {
        let column = column_at(s, i);
        count += 1;
        fits = fits && in_range(column.negative, column.size);
        match column.ends {
            Ends::Nothing => return Err(RowError::RowMalformed),
            Ends::Comma => i = column.next,
            Ends::Row => return verdict(fields, count, fits),
        }
    }
    Err(RowError::RowMalformed)
}

// A number as it is told: at most 4,294,967,295.
pub fn number_of(n: usize) -> u32
    ensures { result ≡ min n 0xFFFFFFFF }
{
    n.min(0xFFFFFFFF) as u32
}
