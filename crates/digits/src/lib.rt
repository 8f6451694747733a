// Digits read as a number, and counted.
#![tactic(auto)]

ghost use Rattle.std.specs.Prelude.{◌≡◌, ◌≤◌, length, drop};
ghost use Rattle.definition_replay.specs.Spec.{is_digit, front, behind};
ghost use Rattle.definition_replay.specs.Integers.{digits};
ghost use Rattle.definition_replay.specs.SpecNumbers.{told_of};
ghost use Rattle.digits.specs.Told.{more_value, told_at};

// Digits that were read: 0 for none, else 1 more than their value, at most 4,294,967,295; and where they end.
// The number stays 0 for none: the definition's `told_of`, which `formats::tell` hands on as it is, promises it so.
#[derive(Clone, Copy)]
pub struct Number {
    pub told: u32,
    pub next: usize,
}

// A value after a digit more, at most 4,294,967,294.
fn more_value(value: u64, b: u8) -> u64
    requires { (value ≤ 0xFFFFFFFE) × (48 ≤ b) × (b ≤ 57) }
    ensures { result ≡ more_value value b }
{
    (value * 10 + u64::from(b - b'0')).min(0xFFFFFFFE)
}

// What is told of digits of a value from one index up to another.
fn tell(value: u64, at: usize, next: usize) -> Number
    requires { value ≤ 0xFFFFFFFE }
    ensures { (result.told ≡ told_at value at next) × (result.next ≡ next) }
{
    let told = if next == at { 0 } else { (value + 1) as u32 };
    Number { told, next }
}

// Reads the digits at an index.
pub fn read_digits(s: &[u8], at: usize) -> Number
    ensures { (result.told ≡ told_of (front is_digit (drop at s.now))) × (drop result.next s.now ≡ behind is_digit (drop at s.now)) × (at ≤ result.next) × (at ≤ length s.now → result.next ≤ length s.now) }
{
    let mut value: u64 = 0;
    for i in at..s.len() {
        let b = s[i];
        if !b.is_ascii_digit() {
            return tell(value, at, i);
        }
        value = more_value(value, b);
    }
    tell(value, at, at.max(s.len()))
}

// How many figures a number has in base ten.
pub fn count_ten(n: u32) -> usize
    ensures { result ≡ length (digits 10 n) }
{
    match n {
        0..=9 => 1,
        10..=99 => 2,
        100..=999 => 3,
        1_000..=9_999 => 4,
        10_000..=99_999 => 5,
        100_000..=999_999 => 6,
        1_000_000..=9_999_999 => 7,
        10_000_000..=99_999_999 => 8,
        100_000_000..=999_999_999 => 9,
        _ => 10,
    }
}
