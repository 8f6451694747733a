// The entry checks 1 to 7: 4 to 7 in one pass, and in order only if not all pass.
#![tactic(auto)]

ghost use Rattle.std.specs.Prelude.{◌≡◌, if◌then◌else◌};
ghost use Rattle.definition.specs.Numbers.{is_bytes};
ghost use Rattle.definition.specs.Reading.{all_chars, outcome_of};
ghost use Rattle.entry.specs.declared.Class.TheVariants.{Bytes, Others};
ghost use Rattle.entry.specs.Answers.{described, six, says, later_checks, check_numbers};
ghost use Rattle.entry.specs.Literals.{literals};
ghost use Rattle.checks.specs.Passing.{OneIs, AllIs};

use entry::{Class, Descriptor, Refusal, is_bad, is_of, literal_at, refuse};
use numbering::Number;
use refusals::in_order;

const LARGEST_BODIES: u32 = 1048576;

// The characters of one body, after a literal that ended at `previous` and with so many bytes left: whether it passes 4 to 6.
fn pass_one(script: &[u8], previous: u32, left: u32, l: Descriptor) -> Option<u32>
    ensures { OneIs script.now previous left (described l) result }
{
    if is_bad(script, previous, l) || left < l.size {
        return None;
    }
    let from = l.offset as usize;
    let body = &script[from..from + l.size as usize];
    if ascii::all_ascii(body) {
        return Some(l.size);
    }
    let formed = prefixes::well_formed(body);
    if formed.len < body.len() {
        return None;
    }
    Some(formed.chars as u32)
}

// The class that must not stand beside a kind.
fn other_class(kind: u32) -> Class
    ensures { result ≡ (if is_bytes kind then Others else Bytes) }
{
    if is_of(Class::Bytes, kind) {
        Class::Others
    } else {
        Class::Bytes
    }
}

// Whether all pass 4 to 7, in one pass: the first that does not ends it.
fn pass_all(script: &[u8], numbers: &[u32], count: u32) -> Option<u32>
    ensures { AllIs script.now (literals numbers.now 0 count) result }
{
    let first = literal_at(numbers, 0);
    let other = other_class(first.kind);
    let mut ended = 0;
    let mut left = LARGEST_BODIES;
    let mut chars: u32 = 0;
    for i in 0..count {
        let l = literal_at(numbers, i);
        if is_of(other, l.kind) {
            return None;
        }
        chars += pass_one(script, ended, left, l)?;
        ended = l.end;
        left -= l.size;
    }
    Some(chars)
}

// 4 to 7: in one pass, and in order only if not all pass, for the first refusal.
fn check_literals(script: &[u8], numbers: &[u32], count: u32) -> Result<u32, Refusal>
    ensures { says result ≡ outcome_of (all_chars script.now (literals numbers.now 0 count)) (later_checks script.now (literals numbers.now 0 count)) }
{
    match pass_all(script, numbers, count) {
        Some(chars) => Ok(chars),
        None => in_order(script, numbers, count),
    }
}

// The entry checks of a list of one literal; how many characters passed.
pub fn check_one(script: &[u8], l: Descriptor) -> Result<u32, Refusal>
    ensures { says result ≡ check_numbers script.now (six l) }
{
    match pass_one(script, 0, LARGEST_BODIES, l) {
        Some(chars) => Ok(chars),
        None => {
            let numbers = [l.kind, l.triple, l.offset, l.size, l.start, l.end];
            in_order(script, &numbers, 1)
        }
    }
}

// The entry checks 1 to 7 of flat numbers; how many characters passed.
pub fn check(script: &[u8], numbers: &[u32]) -> Result<u32, Refusal>
    ensures { says result ≡ check_numbers script.now numbers.now }
{
    let n = numbers.len();
    if n == 0 {
        return refuse(Number::EmptyList as u32, 0, 0);
    }
    if n % 6 != 0 {
        return refuse(Number::NotSixes as u32, 0, 0);
    }
    let count = n / 6;
    if 1024 < count {
        return refuse(Number::TooManyLiterals as u32, 0, 0);
    }
    check_literals(script, numbers, count as u32)
}
