// The entry checks 4 to 7 in their order, each over the whole list before the next.
#![tactic(auto)]

ghost use Rattle.std.specs.Prelude.{◌≡◌};
ghost use Rattle.std.proofs.Math.Option.{none};
ghost use Rattle.definition.specs.Entry.{all_good, total, not_long, all_utf8, not_mixed};
ghost use Rattle.definition.specs.Reading.{all_chars, outcome_of};
ghost use Rattle.entry.specs.Answers.{says, later_checks};
ghost use Rattle.entry.specs.Literals.{literals};

use entry::{Class, Refusal, any_of, is_bad, literal_at, place, refuse};
use numbering::Number;

// 4: the first bad descriptor.
fn all_good(script: &[u8], numbers: &[u32], count: u32) -> Result<u32, Refusal>
    ensures { says result ≡ outcome_of count (all_good script.now (literals numbers.now 0 count)) }
{
    let mut previous = 0;
    for i in 0..count {
        let l = literal_at(numbers, i);
        if is_bad(script, previous, l) {
            return refuse(Number::BadDescriptor as u32, i, 0);
        }
        previous = l.end;
    }
    Ok(count)
}

// The bodies' length together.
fn total(numbers: &[u32], count: u32) -> u64
    ensures { result ≡ total (literals numbers.now 0 count) }
{
    let mut sum: u64 = 0;
    for i in 0..count {
        sum += literal_at(numbers, i).size as u64;
    }
    sum
}

// 5: bodies too long together.
#[tactic(auto, unfolding(definition::specs::Entry::not_long, definition::specs::Reading::outcome_of))]
fn not_long(numbers: &[u32], count: u32) -> Result<u32, Refusal>
    ensures { says result ≡ outcome_of count (not_long (literals numbers.now 0 count)) }
{
    if 1048576 < total(numbers, count) {
        return refuse(Number::BodiesTooLong as u32, 0, 0);
    }
    Ok(count)
}

// 6: the first body that is not UTF-8, of good descriptors that are not too long; how many characters passed.
fn all_utf8(script: &[u8], numbers: &[u32], count: u32) -> Result<u32, Refusal>
    requires { (all_good script.now (literals numbers.now 0 count) ≡ none) × (not_long (literals numbers.now 0 count) ≡ none) }
    ensures { says result ≡ outcome_of (all_chars script.now (literals numbers.now 0 count)) (all_utf8 script.now (literals numbers.now 0 count)) }
{
    let mut chars: u32 = 0;
    for i in 0..count {
        let l = literal_at(numbers, i);
        let from = l.offset as usize;
        let to = from + l.size as usize;
        let formed = prefixes::well_formed(&script[from..to]);
        if formed.len < to - from {
            return refuse(
                Number::NotUtf8 as u32,
                i,
                place(l, formed.len as u32) as u32,
            );
        }
        chars += formed.chars as u32;
    }
    Ok(chars)
}

// 7: bytes mixed with others.
fn not_mixed(numbers: &[u32], count: u32) -> Result<u32, Refusal>
    ensures { says result ≡ outcome_of count (not_mixed (literals numbers.now 0 count)) }
{
    if !any_of(Class::Bytes, numbers, count) || !any_of(Class::Others, numbers, count) {
        return Ok(count);
    }
    refuse(Number::MixedBytes as u32, 0, literal_at(numbers, 0).start)
}

// 4 to 7 in order, each over the whole list before the next; how many characters passed.
pub fn in_order(script: &[u8], numbers: &[u32], count: u32) -> Result<u32, Refusal>
    ensures { says result ≡ outcome_of (all_chars script.now (literals numbers.now 0 count)) (later_checks script.now (literals numbers.now 0 count)) }
{
    all_good(script, numbers, count)?;
    not_long(numbers, count)?;
    let chars = all_utf8(script, numbers, count)?;
    not_mixed(numbers, count)?;
    Ok(chars)
}
