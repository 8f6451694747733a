// An index, literals, a comparison and a check in the twelve numbers of the C interface.
#![tactic(auto, unfolding(answers::specs::Twelve::twelve))]

ghost use Rattle.std.specs.Prelude.{◌≡◌, [], ◌∷◌};
ghost use Rattle.definition_revisions.specs.Revisions.{compare_numbers};
ghost use Rattle.literals.specs.Answers as listing;
ghost use Rattle.revisions.specs.Answers as comparisons;
ghost use Rattle.answers.specs.Twelve.{twelve};
ghost use Rattle.twelve.specs.Index.{index_says};

use literals::{Listed, Unlisted};
use numbering::Number;
use revisions::{Comparison, Uncompared};

// A listing's numbers, and zeros up to twelve.
// Functions and no `From`, as in `answers`.
pub fn of_literals(x: Result<Listed, Unlisted>) -> [u32; 12]
    ensures { result ≡ twelve (listing.says x) }
{
    match x {
        Ok(l) => [0, l.count, l.to, l.more, 0, 0, 0, 0, 0, 0, 0, 0],
        Err(Unlisted::Refused(r)) => [r.number, 0, r.place, 0, 0, 0, 0, 0, 0, 0, 0, 0],
        Err(Unlisted::Short(count)) => [
            Number::TooLittleListRoom as u32,
            0,
            0,
            0,
            0,
            0,
            0,
            0,
            0,
            count,
            0,
            0,
        ],
    }
}

// The numbers of an index, and zeros up to twelve: how many entries it has, or the number of what is wrong.
pub fn of_index(x: Result<u32, u32>) -> [u32; 12]
    ensures { result ≡ twelve (index_says x) }
{
    match x {
        Ok(count) => [0, count, 0, 0, 0, 0, 0, 0, 0, 0, 0, 0],
        Err(number) => [number, 0, 0, 0, 0, 0, 0, 0, 0, 0, 0, 0],
    }
}

// A comparison's numbers, and zeros up to twelve.
pub fn of_comparison(x: Result<Comparison, Uncompared>) -> [u32; 12]
    ensures { result ≡ twelve (compare_numbers (comparisons.says x)) }
{
    match x {
        Ok(c) => [
            0,
            c.front,
            c.back,
            c.first,
            c.second,
            c.first.saturating_sub(c.front).saturating_sub(c.back),
            c.second.saturating_sub(c.front).saturating_sub(c.back),
            0,
            0,
            0,
            0,
            0,
        ],
        Err(Uncompared::Refused(number)) => [number, 0, 0, 0, 0, 0, 0, 0, 0, 0, 0, 0],
        Err(Uncompared::Short(needed)) => [
            Number::NoMiddleRoom as u32,
            0,
            0,
            0,
            0,
            0,
            0,
            0,
            0,
            needed,
            0,
            0,
        ],
    }
}

// The number of a check, and zeros up to twelve.
pub fn of_check(number: u32) -> [u32; 12]
    ensures { result ≡ twelve (number ∷ []) }
{
    [number, 0, 0, 0, 0, 0, 0, 0, 0, 0, 0, 0]
}
