// The gaps between the literals of a script that is cut: where the next literal begins, or the next comment, or the script ends.
#![tactic(auto)]

ghost use Rattle.std.specs.Prelude.{◌≡◌, ◌≤◌};
ghost use Rattle.definition_scripts.specs.Opening.{first_at};
ghost use Rattle.definition_scripts.specs.Cut.{begins};
ghost use Rattle.scans.specs.Scans.{cut_mark};
ghost use Rattle.gaps.specs.Gaps.{Skips, Reaches};

use scans::{mark_from, opens};
use words::apart;

// Whether a literal begins at an index of a script that is cut.
#[tactic(auto, unfolding(definition_scripts::specs::Cut::begins))]
fn begins(s: &[u8], at: usize) -> bool
    ensures { result ≡ begins s.now at }
{
    opens(s, at).is_some_and(|kind| kind == 0 || apart(s, at))
}

// Where a cut that has come to an index may go on: at the first quote or `#` or the end, or two bytes before a mark that a word ends at, for a prefix.
fn prefix_from(s: &[u8], at: usize, to: usize) -> usize
    requires { to ≡ first_at cut_mark s.now at }
    ensures { (result ≤ to) × Skips s.now at result }
{
    if s.len() <= to || apart(s, to) {
        to
    } else {
        at.max(to.saturating_sub(2))
    }
}

// Where a cut that has come to an index goes on: at the next literal or `#`, or the end.
pub fn near(s: &[u8], at: usize) -> usize
    ensures { Reaches s.now at result }
{
    let to = mark_from(s, at);
    for i in prefix_from(s, at, to)..to {
        if begins(s, i) {
            return i;
        }
    }
    to
}
