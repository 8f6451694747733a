// Long templates broken over lines: the planner of cuts in a body of kind 1.
#![tactic(auto)]

ghost use Rattle.std.specs.Prelude.{◌≤◌, ◌<◌, length};
ghost use Rattle.definition.specs.Chars.{well_formed};
ghost use Rattle.definition_cuts.specs.Plan.{plan_into};
ghost use Rattle.plans.specs.OnePass.{plan_at};
ghost use Rattle.plans.specs.Answers.{StartIs, PlanIs, PlannedIs};

use answers::NoRoom;
use buffers::{fill, put};
use numbering::Kind;
use offsets::is_tail;
use plain::{is_plain_at, plain_end};
use tokens::{is_formed, token_end};

const LARGEST_BODY: usize = 1048576;

// The kind of an f-string: each character of what is plain there is a token.
const F_STRING: u32 = Kind::FString as u32;

// The last index no later than one, and no earlier than another, where a character begins; else that other.
fn start_at(s: &[u8], from: usize, at: usize) -> usize
    requires { (from ≤ at) × (at < length s.now) }
    ensures { StartIs s.now from at result }
{
    // Backwards, with one condition: a search by `rposition` would say no more.
    let mut i = at;
    // Backwards over the bytes within a character, so no `for` counts them.
    while from < i && is_tail(s[i]) {
        i -= 1;
    }
    i
}

// The plan's cuts, written from the front of a list as far as there is room: how many there are, if there is a plan.
fn plan_into(s: &[u8], limit: u32, list: &mut [u32]) -> Option<usize>
    requires { (length s.now ≤ 1048576) × (length s.now ≤ well_formed s.now) }
    ensures { PlanIs (plan_at s.now limit 0 0) list.old list.new result }
{
    let room = limit as usize;
    let mut start = 0;
    let mut i = 0;
    let mut n = 0;
    let mut plain = 0;
    // A step is a token, a run or a cut, so no `for` counts them.
    while i < s.len() {
        let end = start + room;
        if i < plain {
            if plain <= end {
                i = plain;
                continue;
            }
            let c = start_at(s, i, end);
            if c <= start {
                return None;
            }
            put(list, n, c as u32);
            n += 1;
            start = c;
            i = c;
        } else if is_plain_at(s, i, F_STRING) {
            plain = plain_end(s, i, F_STRING);
        } else {
            let j = token_end(s, i).ok()?;
            if j <= end {
                i = j;
                continue;
            }
            if i + room < j {
                return None;
            }
            put(list, n, i as u32);
            n += 1;
            start = i;
            i = j;
        }
    }
    Some(n)
}

// The plan of cuts for a body of kind 1, written from the front of a list; zeros throughout if there is none, or too little room.
pub fn plan(s: &[u8], limit: u32, list: &mut [u32]) -> Result<Option<u32>, NoRoom>
    ensures { PlannedIs (plan_into s.now limit list.old) list.new result }
{
    if LARGEST_BODY < s.len() || !is_formed(s) {
        fill(list, 0);
        return Ok(None);
    }
    match plan_into(s, limit, list) {
        None => {
            fill(list, 0);
            Ok(None)
        }
        Some(n) if list.len() < n => {
            fill(list, 0);
            Err(NoRoom { needed: n as u32 })
        }
        Some(n) => Ok(Some(n as u32)),
    }
}
