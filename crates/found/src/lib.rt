// The literal that opens at a place of a script, and the next one of the script's cut.
#![tactic(auto)]

ghost use Rattle.std.specs.Prelude.{◌≡◌};
ghost use Rattle.definition.specs.Numbers.{prefix};
ghost use Rattle.definition_scripts.specs.Opening.{quotes};
ghost use Rattle.definition_scripts.specs.Literals.{literal_at};
ghost use Rattle.found.specs.Found.{Within, found_of, refused_by, HereIs, NextIs};

use gaps::near;
use numbering::Number;
use scans::{closing_from, comment_end, opens, tripled};

// A literal: six numbers.
#[derive(Clone, Copy)]
pub struct Literal {
    pub kind: u32,
    pub triple: u32,
    pub offset: u32,
    pub size: u32,
    pub start: u32,
    pub end: u32,
}

// A refusal: its number and place.
#[derive(Clone, Copy)]
pub struct Refusal {
    pub number: u32,
    pub place: u32,
}

// Why a script has no literal to give: one never closes, or the script is too long.
#[derive(Clone, Copy)]
pub enum Broken {
    Literal(Refusal),
    TooLong,
}

impl From<Refusal> for Broken {
    ghost use Rattle.found.specs.declared.Broken.{Broken};

    ghost from_gives = { λ r e. e ≡ Broken.Literal r };

    fn from(unclosed: Refusal) -> Broken {
        Broken::Literal(unclosed)
    }
}

impl From<Broken> for Refusal {
    ghost from_gives = { λ e r. r ≡ refused_by e };

    fn from(e: Broken) -> Refusal {
        match e {
            Broken::Literal(r) => r,
            Broken::TooLong => Refusal {
                number: Number::ScriptTooLong as u32,
                place: 0,
            },
        }
    }
}

// A script has at most so many bytes.
pub const MOST_BYTES: usize = 1048576;

// The length of a kind's prefix.
#[tactic(auto, unfolding(definition::specs::Numbers::prefix))]
fn prefix(kind: u32) -> u32
    ensures { result ≡ prefix kind }
{
    match kind {
        1..=3 | 6 => 1,
        4 | 5 => 2,
        _ => 0,
    }
}

// How many quotes a flag stands for.
// A match of its own: what it counts is not what others of its shape do.
fn quotes(triple: u32) -> u32
    ensures { result ≡ quotes triple }
{
    if triple == 1 { 3 } else { 1 }
}

// The literal of a kind that opens at an index, or why it never closes.
fn literal_at(s: &[u8], at: usize, kind: u32) -> Result<Literal, Refusal>
    requires { Within s.now at kind }
    ensures { found_of result ≡ literal_at s.now at }
{
    let from = at + prefix(kind) as usize;
    let triple = tripled(s, from as u32);
    let size = quotes(triple);
    let body = from + size as usize;
    match closing_from(s, s[from], triple, body) {
        Err(e) => Err(Refusal {
            number: u32::from(e),
            place: at as u32,
        }),
        Ok(to) => Ok(Literal {
            kind,
            triple,
            offset: body as u32,
            size: (to - body) as u32,
            start: at as u32,
            end: to as u32 + size,
        }),
    }
}

// The literal that opens at an index, if one does.
pub fn literal_here(script: &[u8], at: usize) -> Result<Option<Literal>, Broken>
    ensures { HereIs script.now at result }
{
    if MOST_BYTES < script.len() {
        return Err(Broken::TooLong);
    }
    match opens(script, at) {
        Some(kind) => Ok(Some(literal_at(script, at, kind)?)),
        None => Ok(None),
    }
}

// The next literal of a script's cut from an index on.
pub fn next_literal(script: &[u8], from: usize) -> Result<Option<Literal>, Broken>
    ensures { NextIs script.now from result }
{
    if script.len() > MOST_BYTES {
        return Err(Broken::TooLong);
    }
    let mut at = from;
    // A step is a comment.
    loop {
        let here = near(script, at);
        match script.get(here) {
            Some(b'#') => at = comment_end(script, here),
            Some(_) => return literal_here(script, here),
            None => return Ok(None),
        }
    }
}
