// A replacement field's head: from after its `{` up to and including the `}` or `:` that ends it.
#![tactic(auto)]

ghost use Rattle.std.specs.Prelude.{◌≡◌, List, ℕ, ◌^◌, ◌≤◌, ◌<◌, length};
ghost use Rattle.definition.specs.Chars.{code};
ghost use Rattle.definition.specs.Escapes.{fault};
ghost use Rattle.definition.specs.Body.{conversion_move, open_move, close_move, quote_move, field_move};
ghost use Rattle.buffers.specs.Over.{over};
ghost use Rattle.marks.specs.Marks.{refusal};
ghost use Rattle.heads.specs.FieldTurns.{Passed, pending, kept_to, skipped_to, first_of, head_at, Room, Fits, TurnIs, closed_as, OpenedBy, OpenedIs};

use brackets::{innermost, packed};
use buffers::add_run;
use marks::{
    Class, Refusal, Unclosed, class_of, ends_head, is_conversion, matches, passing_end, refused_at,
    run_end, still_blank, unclosed_brace,
};
use numbering::Number;
use records::Head;
use utf8::{Cursor, Step};

const LARGEST_BODY: usize = 1048576;

// A head that was read, with the number of its field's parts, 0 if a `}` ends it and 1 if a `:` does; or a refusal.
// An answer of our own, as docs/DECISIONS.md, "Forms", has it.
#[derive(Clone, Copy)]
pub enum Opened {
    Ended(Head, u32),
    Refused(Refusal),
}

// A head so far, with the number of open brackets; of the expression, what stands from `run` on is not written yet.
// A sign that is not there is 0, as in `records::Head`.
#[derive(Clone, Copy)]
struct State {
    at: usize,
    run: usize,
    used: usize,
    depth: usize,
    spaces: usize,
    equals: usize,
    bang: usize,
    conversion: u32,
    blank: bool,
}

// What a character does: the head goes on, a `:` or a `}` ends it, or it is refused.
// An answer of our own, as docs/DECISIONS.md, "Forms", has it.
#[derive(Clone, Copy)]
enum Turn {
    On(State),
    Formats(Head),
    Closes(Head),
    Refused(Refusal),
}

// The state at another place, with the bytes up to there in the expression.
fn kept(f: State, to: usize, depth: usize, blank: bool) -> State
    ensures { result ≡ kept_to f to depth blank }
{
    State {
        at: to,
        depth,
        blank,
        ..f
    }
}

// The state at another place, without the bytes up to there; what the expression has so far is written.
fn skip(s: &[u8], f: State, to: usize, text: &mut [u8]) -> State
    requires { Room s.now f × (f.at ≤ length s.now) }
    ensures { (result ≡ skipped_to s.now f to) × (text.new ≡ over text.old f.used (pending s.now f)) }
{
    let run = f.run;
    let at = f.at;
    let used = f.used;
    add_run(text, used, &s[run..at]);
    State {
        at: to,
        run: to,
        used: used + (at - run),
        ..f
    }
}

// A place, or another where it is 0.
fn first_of(a: usize, b: usize) -> usize
    ensures { result ≡ first_of a b }
{
    if a == 0 { b } else { a }
}

// The head of a state, with the cursor after it.
fn head_of(f: State, at: Cursor) -> Head
    ensures { result ≡ head_at f at }
{
    Head {
        at,
        used: f.used,
        spaces: f.spaces,
        equals: f.equals,
        bang: f.bang,
        conversion: f.conversion,
        blank: f.blank,
    }
}

// The opening bracket at the state's place.
fn open_bracket(f: State, c: u32, after: Cursor, places: &mut [u32; 64]) -> Turn
    requires { (length places.old ≡ 64) × (c < 0x80) × (after.at ≤ 1048576) }
    ensures { (s text : List ℕ) → Fits s f c after → TurnIs open_move s f result places.old places.new text text }
{
    let depth = f.depth;
    let to = after.at;
    if 64 <= depth {
        return Turn::Refused(refused_at(Number::TooManyBrackets as u32, to));
    }
    places[depth] = packed(c, to);
    Turn::On(kept(f, to, depth + 1, false))
}

// The closing bracket at the state's place.
fn close_bracket(f: State, c: u32, after: Cursor, places: &[u32; 64]) -> Turn
    requires { f.depth ≤ 64 }
    ensures { (s text : List ℕ) → Fits s f c after → TurnIs close_move s f result places.now places.now text text }
{
    let depth = f.depth;
    let to = after.at;
    if depth == 0 {
        return Turn::Refused(Refusal {
            a: c,
            ..refused_at(Number::Unmatched as u32, to)
        });
    }
    let opener = innermost(places, depth);
    if matches(opener.bracket, c) {
        return Turn::On(kept(f, to, depth - 1, false));
    }
    Turn::Refused(Refusal {
        number: Number::MismatchedDelimiter as u32,
        opened: opener.taken,
        taken: to,
        a: opener.bracket,
        b: c,
    })
}

// The quote at the state's place, with its run.
fn quoted(s: &[u8], f: State, c: u32, after: Cursor) -> Turn
    requires { Fits s.now f c after }
    ensures { (places text : List ℕ) → TurnIs quote_move s.now f result places places text text }
{
    let n = s.len();
    let close = run_end(s, after.at, c);
    if n <= close {
        return Turn::Refused(refused_at(Number::UnterminatedString as u32, n));
    }
    Turn::On(kept(f, close + 1, f.depth, false))
}

// The `!` at the state's place, with its conversion.
fn convert(s: &[u8], f: State, flag: Cursor, text: &mut [u8]) -> Turn
    requires { Fits s.now f (code s.now f.at) flag }
    ensures { (places : List ℕ) → TurnIs conversion_move s.now f result places places text.old text.new }
{
    let at = flag.at;
    if f.blank {
        return Turn::Refused(refused_at(Number::EmptyExpression as u32, at));
    }
    let Step::Char(conversion, after) = flag.next_char(s) else {
        return Turn::Refused(unclosed_brace(Unclosed::AfterBang, at));
    };
    let to = after.at;
    if is_conversion(conversion) {
        if ends_head(after.peek(s)) {
            let mut g = skip(s, f, to, text);
            g.conversion = conversion;
            g.bang = at;
            return Turn::On(g);
        }
        return Turn::Refused(unclosed_brace(Unclosed::AfterConversion, to));
    }
    Turn::Refused(refused_at(Number::InvalidConversionFlag as u32, to))
}

// The character at the state's place.
fn read_turn(s: &[u8], f: State, text: &mut [u8], places: &mut [u32; 64]) -> Turn
    requires { Room s.now f × (length places.old ≡ 64) }
    ensures { TurnIs field_move s.now f result places.old places.new text.old text.new }
{
    let at = f.at;
    let here = Cursor { at };
    let Step::Char(c, after) = here.next_char(s) else {
        return Turn::Refused(unclosed_brace(Unclosed::InField, at));
    };
    let to = after.at;
    let class = class_of(s, c, after, f.depth == 0, 0 < f.equals);
    match class {
        Class::Pair => Turn::On(kept(f, to + 1, f.depth, false)),
        Class::Converts => convert(s, f, after, text),
        Class::Documents => {
            let mut g = skip(s, f, to, text);
            g.equals = first_of(f.equals, to);
            Turn::On(g)
        }
        Class::Formats => Turn::Formats(head_of(skip(s, f, to, text), after)),
        Class::Opener => open_bracket(f, c, after, places),
        Class::Closes => Turn::Closes(head_of(skip(s, f, to, text), after)),
        Class::Closer => close_bracket(f, c, after, places),
        Class::Quote => quoted(s, f, c, after),
        Class::Space => {
            let mut g = skip(s, f, to, text);
            g.spaces += 1;
            Turn::On(g)
        }
        Class::Backslash => Turn::Refused(refused_at(Number::UnterminatedString as u32, to)),
        Class::Stray => Turn::Refused(unclosed_brace(Unclosed::AfterEquals, to)),
        Class::Plain => Turn::On(kept(f, to, f.depth, still_blank(f.blank, c))),
    }
}

// The state after a run of bytes that have no rule of their own; after a self-documenting `=` there is none.
fn pass(s: &[u8], f: State) -> State
    ensures { Passed s.now f result }
{
    if 0 < f.equals {
        return f;
    }
    let end = passing_end(s, f.at);
    if end == f.at {
        return f;
    }
    kept(f, end, f.depth, false)
}

// A head that a `}` ends, unless its expression is blank.
fn closed(h: Head) -> Opened
    ensures { result ≡ closed_as h }
{
    if h.blank {
        let at = h.at;
        return Opened::Refused(refused_at(Number::EmptyExpression as u32, at.at));
    }
    Opened::Ended(h, 0)
}

// The head from a cursor on, up to its end or the first refusal.
// 64 places with a count: asked for, and nothing is allocated.
fn head_from(s: &[u8], from: Cursor, text: &mut [u8], used: usize) -> Opened
    requires { (length s.now ≤ 1048576) × (used ≤ 2 ^ 32) }
    ensures { OpenedBy s.now from.at used result text.old text.new }
{
    let mut places = [0u32; 64];
    let mut f = State {
        at: from.at,
        run: from.at,
        used,
        depth: 0,
        spaces: 0,
        equals: 0,
        bang: 0,
        conversion: 0,
        blank: true,
    };
    // A step is a run of bytes without a rule, and what stands behind it.
    loop {
        let here = pass(s, f);
        match read_turn(s, here, text, &mut places) {
            Turn::On(g) => f = g,
            Turn::Formats(h) => return Opened::Ended(h, 1),
            Turn::Closes(h) => return closed(h),
            Turn::Refused(x) => return Opened::Refused(x),
        }
    }
}

// The head after a `{`; the expression's text is written from the used length on. A body of more than 2^20 bytes is refused before.
pub fn read_head(s: &[u8], from: Cursor, text: &mut [u8], used: u32) -> Opened
    ensures { OpenedIs s.now from.at used result text.old text.new }
{
    if LARGEST_BODY < s.len() {
        return Opened::Refused(refused_at(Number::BodiesTooLong as u32, 0));
    }
    head_from(s, from, text, used as usize)
}
