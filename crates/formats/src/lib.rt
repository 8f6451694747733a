// Format specifications, by the mini-language of Python 3.11's library reference.
#![tactic(auto)]

ghost use Rattle.std.specs.Prelude.{◌≡◌, ◌&&◌, not, ◌+◌, ◌-◌, ◌<◌, ◌≤◌, min, eqb, length, drop, if◌then◌else◌};
ghost use Rattle.definition.specs.Chars.{◌is◌};
ghost use Rattle.definition_replay.specs.Spec.{aligns, signs, groupings, types, first, past, past_pointed, fill_size, fill_code};
ghost use Rattle.formats.specs.Parts.{set_of, number_of, PartsIs, point_told, FormIs, rounds_from, written_with, written_as};
ghost use Rattle.definition_replay.specs.SpecNumbers.{flag_of, spec_numbers};
ghost use Rattle.buffers.specs.Over.{over};
ghost use Rattle.integers.specs.Written.{integer};

use forms::Shape;
use numbering::Number;
use utf8::{Cursor, Step};

// Why a text has no form: it is not of the grammar, or it is outside the set.
#[derive(Clone, Copy, PartialEq, Eq)]
pub enum FormError {
    NotOfGrammar,
    OutsideSet,
}

// The number of the refusal.
impl From<FormError> for u32 {
    ghost from_gives = { λ e n. n ≡ number_of e };

    fn from(e: FormError) -> u32 {
        match e {
            FormError::NotOfGrammar => Number::NotOfGrammar as u32,
            FormError::OutsideSet => Number::OutsideSet as u32,
        }
    }
}

// The parts of a text: a part of one character by its code, 0 where there is none, as the definition has it and `tell` says it; the fill by its
// bytes and its code; width and precision by what is told of their digits. And where the parts end.
#[derive(Clone, Copy)]
pub(crate) struct Parts {
    fill: usize,
    code: u32,
    align: u8,
    sign: u8,
    z: u8,
    alternate: u8,
    nought: u8,
    width: u32,
    grouping: u8,
    precision: u32,
    kind: u8,
    end: usize,
}

// The characters that a part may be.
#[derive(Clone, Copy, PartialEq, Eq)]
pub(crate) enum Set {
    Aligns,
    Signs,
    Groupings,
    Types,
    Z,
    Hash,
    Nought,
}

// A character that was taken, 0 for none, as the definition has it, and where the next one stands.
#[derive(Clone, Copy)]
pub(crate) struct One {
    code: u8,
    next: usize,
}

// A fill's bytes and its code.
#[derive(Clone, Copy)]
pub(crate) struct Fill {
    size: usize,
    code: u32,
}

// Whether a byte is an align.
fn is_align(b: u8) -> bool
    ensures { result ≡ b is aligns }
{
    matches!(b, b'<' | b'>' | b'=' | b'^')
}

// Whether a byte is a sign.
fn is_sign(b: u8) -> bool
    ensures { result ≡ b is signs }
{
    matches!(b, b'+' | b'-' | b' ')
}

// Whether a byte is a grouping.
fn is_grouping(b: u8) -> bool
    ensures { result ≡ b is groupings }
{
    matches!(b, b'_' | b',')
}

// Whether a byte is a type.
fn is_kind(b: u8) -> bool
    ensures { result ≡ b is types }
{
    matches!(
        b,
        b'b' | b'c'
            | b'd'
            | b'e'
            | b'E'
            | b'f'
            | b'F'
            | b'g'
            | b'G'
            | b'n'
            | b'o'
            | b's'
            | b'x'
            | b'X'
            | b'%'
    )
}

// Whether a byte is one of a set.
fn is_in(set: Set, b: u8) -> bool
    ensures { result ≡ b is (set_of set) }
{
    match set {
        Set::Aligns => is_align(b),
        Set::Signs => is_sign(b),
        Set::Groupings => is_grouping(b),
        Set::Types => is_kind(b),
        Set::Z => b == b'z',
        Set::Hash => b == b'#',
        Set::Nought => b == b'0',
    }
}

// Takes a character of a set at an index, if there is one.
fn take_one(s: &[u8], at: usize, set: Set) -> One
    requires { at ≤ length s.now }
    ensures { (result.code ≡ first (set_of set) (drop at s.now)) × (drop result.next s.now ≡ past (set_of set) (drop at s.now)) × (result.next ≤ length s.now) }
{
    if at < s.len() && is_in(set, s[at]) {
        return One {
            code: s[at],
            next: at + 1,
        };
    }
    One { code: 0, next: at }
}

// The fill of a text: its first character, if an align stands behind it.
fn read_fill(s: &[u8]) -> Fill
    ensures { (result.size ≡ fill_size s.now) × (result.code ≡ fill_code s.now) × (result.size ≤ length s.now) × (result.size ≤ 4) }
{
    let start = Cursor { at: 0 };
    let Step::Char(code, after) = start.next_char(s) else {
        return Fill { size: 0, code: 0 };
    };
    let size = after.at;
    if size < s.len() && is_align(s[size]) {
        return Fill { size, code };
    }
    Fill { size: 0, code: 0 }
}

// The digits of a precision behind a point at an index, one or more.
fn read_pointed(s: &[u8], at: usize) -> digits::Number
    requires { at ≤ length s.now }
    ensures { (result.told ≡ point_told (drop at s.now)) × (drop result.next s.now ≡ past_pointed (drop at s.now)) × (result.next ≤ length s.now) }
{
    if s.len() <= at || s[at] != b'.' {
        return digits::Number { told: 0, next: at };
    }
    let number = digits::read_digits(s, at + 1);
    if number.told == 0 {
        return digits::Number { told: 0, next: at };
    }
    number
}

// Reads the parts of a text.
fn read(s: &[u8]) -> Parts
    ensures { PartsIs s.now result }
{
    let fill = read_fill(s);
    let align = take_one(s, fill.size, Set::Aligns);
    let sign = take_one(s, align.next, Set::Signs);
    let z = take_one(s, sign.next, Set::Z);
    let alternate = take_one(s, z.next, Set::Hash);
    let nought = take_one(s, alternate.next, Set::Nought);
    let width = digits::read_digits(s, nought.next);
    let grouping = take_one(s, width.next, Set::Groupings);
    let precision = read_pointed(s, grouping.next);
    let kind = take_one(s, precision.next, Set::Types);
    Parts {
        fill: fill.size,
        code: fill.code,
        align: align.code,
        sign: sign.code,
        z: z.code,
        alternate: alternate.code,
        nought: nought.code,
        width: width.told,
        grouping: grouping.code,
        precision: precision.told,
        kind: kind.code,
        end: kind.next,
    }
}

// The form of a text: the bytes of the fill in front of the text, else 0 and the fill by itself; and the form but for its fill.
// Two numbers and no enum, since a step holds its form as numbers (`trace_lines::hold_step`).
#[derive(Clone, Copy)]
pub struct Form {
    pub fill: usize,
    pub pad: u8,
    pub shape: Shape,
}

// Whether a comma stands in another base than ten.
fn is_apart(grouping: u8, base: u32) -> bool
    ensures { result ≡ (grouping is "," && not (eqb base 10)) }
{
    grouping == b',' && base != 10
}

// A part, or what stands for it by the flag `0`.
fn part_or(part: u8, nought: u8, with: u8, without: u8) -> u8
    ensures { result ≡ (if eqb part 0 then (if eqb nought 0 then without else with) else part) }
{
    if part != 0 {
        part
    } else if nought == 0 {
        without
    } else {
        with
    }
}

// The form of a text, or why it has none.
pub fn read_form(s: &[u8]) -> Result<Form, FormError>
    ensures { FormIs s.now result }
{
    let p = read(s);
    if p.end < s.len() {
        return Err(FormError::NotOfGrammar);
    }
    if p.z != 0 || p.precision != 0 {
        return Err(FormError::OutsideSet);
    }
    let base = forms::base_of(p.kind);
    if base == 0 || 65 < p.width || is_apart(p.grouping, base) {
        return Err(FormError::OutsideSet);
    }
    Ok(Form {
        fill: p.fill,
        pad: part_or(0, p.nought, b'0', b' '),
        shape: Shape {
            align: part_or(p.align, p.nought, b'=', b'>'),
            sign: p.sign,
            alternate: p.alternate != 0,
            width: p.width.saturating_sub(1) as usize,
            grouping: p.grouping,
            kind: p.kind,
        },
    })
}

// Whether a type is one of a float.
fn is_float(b: u8) -> bool
    ensures { result ≡ b is "eEfFgGn%" }
{
    matches!(b, b'e' | b'E' | b'f' | b'F' | b'g' | b'G' | b'n' | b'%')
}

// 1 for a part that is there.
fn flag(c: u8) -> u32
    ensures { result ≡ flag_of c }
{
    u32::from(c != 0)
}

// 1 for a type and a precision that round.
#[tactic(auto, unfolding(crate::specs::Parts::rounds_from))]
fn rounding(kind: u8, precision: u32) -> u32
    ensures { result ≡ rounds_from kind precision }
{
    u32::from(is_float(kind) || kind == 0 && precision != 0)
}

// Tells a text's parts in twelve numbers.
pub fn tell(s: &[u8]) -> [u32; 12]
    ensures { result ≡ spec_numbers s.now }
{
    let p = read(s);
    if p.end < s.len() {
        let number = u32::from(FormError::NotOfGrammar);
        return [number, 0, 0, 0, 0, 0, 0, 0, 0, 0, 0, 0];
    }
    [
        0,
        p.code,
        u32::from(p.align),
        u32::from(p.sign),
        flag(p.z),
        flag(p.alternate),
        flag(p.nought),
        p.width,
        u32::from(p.grouping),
        p.precision,
        u32::from(p.kind),
        rounding(p.kind, p.precision),
    ]
}

// Writes an integer by a form of a text from the front on; says how many bytes it has, at most 325.
fn write_with(out: &mut [u8], s: &[u8], form: Form, negative: bool, size: u32) -> usize
    ensures { (result ≡ length (written_with s.now form (integer negative size))) × (out.new ≡ over out.old 0 (written_with s.now form (integer negative size))) × (result ≤ 325) }
{
    if form.fill == 0 {
        return integers::write_one(out, form.pad, form.shape, negative, size);
    }
    let fill = form.fill.min(s.len());
    integers::write(out, &s[..fill], forms::anew(form.shape), negative, size)
}

// Writes an integer by the form that was read of a text from the front on, nothing by one that is refused, whatever the refusal; says how many bytes it has, at most 325.
pub fn write_by<E: Copy>(
    out: &mut [u8],
    s: &[u8],
    form: Result<Form, E>,
    negative: bool,
    size: u32,
) -> usize
    ensures { (result ≡ length (written_as s.now form (integer negative size))) × (out.new ≡ over out.old 0 (written_as s.now form (integer negative size))) × (result ≤ 325) }
{
    match form {
        Ok(form) => write_with(out, s, form, negative, size),
        Err(_) => 0,
    }
}
