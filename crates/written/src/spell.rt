// The spelling, written clipped from a used length on.
ghost use Rattle.std.specs.Prelude.{◌≡◌, [], ◌∷◌, ◌++◌, ◌≤◌, ◌+◌, ◌^◌, eqb, length, replicate, if◌then◌else◌};
ghost use Rattle.definition_written.specs.Written.{top, late, spelled_byte, spelled_text, spelled_conversion};
ghost use Rattle.opens.specs.Opens.{where_of};
ghost use Rattle.written.specs.Puts.{Puts};

use buffers::{add_run, put};
use opens::is_doubled;
use searches::first_of;

// A text of fewer bytes goes byte by byte, and of a longer one so many are looked at together.
const STEP: usize = 64;

// One byte.
fn put_one(body: &mut [u8], used: usize, b: u8) -> usize
    requires { used ≤ 2 ^ 41 }
    ensures { Puts body.old used (b ∷ []) body.new result }
{
    put(body, used, b);
    used + 1
}

// A byte twice.
fn put_two(body: &mut [u8], used: usize, b: u8) -> usize
    requires { used ≤ 2 ^ 40 }
    ensures { Puts body.old used (b ∷ b ∷ []) body.new result }
{
    let next = put_one(body, used, b);
    put_one(body, next, b)
}

// A brace late in a spec, by the last digit of its code.
fn put_hex(body: &mut [u8], used: usize, digit: u8) -> usize
    requires { used ≤ 2 ^ 40 }
    ensures { Puts body.old used (92 ∷ 120 ∷ 55 ∷ digit ∷ []) body.new result }
{
    let first = put_one(body, used, b'\\');
    let second = put_one(body, first, b'x');
    let third = put_one(body, second, b'7');
    put_one(body, third, digit)
}

// A byte of a text at the top.
fn put_top(body: &mut [u8], used: usize, b: u8) -> usize
    requires { used ≤ 2 ^ 40 }
    ensures { Puts body.old used (spelled_byte top b) body.new result }
{
    if is_doubled(b) {
        put_two(body, used, b)
    } else {
        put_one(body, used, b)
    }
}

// A byte of a text late in a spec.
fn put_late(body: &mut [u8], used: usize, b: u8) -> usize
    requires { used ≤ 2 ^ 40 }
    ensures { Puts body.old used (spelled_byte late b) body.new result }
{
    match b {
        b'\\' => put_two(body, used, b),
        b'{' => put_hex(body, used, b'b'),
        b'}' => put_hex(body, used, b'd'),
        _ => put_one(body, used, b),
    }
}

// A byte of a text where it stands.
fn put_byte(body: &mut [u8], used: usize, b: u8, depth: usize, late: bool) -> usize
    requires { used ≤ 2 ^ 40 }
    ensures { Puts body.old used (spelled_byte (where_of depth late) b) body.new result }
{
    if depth == 0 {
        put_top(body, used, b)
    } else if late {
        put_late(body, used, b)
    } else {
        put_one(body, used, b)
    }
}

// The bytes of a text where it stands, one by one.
fn put_bytes(body: &mut [u8], used: usize, text: &[u8], depth: usize, late: bool) -> usize
    requires { used + length (spelled_text (where_of depth late) text.now) ≤ 2 ^ 40 }
    ensures { Puts body.old used (spelled_text (where_of depth late) text.now) body.new result }
{
    let mut u = used;
    for b in text {
        u = put_byte(body, u, *b, depth, late);
    }
    u
}

// A text where it stands: what of each part stands as it is at its front goes at once, since that is most of a text.
pub(crate) fn put_text(body: &mut [u8], used: usize, text: &[u8], depth: usize, late: bool) -> usize
    requires { used + length (spelled_text (where_of depth late) text.now) ≤ 2 ^ 40 }
    ensures { Puts body.old used (spelled_text (where_of depth late) text.now) body.new result }
{
    if text.len() < STEP {
        return put_bytes(body, used, text, depth, late);
    }
    let mut u = used;
    let mut i = 0;
    // A step is a part of the text.
    while i < text.len() {
        let end = i + STEP.min(text.len() - i);
        let part = &text[i..end];
        let plain = first_of(part, 0, b'{', b'}', b'\\');
        u = put_run(body, u, &part[..plain]);
        u = put_bytes(body, u, &part[plain..], depth, late);
        i = end;
    }
    u
}

// A conversion, if there is one.
fn put_conversion(body: &mut [u8], used: usize, c: u8) -> usize
    requires { used ≤ 2 ^ 40 }
    ensures { Puts body.old used (spelled_conversion c) body.new result }
{
    if c == 0 {
        return used;
    }
    let next = put_one(body, used, b'!');
    put_one(body, next, c)
}

// A run of bytes as it is.
fn put_run(body: &mut [u8], used: usize, text: &[u8]) -> usize
    requires { used + length text.now ≤ 2 ^ 40 }
    ensures { Puts body.old used text.now body.new result }
{
    add_run(body, used, text);
    used + text.len()
}

// So many closing braces, at most two.
pub(crate) fn put_closers(body: &mut [u8], used: usize, count: usize) -> usize
    requires { (used ≤ 2 ^ 40) × (count ≤ 2) }
    ensures { Puts body.old used (replicate count 125) body.new result }
{
    match count {
        0 => used,
        1 => put_one(body, used, b'}'),
        _ => put_two(body, used, b'}'),
    }
}

// What ends a field's head: `:` before a spec, else `}`.
// A match of its own: what it gives is not what others of its shape do.
fn end_of(parts: u32) -> u8
    ensures { result ≡ (if eqb parts 0 then 125 else 58) }
{
    if parts == 0 { b'}' } else { b':' }
}

// A field up to its spec, or whole if it has none.
pub(crate) fn put_field(body: &mut [u8], used: usize, text: &[u8], mode: u8, parts: u32) -> usize
    requires { used + length text.now + 8 ≤ 2 ^ 40 }
    ensures { Puts body.old used (123 ∷ (text.now ++ (spelled_conversion mode ++ (if eqb parts 0 then 125 else 58) ∷ []))) body.new result }
{
    let a = put_one(body, used, b'{');
    let b = put_run(body, a, text);
    let c = put_conversion(body, b, mode);
    put_one(body, c, end_of(parts))
}
