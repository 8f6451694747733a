// Where a run of plain bytes ends: by blocks where the first eight are plain, else byte by byte. Nothing is written here.
#![tactic(auto)]

ghost use Rattle.std.specs.Prelude.{◌≡◌, ◌&&◌, not, true, ◌≤◌, ◌<◌, ltb, length};
ghost use Rattle.definition.specs.Chars.{byte};
ghost use Rattle.marks.specs.Marks.{special};
ghost use Rattle.plain.specs.Plain.{plain_end, PlainTo, AllPlain};

use ascii::is_ascii;
use escapes::is_any_bytes;
use marks::is_special;
use searches::is_byte;

// How far the bytes from an index on, and up to another, are plain.
fn plain_to(s: &[u8], from: usize, to: usize, kind: u32) -> usize
    requires { (from ≤ to) × (to ≤ length s.now) }
    ensures { PlainTo kind s.now from to result }
{
    for i in from..to {
        if is_special(s[i], kind) {
            return i;
        }
    }
    to
}

// Whether the bytes from an index up to another are plain.
fn is_plain(s: &[u8], from: usize, to: usize, kind: u32) -> bool
    requires { (from ≤ to) × (to ≤ length s.now) }
    ensures { result ≡ true → AllPlain kind s.now from to }
{
    let mut left = 0;
    let mut right = 0;
    let mut backslash = 0;
    for i in from..to {
        let b = s[i];
        left = is_byte(b, b'{').max(left);
        right = is_byte(b, b'}').max(right);
        backslash = is_byte(b, b'\\').max(backslash);
    }
    left.max(right).max(backslash) == 0 && (!is_any_bytes(kind) || is_ascii(&s[from..to]))
}

// How far from an index on whole blocks of a size are plain.
fn plain_blocks(s: &[u8], at: usize, size: usize, kind: u32) -> usize
    requires { (at ≤ length s.now) × (0 < size) }
    ensures { (at ≤ result) × (result ≤ length s.now) × AllPlain kind s.now at result }
{
    let mut i = at;
    // A step is a block, so no `for` counts them.
    while size <= s.len() - i && is_plain(s, i, i + size, kind) {
        i += size;
    }
    i
}

// Where the plain bytes from an index on end, by blocks: the last eight bytes may be looked at twice.
fn plain_far(s: &[u8], at: usize, kind: u32) -> usize
    requires { (8 ≤ at) × (at ≤ length s.now) }
    ensures { result ≡ plain_end kind s.now at }
{
    let n = s.len();
    let i = plain_blocks(s, at, 64, kind);
    let j = plain_blocks(s, i, 8, kind);
    if j == n || n - j < 8 && is_plain(s, n - 8, n, kind) {
        return n;
    }
    plain_to(s, j, n, kind)
}

// Where the plain bytes from an index on end: by blocks if the first eight are plain. At the end or past it there are none.
pub fn plain_end(s: &[u8], at: usize, kind: u32) -> usize
    ensures { result ≡ plain_end kind s.now at }
{
    let n = s.len();
    if n <= at {
        return at;
    }
    if 8 <= n - at && is_plain(s, at, at + 8, kind) {
        plain_far(s, at + 8, kind)
    } else {
        plain_to(s, at, n, kind)
    }
}

// Whether a plain byte stands at an index.
pub fn is_plain_at(s: &[u8], at: usize, kind: u32) -> bool
    ensures { result ≡ (ltb at (length s.now) && not (special kind (byte s.now at))) }
{
    at < s.len() && !is_special(s[at], kind)
}
