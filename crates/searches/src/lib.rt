// Where the first of three bytes stands in a text: by blocks of eight, then byte by byte. Nothing is written here.
#![tactic(auto)]

ghost use Rattle.std.specs.Prelude.{◌≡◌, true, ◌≤◌, eqb, length, if◌then◌else◌};
ghost use Rattle.searches.specs.Firsts.{first_of};

// 1 if a byte is another one, else 0.
pub fn is_byte(b: u8, other: u8) -> u8
    ensures { result ≡ (if eqb b other then 1 else 0) }
{
    (b == other) as u8
}

// Whether none of three bytes stands from an index up to another, with one test behind the last.
fn is_free(s: &[u8], from: usize, to: usize, a: u8, b: u8, c: u8) -> bool
    requires { (from ≤ to) × (to ≤ length s.now) }
    ensures { result ≡ true → first_of a b c s.now from ≡ first_of a b c s.now to }
{
    let mut first = 0;
    let mut second = 0;
    let mut third = 0;
    for i in from..to {
        let x = s[i];
        first = is_byte(x, a).max(first);
        second = is_byte(x, b).max(second);
        third = is_byte(x, c).max(third);
    }
    first.max(second).max(third) == 0
}

// How far from an index on whole blocks of eight have none of three bytes.
fn free_blocks(s: &[u8], from: usize, a: u8, b: u8, c: u8) -> usize
    ensures { first_of a b c s.now from ≡ first_of a b c s.now result }
{
    if s.len() <= from {
        return from;
    }
    let mut i = from;
    // A step is a block, so no `for` counts them.
    while 8 <= s.len() - i && is_free(s, i, i + 8, a, b, c) {
        i += 8;
    }
    i
}

// The index of the first of three bytes from an index on, or the end.
pub fn first_of(s: &[u8], from: usize, a: u8, b: u8, c: u8) -> usize
    ensures { result ≡ first_of a b c s.now from }
{
    let start = free_blocks(s, from, a, b, c);
    for i in start..s.len() {
        let x = s[i];
        if x == a || x == b || x == c {
            return i;
        }
    }
    start.max(s.len())
}
