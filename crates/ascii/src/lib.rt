// Runs of ASCII bytes: how far they go from the front of a text, by blocks. Nothing is written here.
#![tactic(auto)]

ghost use Rattle.std.specs.Prelude.{◌≡◌, ◌<◌, ◌≤◌, max, length};
ghost use Rattle.ascii.specs.Runs.{Ascii, AsciiEnd, all_ascii};

// Whether all bytes of a block are ASCII, with one test behind its last byte.
pub fn is_ascii(s: &[u8]) -> bool
    ensures { result ≡ all_ascii s.now }
{
    let mut most = 0;
    for &b in s {
        most = b.max(most);
    }
    most < 0x80
}

// So far from an index on whole blocks of a size are ASCII.
fn ascii_blocks(s: &[u8], at: usize, size: usize) -> usize
    requires { (at ≤ length s.now) × (0 < size) }
    ensures { Ascii s.now at result }
{
    let mut i = at;
    // A step is a block, so no `for` counts them.
    while size <= s.len() - i && is_ascii(&s[i..i + size]) {
        i += size;
    }
    i
}

// Where the ASCII bytes from an index on end, byte by byte.
fn ascii_bytes(s: &[u8], from: usize) -> usize
    requires { from ≤ length s.now }
    ensures { AsciiEnd s.now from result }
{
    for i in from..s.len() {
        if !s[i].is_ascii() {
            return i;
        }
    }
    s.len()
}

// Where the ASCII bytes behind the first eight end, by blocks: the last eight may be looked at twice.
fn ascii_far(s: &[u8]) -> usize
    requires { 8 ≤ length s.now }
    ensures { AsciiEnd s.now 8 result }
{
    let n = s.len();
    let i = ascii_blocks(s, 8, 64);
    let j = ascii_blocks(s, i, 8);
    if j == n || n - j < 8 && is_ascii(&s[n - 8..]) {
        return n;
    }
    ascii_bytes(s, j)
}

// Where the ASCII bytes from the front on end: by blocks if the first eight are.
pub fn ascii_end(s: &[u8]) -> usize
    ensures { AsciiEnd s.now 0 result }
{
    if 8 <= s.len() && is_ascii(&s[..8]) {
        ascii_far(s)
    } else {
        ascii_bytes(s, 0)
    }
}

// Whether a text is all ASCII.
pub fn all_ascii(s: &[u8]) -> bool
    ensures { result ≡ all_ascii s.now }
{
    s.len() <= ascii_end(s)
}
