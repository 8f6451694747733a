// What is counted of a text: its characters and lines up to a place, and the bytes that begin a character. Nothing is written here.
#![tactic(auto)]

ghost use Rattle.std.specs.Prelude.{◌≡◌, ◌&&◌, leb, ◌+◌, ◌-◌, ◌<◌, ◌≤◌, length};
ghost use Rattle.definition.specs.Counts.{more, counted};
ghost use Rattle.counts.specs.Counts.{count_of};
ghost use Rattle.counts.specs.Heads.{head_of, heads_from};

use utf8::{Cursor, Step};

// What was counted of a text: characters, line ends, and the characters since the last one.
#[derive(Clone, Copy)]
pub struct Count {
    pub chars: usize,
    pub line: usize,
    pub column: usize,
}

impl Count {
    // One more character.
    fn more(self, c: u32) -> Count
        requires { (self.line + self.column ≤ self.chars) × (self.chars < 18446744073709551615) }
        ensures { count_of result ≡ more c (count_of self) }
    {
        let chars = self.chars + 1;
        if c == '\n' as u32 {
            Count {
                chars,
                line: self.line + 1,
                column: 0,
            }
        } else {
            Count {
                chars,
                column: self.column + 1,
                ..self
            }
        }
    }
}

// The count of the characters that begin before a place; of all, if it is past the end.
pub fn count_before(s: &[u8], place: usize) -> Count
    ensures { count_of result ≡ counted s.now place }
{
    let mut k = Count {
        chars: 0,
        line: 0,
        column: 0,
    };
    let mut at = 0;
    // A step is a character.
    while at < place {
        let Step::Char(c, after) = (Cursor { at }).next_char(s) else {
            return k;
        };
        k = k.more(c);
        at = after.at;
    }
    k
}

// Whether a byte is one of 80 to BF.
pub fn is_trail(b: u8) -> bool
    ensures { result ≡ (leb 0x80 b && leb b 0xBF) }
{
    matches!(b, 0x80..=0xBF)
}

// 1 if a character begins with the byte, else 0.
fn head(b: u8) -> u8
    ensures { result ≡ head_of b }
{
    if is_trail(b) { 0 } else { 1 }
}

// How many of the bytes from an index up to another, at most 128, begin a character.
fn heads_near(s: &[u8], from: usize, to: usize) -> u8
    requires { (from ≤ to) × (to ≤ length s.now) × (to ≤ from + 128) }
    ensures { result ≡ heads_from (to - from) s.now from }
{
    let mut n = 0;
    for i in from..to {
        n += head(s[i]);
    }
    n
}

// How many of the bytes from an index up to another begin a character, by blocks.
fn heads_between(s: &[u8], from: usize, to: usize) -> usize
    requires { (from ≤ to) × (to ≤ length s.now) }
    ensures { result ≡ heads_from (to - from) s.now from }
{
    let mut n = 0;
    let mut i = from;
    // A step is a block.
    while 128 <= to - i {
        n += heads_near(s, i, i + 128) as usize;
        i += 128;
    }
    n + heads_near(s, i, to) as usize
}

// How many bytes of a text begin a character: of well-formed text, how many characters it has.
pub fn heads(s: &[u8]) -> usize
    ensures { result ≡ heads_from (length s.now) s.now 0 }
{
    heads_between(s, 0, s.len())
}
