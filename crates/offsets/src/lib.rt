#![tactic(auto)]

// Offsets of cuts, and the bytes that stand there.
ghost use Rattle.std.specs.Prelude.{◌≡◌, length};
ghost use Rattle.definition.specs.Chars.{◌to◌, inside};
ghost use Rattle.definition_cuts.specs.Cuts.{rise};

// Whether a byte is one of 80 to BF, with which no character begins.
pub fn is_tail(b: u8) -> bool
    ensures { result ≡ inside (0x80 to 0xBF) b }
{
    matches!(b, 0x80..=0xBF)
}

// An offset as an index.
pub fn wide(x: u32) -> usize
    ensures { result ≡ x }
{
    x as usize
}

// Whether the offsets rise strictly inside a body.
pub fn rises(s: &[u8], cuts: &[u32]) -> bool
    ensures { result ≡ rise (length s.now) 0 cuts.now }
{
    let mut from = 0;
    for &cut in cuts {
        let c = wide(cut);
        if c <= from || s.len() <= c {
            return false;
        }
        from = c;
    }
    true
}
