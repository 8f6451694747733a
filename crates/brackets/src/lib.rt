#![tactic(auto)]

// The open brackets of a field, each with the bytes taken just after it as one number; 64 places for them.
ghost use Rattle.std.specs.Prelude.{◌≡◌, ◌%◌};
ghost use Rattle.brackets.specs.Brackets.{unpacked, bracket_of, innermost_of};

// An open bracket, and the bytes taken just after it.
#[derive(Clone, Copy)]
pub struct Opener {
    pub bracket: u32,
    pub taken: u32,
}

// A bracket and the bytes taken just after it, as one number: eight bits of the one and 24 of the other.
pub fn packed(c: u32, taken: usize) -> u32
    ensures { unpacked result ≡ record { bracket = c % 256; taken = taken % 16777216 } }
{
    (taken % 16777216) as u32 * 256 + c % 256
}

// The innermost of so many open brackets; zeros where there is none, or no place for so many.
// An opener and no Option: innermost promises zeros there.
// 64 places with a count: asked for, and nothing is allocated.
pub fn innermost(places: &[u32; 64], depth: usize) -> Opener
    ensures { bracket_of result ≡ innermost_of depth places.now }
{
    match depth {
        1..=64 => {
            let opener = places[depth - 1];
            Opener {
                bracket: opener % 256,
                taken: opener / 256,
            }
        }
        _ => Opener {
            bracket: 0,
            taken: 0,
        },
    }
}
