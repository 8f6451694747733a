// The form of an integer but for its fill, and the base of its type.
#![tactic(auto)]

ghost use Rattle.std.specs.Prelude.{◌≡◌};
ghost use Rattle.definition_replay.specs.Integers.{base_of};

// A form but for its fill.
#[derive(Clone, Copy)]
pub struct Shape {
    pub align: u8,
    pub sign: u8,
    pub alternate: bool,
    pub width: usize,
    pub grouping: u8,
    pub kind: u8,
}

// A form once more. One that is handed on is made only there: otherwise it is copied to memory for each number.
pub fn anew(shape: Shape) -> Shape
    ensures { result ≡ shape }
{
    Shape { ..shape }
}

// The base of a type; 0 if it is none of an integer, as the definition's `base_of` promises it.
pub fn base_of(kind: u8) -> u32
    ensures { result ≡ base_of kind }
{
    match kind {
        0 | b'd' => 10,
        b'b' => 2,
        b'o' => 8,
        b'x' | b'X' => 16,
        _ => 0,
    }
}
