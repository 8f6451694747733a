// The code of a character by its name, among those that are held.
#![tactic(auto)]

ghost use Rattle.std.specs.Prelude.{◌≡◌, ◌<◌, unwrap_or, IfSome};
ghost use Rattle.std.specs.Bool.{then_some};
ghost use Rattle.definition.specs.Chars.{no_code, same};
ghost use Rattle.definition.specs.Escapes.{held, lookup};

// The code of a name if it is a given one.
fn code_if(name: &[u8], given: &[u8], code: u32) -> Option<u32>
    ensures { result ≡ then_some (same given.now name.now) code }
{
    (given == name).then_some(code)
}

// The code of a held name, by its length.
pub fn code_of(name: &[u8]) -> Option<u32>
    ensures code { unwrap_or result no_code ≡ lookup held name.now }
    ensures below { IfSome result (λ v. v < no_code) }
{
    match name.len() {
        8 => code_if(name, b"OHM SIGN", 0x2126).or(code_if(name, b"INFINITY", 0x221E)),
        10 => code_if(name, b"MICRO SIGN", 0x00B5),
        11 => code_if(name, b"DEGREE SIGN", 0x00B0),
        13 => code_if(name, b"DIVISION SIGN", 0x00F7),
        15 => code_if(name, b"PLUS-MINUS SIGN", 0x00B1)
            .or(code_if(name, b"SUPERSCRIPT TWO", 0x00B2))
            .or(code_if(name, b"ALMOST EQUAL TO", 0x2248)),
        19 => code_if(name, b"MULTIPLICATION SIGN", 0x00D7),
        21 => code_if(name, b"GREEK SMALL LETTER MU", 0x03BC).or(code_if(
            name,
            b"LESS-THAN OR EQUAL TO",
            0x2264,
        )),
        24 => code_if(name, b"GREATER-THAN OR EQUAL TO", 0x2265),
        26 => code_if(name, b"GREEK CAPITAL LETTER DELTA", 0x0394).or(code_if(
            name,
            b"GREEK CAPITAL LETTER OMEGA",
            0x03A9,
        )),
        _ => None,
    }
}
