// A code's UTF-8 bytes written into a lent buffer: what would stand past the end is left out.
#![tactic(auto)]

ghost use Rattle.std.specs.Prelude.{◌≡◌, ◌+◌, ◌%◌, length};
ghost use Rattle.definition.specs.Chars.{utf8};
ghost use Rattle.buffers.specs.Over.{over};

use buffers::put;

// The last of a code's UTF-8 bytes, where there are several.
fn trailing(code: u32) -> u8
    ensures { result ≡ 0x80 + code % 64 }
{
    (0x80 + code % 64) as u8
}

// Writes a code's UTF-8 bytes from the front on, and says how many they are.
pub fn put_char(text: &mut [u8], code: u32) -> usize
    ensures { (result ≡ length (utf8 code)) × (text.new ≡ over text.old 0 (utf8 code)) }
{
    match code {
        ..0x80 => {
            put(text, 0, code as u8);
            1
        }
        ..0x800 => {
            put(text, 0, (0xC0 + code / 64) as u8);
            put(text, 1, trailing(code));
            2
        }
        ..0x10000 => {
            put(text, 0, (0xE0 + code / 4096) as u8);
            put(text, 1, trailing(code / 64));
            put(text, 2, trailing(code));
            3
        }
        _ => {
            put(text, 0, (0xF0 + code / 262144 % 8) as u8);
            put(text, 1, trailing(code / 4096));
            put(text, 2, trailing(code / 64));
            put(text, 3, trailing(code));
            4
        }
    }
}

// Writes a code's UTF-8 bytes from the used length on, and says how many they are.
pub fn add_char(text: &mut [u8], used: usize, code: u32) -> usize
    ensures { (result ≡ length (utf8 code)) × (text.new ≡ over text.old used (utf8 code)) }
{
    let from = used.min(text.len());
    put_char(&mut text[from..], code)
}
