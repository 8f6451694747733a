// Why a field has its conversion, written: a line.
ghost use Rattle.std.specs.Prelude.{◌≡◌, length};
ghost use Rattle.definition_lines.specs.Why.{written_end, reason_end, why_line};
ghost use Rattle.objects.specs.Written.{Adds, Fits, of_text, Puts};

use crate::{MOST_TEXT, write_numbered, write_run, write_text};

// Writes how a line ends whose conversion is written, with the place after the `!`.
// Apart from `write_spec`, whose words are other ones.
fn write_written(out: &mut [u8], used: usize, bang: u32) -> usize
    requires { Fits used (written_end bang) }
    ensures { Adds (written_end bang) out.old used out.new result }
{
    let after = write_numbered(out, used, b"written\",\"after\":", bang);
    write_run(out, after, b"}\n")
}

// Writes how a line ends, by the reason.
fn write_reason(out: &mut [u8], used: usize, reason: u32, bang: u32) -> usize
    requires { Fits used (reason_end reason bang) }
    ensures { Adds (reason_end reason bang) out.old used out.new result }
{
    match reason {
        1 => write_written(out, used, bang),
        2 => write_run(out, used, b"none\"}\n"),
        3 => write_run(out, used, b"repr\"}\n"),
        _ => write_run(out, used, b"spec\"}\n"),
    }
}

// Writes a field's line.
fn write_why(out: &mut [u8], used: usize, text: &[u8], place: u32, reason: u32, bang: u32) -> usize
    requires { Fits used (why_line text.now place reason bang) }
    ensures { Adds (why_line text.now place reason bang) out.old used out.new result }
{
    let from = write_run(out, used, b"{\"field\":\"");
    let to = write_text(out, from, text);
    let placed = write_numbered(out, to, b"\",\"at\":", place);
    let told = write_run(out, placed, b",\"reason\":\"");
    write_reason(out, told, reason, bang)
}

// Writes a field's line from the front on, and says how many bytes it has; nothing for a text of more than 4,294,967,295 bytes.
// The reason stays a number: put_why promises a line for every number.
pub fn put_why(out: &mut [u8], text: &[u8], place: u32, reason: u32, bang: u32) -> usize
    ensures { Puts (of_text text.now (why_line text.now place reason bang)) out.old out.new result }
{
    if MOST_TEXT < text.len() {
        return 0;
    }
    write_why(out, 0, text, place, reason, bang)
}
