// A body written back from the records of a joined answer, in one pass: whether its spelling reads back is told by the records alone.
#![tactic(auto)]

mod spell;
mod turns;

ghost use Rattle.std.specs.Prelude.{◌≡◌, false, ◌≤◌, ◌*◌, length, Err};
ghost use Rattle.definition.specs.Escapes.{held_names};
ghost use Rattle.definition.specs.Reading.{zeros};
ghost use Rattle.definition_formed.specs.Formed.{lent};
ghost use Rattle.definition_written.specs.Written.{written_into};
ghost use Rattle.formed.specs.Good.{records_at};
ghost use Rattle.written.specs.Going.{Rules, Spells};
ghost use Rattle.written.specs.Answers.{WrittenIs};

use answers::Unwritten;
use buffers::fill;
use formed::{is_formed, number_at, record_at};
use numbering::Number;
use opens::NONE_OPEN;
use spell::put_closers;
use turns::{put_record, turn};

const MOST_BYTES: usize = 1048576;

// Writes what so many records hold from the front on, and says how many bytes that is; nothing for what is longer than 1,048,576 or reads back otherwise, up
// to where that is known.
fn spell_all(body: &mut [u8], words: &[u32], count: u32, text: &[u8]) -> Option<usize>
    requires { (count * 8 ≤ length words.now) × Rules (length text.now) false 0 0 (records_at words.now count 0 0) }
    ensures { Spells text.now (records_at words.now count 0 0) body.old body.new result }
{
    let mut o = NONE_OPEN;
    let mut used: usize = 0;
    for i in 0..count {
        let h = record_at(words, i);
        let p = turn(text, h, o)?;
        used = put_record(body, used, text, h, o.depth, p.depth, p.late);
        if MOST_BYTES < used {
            return None;
        }
        o = p;
    }
    let end = put_closers(body, used, o.depth);
    if MOST_BYTES < end {
        return None;
    }
    Some(end)
}

// A refusal, which leaves zeros.
fn refuse(number: u32, needed: u32, body: &mut [u8]) -> Result<u32, Unwritten>
    ensures { (result ≡ Err (record { number = number; needed = needed })) × (body.new ≡ zeros body.old) }
{
    fill(body, 0);
    Err(Unwritten { number, needed })
}

// Writes the body of a joined answer that is lent: its numbers, words and text.
pub fn write(numbers: &[u32], words: &[u32], text: &[u8], body: &mut [u8]) -> Result<u32, Unwritten>
    ensures { WrittenIs (written_into held_names (lent numbers.now words.now text.now) body.old) body.new result }
{
    if !is_formed(numbers, words, text) {
        return refuse(Number::NotWritable as u32, 0, body);
    }
    if number_at(numbers, 1) != 1 {
        return refuse(Number::NotWritable as u32, 0, body);
    }
    let count = number_at(numbers, 5);
    let size = number_at(numbers, 6) as usize;
    let Some(used) = spell_all(body, words, count, &text[..size]) else {
        return refuse(Number::NotReadBack as u32, 0, body);
    };
    if body.len() < used {
        return refuse(Number::TooLittleBodyRoom as u32, used as u32, body);
    }
    Ok(used as u32)
}
