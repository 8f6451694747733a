// A recorded trace replayed through a template: for each row the line that Python would write, then byte 10.
#![tactic(auto)]

ghost use Rattle.std.specs.Prelude.{◌≡◌, ◌*◌, ◌≤◌, length};
ghost use Rattle.definition.specs.Escapes.{held_names};
ghost use Rattle.definition.specs.Records.{Answer};
ghost use Rattle.definition.specs.Reading.{zeros};
ghost use Rattle.definition_replay.specs.Replay.{replay_numbers};
ghost use Rattle.replay.specs.Answers.{ReplayIs, Holds, replay_of};

use answers::{Lines, Outcome, Stop, Unreplayed};
use strings::parse_strings;
use trace_lines::write_trace;

// Writes zeros in words and text.
fn clear(words: &mut [u32], text: &mut [u8])
    ensures { (words.new ≡ zeros words.old) × (text.new ≡ zeros text.old) }
{
    buffers::fill(words, 0);
    buffers::fill(text, 0);
}

// Replays a trace through the template that lies in words and text.
fn replay_read(
    x: answers::Answer,
    trace: &[u8],
    words: &mut [u32],
    text: &mut [u8],
    output: &mut [u8],
) -> Result<Lines, Unreplayed>
    requires { x.records * 8 ≤ length words.old }
    ensures { (a : Answer) → Holds a x words.old text.old → ReplayIs (replay_of a trace.now words.old text.old output.old) words.new text.new output.new result }
{
    match write_trace(output, words, x.records, text, x.text, trace) {
        Ok(lines) => Ok(Lines {
            reading: x,
            rows: lines.rows,
            bytes: lines.bytes,
        }),
        Err(stop) => {
            clear(words, text);
            Err(Unreplayed::Stopped(Stop {
                number: stop.number,
                told: stop.told,
            }))
        }
    }
}

// Replays a trace through the template whose literals are listed, six numbers for each: reads it into words and text, and writes a line for each
// row into the output.
pub fn replay_trace(
    script: &[u8],
    numbers: &[u32],
    trace: &[u8],
    words: &mut [u32],
    text: &mut [u8],
    output: &mut [u8],
) -> Result<Lines, Unreplayed>
    ensures { ReplayIs (replay_numbers held_names script.now numbers.now trace.now words.old text.old output.old) words.new text.new output.new result }
{
    match parse_strings(script, numbers, words, text) {
        Outcome::Refused(r) => {
            clear(words, text);
            buffers::fill(output, 0);
            Err(Unreplayed::Unread(r))
        }
        Outcome::Accepted(x) => replay_read(x, trace, words, text, output),
    }
}
