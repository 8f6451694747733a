// An entry over a lent list of descriptors: it gives what the entry over their numbers gives.
#![tactic(auto)]

ghost use Rattle.std.specs.Prelude.{◌≡◌, map, ◌*◌, ◌<◌, ◌≤◌, take};
ghost use Rattle.definition.specs.Escapes.{held_names};
ghost use Rattle.definition.specs.Reading.{read_into, read_numbers};
ghost use Rattle.buffers.specs.Over.{over};
ghost use Rattle.entry.specs.Answers.{described};
ghost use Rattle.strings.specs.Strings.{CallIs};
ghost use Rattle.descriptors.specs.Descriptors.{six};

use answers::Outcome;
use entry::Descriptor;
use strings::parse_strings;

// So many descriptors are copied at most: one more than a list may have is refused as any more are.
const MOST_COPIED: usize = 1025;

// Room for the numbers of all that are copied.
fn zeros() -> [u32; 6150] {
    [0u32; 6150]
}

// Stores the six numbers of descriptor i.
fn put(numbers: &mut [u32; 6150], i: usize, d: Descriptor)
    requires { i < 1025 }
    ensures { numbers.new ≡ over numbers.old (i * 6) (six d) }
{
    let at = i * 6;
    numbers[at..at + 6].copy_from_slice(&[d.kind, d.triple, d.offset, d.size, d.start, d.end]);
}

// Reads the first literals of those whose numbers are stored.
fn read_first(
    script: &[u8],
    numbers: &[u32; 6150],
    count: usize,
    words: &mut [u32],
    text: &mut [u8],
) -> Outcome
    requires { count ≤ 1025 }
    ensures { CallIs (read_numbers held_names script.now (take (count * 6) numbers.now) words.old text.old) words.new text.new result }
{
    let end = count * 6;
    let all: &[u32] = numbers;
    parse_strings(script, &all[..end], words, text)
}

// Reads the literals of a list of descriptors from a script into both buffers.
// Numbers of a fixed length, since nothing is allocated.
pub fn parse_descriptors(
    script: &[u8],
    descriptors: &[Descriptor],
    words: &mut [u32],
    text: &mut [u8],
) -> Outcome
    ensures { CallIs (read_into held_names script.now (map described descriptors.now) words.old text.old) words.new text.new result }
{
    let count = descriptors.len().min(MOST_COPIED);
    let mut numbers = zeros();
    for i in 0..count {
        put(&mut numbers, i, descriptors[i]);
    }
    read_first(script, &numbers, count, words, text)
}
