// The calls of the C interface, which stumpgarret_c exports: flat numbers in, twelve numbers out.
#![tactic(auto)]

ghost use Rattle.std.specs.Prelude.{◌≡◌, [], ◌∷◌};
ghost use Rattle.definition.specs.Escapes.{held_names};
ghost use Rattle.definition.specs.Reading.{read_numbers};
ghost use Rattle.definition.specs.Rows.{signs_numbers};
ghost use Rattle.definition_scripts.specs.Literals.{literals_into};
ghost use Rattle.definition_scripts.specs.CutList.{cut_into};
ghost use Rattle.definition_scripts.specs.Listing.{fields_into};
ghost use Rattle.definition_names.specs.Names.{check, build_into, index_numbers, searched};
ghost use Rattle.definition_names.specs.NamedReading.{named_numbers, fields_named_into};
ghost use Rattle.definition_replay.specs.SpecNumbers.{spec_numbers};
ghost use Rattle.definition_replay.specs.Replay.{replay_numbers};
ghost use Rattle.definition_formed.specs.Formed.{lent};
ghost use Rattle.definition_revisions.specs.Revisions.{compare_into};
ghost use Rattle.definition_written.specs.Written.{written_into};
ghost use Rattle.definition_cuts.specs.Cuts.{checked};
ghost use Rattle.definition_cuts.specs.Plan.{plan_into};
ghost use Rattle.answers.specs.Twelve.{twelve};
ghost use Rattle.twelve.specs.Index.{index_says};
ghost use Rattle.stumpgarret.specs.Indexes.{in_numbers};
ghost use Rattle.stumpgarret.specs.Calls.{CallIs, SignsIs, ListIs, FieldsIs, IndexIs, ReplayIs, CompareIs, WriteIs, PlanIs};

use listing::{list_fields, list_named};
use literals::{list_cut, list_literals};
use names::IndexError;
use replay::replay_trace;
use revisions::compare;
use strings::{parse_named, parse_searched, parse_signs, parse_strings};

// Reads the literals whose numbers are listed, six for each, from a script into both buffers, and answers in twelve numbers.
pub fn stumpgarret_read(
    script: &[u8],
    literals: &[u32],
    words: &mut [u32],
    text: &mut [u8],
    answer: &mut [u32; 12],
)
    ensures { CallIs (read_numbers held_names script.now literals.now words.old text.old) answer.new words.new text.new }
{
    *answer = answers::of_reading(parse_strings(script, literals, words, text));
}

// Reads the literals as `stumpgarret_read` does, writes the row of each field, ten numbers for each, and answers in twelve numbers.
pub fn stumpgarret_signs(script: &[u8], literals: &[u32], rows: &mut [u32], answer: &mut [u32; 12])
    ensures { SignsIs (signs_numbers held_names script.now literals.now rows.old) answer.new rows.new }
{
    *answer = answers::of_reading(parse_signs(script, literals, rows));
}

// Lists the adjacent literals of a script from an offset on, six numbers for each, and answers in twelve numbers.
pub fn stumpgarret_literals(script: &[u8], offset: u32, numbers: &mut [u32], answer: &mut [u32; 12])
    ensures { ListIs (literals_into script.now offset numbers.old) answer.new numbers.new }
{
    *answer = twelve::of_literals(list_literals(script, offset, numbers));
}

// Lists every literal of a script, six numbers for each, and answers in twelve numbers.
pub fn stumpgarret_cut(script: &[u8], numbers: &mut [u32], answer: &mut [u32; 12])
    ensures { ListIs (cut_into script.now numbers.old) answer.new numbers.new }
{
    *answer = twelve::of_literals(list_cut(script, numbers));
}

// Lists every field of a script, a row of ten numbers for each, and answers in twelve numbers.
pub fn stumpgarret_fields(script: &[u8], rows: &mut [u32], answer: &mut [u32; 12])
    ensures { FieldsIs (fields_into held_names script.now rows.old) answer.new rows.new }
{
    *answer = answers::of_fields(list_fields(script, rows));
}

// Lists them as `stumpgarret_fields` does, with the names of a file, which is checked with its index once.
pub fn stumpgarret_fields_named(
    script: &[u8],
    file: &[u8],
    index: &[u32],
    rows: &mut [u32],
    answer: &mut [u32; 12],
)
    ensures { FieldsIs (fields_named_into file.now index.now script.now rows.old) answer.new rows.new }
{
    *answer = answers::of_fields(list_named(script, file, index, rows));
}

// The twelve numbers of an index; of what is wrong with it, its number.
fn of_index(x: Result<u32, IndexError>) -> [u32; 12]
    ensures { result ≡ twelve (index_says (in_numbers x)) }
{
    match x {
        Ok(count) => twelve::of_index(Ok(count)),
        Err(e) => twelve::of_index(Err(u32::from(e))),
    }
}

// Builds the index of a file of names at the front of a list, and answers in twelve numbers.
pub fn stumpgarret_names_build(file: &[u8], index: &mut [u32], answer: &mut [u32; 12])
    ensures { IndexIs (build_into file.now index.old) answer.new index.new }
{
    *answer = of_index(names::build(file, index));
}

// Checks that a list is the index of a file of names, and answers in twelve numbers.
pub fn stumpgarret_names_check(file: &[u8], index: &[u32], answer: &mut [u32; 12])
    ensures { answer.new ≡ twelve (index_numbers (check file.now index.now)) }
{
    *answer = of_index(names::check(file, index));
}

// Reads the literals as `stumpgarret_read` does, with the names of a file, which is checked with its index after the entry checks.
pub fn stumpgarret_read_named(
    script: &[u8],
    literals: &[u32],
    file: &[u8],
    index: &[u32],
    words: &mut [u32],
    text: &mut [u8],
    answer: &mut [u32; 12],
)
    ensures { CallIs (named_numbers file.now index.now script.now literals.now words.old text.old) answer.new words.new text.new }
{
    *answer = answers::of_reading(parse_named(script, literals, file, index, words, text));
}

// Reads the literals as `stumpgarret_read` does, with names searched in a file by whatever index is lent.
pub fn stumpgarret_read_searched(
    script: &[u8],
    literals: &[u32],
    file: &[u8],
    index: &[u32],
    words: &mut [u32],
    text: &mut [u8],
    answer: &mut [u32; 12],
)
    ensures { CallIs (read_numbers (searched file.now index.now) script.now literals.now words.old text.old) answer.new words.new text.new }
{
    *answer = answers::of_reading(parse_searched(script, literals, file, index, words, text));
}

// Replays a trace through the template that the literals are, reading it into words and text, a line for each row, and answers in twelve numbers.
pub fn stumpgarret_replay(
    script: &[u8],
    literals: &[u32],
    trace: &[u8],
    words: &mut [u32],
    text: &mut [u8],
    output: &mut [u8],
    answer: &mut [u32; 12],
)
    ensures { ReplayIs (replay_numbers held_names script.now literals.now trace.now words.old text.old output.old) answer.new words.new text.new output.new }
{
    *answer = answers::of_replay(replay_trace(script, literals, trace, words, text, output));
}

// Tells the parts of a format specification in twelve numbers.
pub fn stumpgarret_spec(spec: &[u8], answer: &mut [u32; 12])
    ensures { answer.new ≡ spec_numbers spec.now }
{
    *answer = formats::tell(spec);
}

// Compares two answers that were read, each lent as its words, its text and the twelve numbers of its reading, lists what lies between by item number, and answers
// in twelve numbers.
pub fn stumpgarret_compare(
    words: &[u32],
    text: &[u8],
    reading: &[u32; 12],
    others: &[u32],
    other: &[u8],
    figures: &[u32; 12],
    list: &mut [u32],
    answer: &mut [u32; 12],
)
    ensures { CompareIs (compare_into (lent reading.now words.now text.now) (lent figures.now others.now other.now) list.old) answer.new list.new }
{
    *answer = twelve::of_comparison(compare(reading, words, text, figures, others, other, list));
}

// Writes the body of a joined answer, which is lent as its words, its text and the twelve numbers of its reading, and answers in twelve numbers.
pub fn stumpgarret_write(
    words: &[u32],
    text: &[u8],
    reading: &[u32; 12],
    body: &mut [u8],
    answer: &mut [u32; 12],
)
    ensures { WriteIs (written_into held_names (lent reading.now words.now text.now) body.old) answer.new body.new }
{
    *answer = answers::of_writing(written::write(reading, words, text, body));
}

// Checks cut offsets in a body of kind 1 whose pieces may have so many bytes, and answers in twelve numbers.
pub fn stumpgarret_cuts_check(body: &[u8], limit: u32, offsets: &[u32], answer: &mut [u32; 12])
    ensures { answer.new ≡ twelve (checked body.now limit offsets.now ∷ []) }
{
    *answer = twelve::of_check(cuts::check(body, limit, offsets));
}

// Plans cuts of a body of kind 1 into pieces of at most so many bytes, at the front of a list, and answers in twelve numbers.
pub fn stumpgarret_cuts_plan(body: &[u8], limit: u32, offsets: &mut [u32], answer: &mut [u32; 12])
    ensures { PlanIs (plan_into body.now limit offsets.old) answer.new offsets.new }
{
    *answer = answers::of_plan(plans::plan(body, limit, offsets));
}
