// The lines of a trace's rows by a template that lies in words and text: what is written of each row, then byte 10, and what refuses a row.
#![tactic(auto)]

ghost use Rattle.std.specs.Prelude.{◌≡◌, ◌+◌, ◌*◌, ◌<◌, ◌≤◌, min, Ok, length, take, replicate};
ghost use Rattle.definition_replay.specs.Replay.{lines_of};
ghost use Rattle.formats.specs.Parts.{FormIs, written_by};
ghost use Rattle.integers.specs.Written.{integer};
ghost use Rattle.buffers.specs.Over.{over};
ghost use Rattle.templates.specs.Walk.{parts_laid, Sized};
ghost use Rattle.traces.specs.Cells.{told_of_row};
ghost use Rattle.trace_lines.specs.Steps.{StepIs, step_numbers, held_step, Held};
ghost use Rattle.trace_lines.specs.Lines.{Writes, FieldIs, LineIs, LinesAre, ToldIs};

use formats::{Form, FormError};
use numbering::{Number, RecordKind};
use templates::Place;
use traces::{Ends, RowError, number_of};

const FIELD: u32 = RecordKind::Field as u32;

const MOST_BYTES: usize = 0xFFFFFFFF;

const HELD_STEPS: usize = 32;

// A step of a line: its record's number and where its text begins, the item, and the form of its spec, if it has one.
#[derive(Clone, Copy)]
pub(crate) struct Step {
    first: usize,
    at: usize,
    item: Place,
    form: Result<Form, FormError>,
}

// The step at a record's number, whose text begins at a place.
fn find_step(words: &[u32], count: usize, text: &[u8], i: usize, at: usize) -> Step
    requires { Sized words.now count × (i < count) × (at ≤ length text.now) }
    ensures { StepIs words.now count text.now i at result }
{
    let Some(item) = templates::find_place(words, count as u32, text, i, at) else {
        unreachable!();
    };
    Step {
        first: i,
        at,
        item,
        form: formats::read_form(&text[item.own..item.to]),
    }
}

// Writes a step that has a form into its sixteen numbers.
fn hold_step(held: &mut [u32], k: usize, step: Step, form: Form)
    requires { (k < 32) × (step.form ≡ Ok form) × (step.first ≤ 0xFFFFFFFF) × (step.at ≤ 0xFFFFFFFF) × (step.item.own ≤ 0xFFFFFFFF) × (step.item.to ≤ 0xFFFFFFFF) × (step.item.next ≤ 0xFFFFFFFF) × (form.fill ≤ 4) × (form.shape.width ≤ 64) }
    ensures { (held.new ≡ over held.old (k * 16) (step_numbers step form)) × (held_step (step_numbers step form) ≡ step) }
{
    let Step {
        first,
        at,
        item,
        ..
    } = step;
    let shape = form.shape;
    let numbers = [
        first as u32,
        at as u32,
        item.kind,
        item.mode,
        item.own as u32,
        u32::from(item.nested),
        item.to as u32,
        item.next as u32,
        form.fill as u32,
        u32::from(form.pad),
        u32::from(shape.align),
        u32::from(shape.sign),
        u32::from(shape.alternate),
        shape.width as u32,
        u32::from(shape.grouping),
        u32::from(shape.kind),
    ];
    buffers::put_group(held, k, numbers);
}

// The step of sixteen numbers.
fn held_step(numbers: &[u32]) -> Step
    requires { 16 ≤ length numbers.now }
    ensures { result ≡ held_step numbers.now }
{
    let item = Place {
        kind: numbers[2],
        mode: numbers[3],
        own: numbers[4] as usize,
        nested: numbers[5] != 0,
        to: numbers[6] as usize,
        next: numbers[7] as usize,
    };
    let shape = forms::Shape {
        align: (numbers[10] % 256) as u8,
        sign: (numbers[11] % 256) as u8,
        alternate: numbers[12] != 0,
        width: numbers[13] as usize,
        grouping: (numbers[14] % 256) as u8,
        kind: (numbers[15] % 256) as u8,
    };
    let form = Form {
        fill: numbers[8] as usize,
        pad: (numbers[9] % 256) as u8,
        shape,
    };
    Step {
        first: numbers[0] as usize,
        at: numbers[1] as usize,
        item,
        form: Ok(form),
    }
}

// Works out the first steps of a template, as many as have room, and says how many they are.
fn hold_steps(held: &mut [u32], words: &[u32], count: usize, text: &[u8]) -> usize
    requires { (512 ≤ length held.old) × Sized words.now count × (length text.now ≤ 0xFFFFFFFF) }
    ensures { Held held.new words.now count text.now result }
{
    let mut k: usize = 0;
    let mut i: usize = 0;
    let mut at: usize = 0;
    // A step is an item of some records.
    while i < count {
        if HELD_STEPS <= k {
            return k;
        }
        let step = find_step(words, count, text, i, at);
        let Ok(form) = step.form else {
            return k;
        };
        hold_step(held, k, step, form);
        k += 1;
        i = step.item.next;
        at = step.item.to;
    }
    k
}

// The step at a record's number, whose text begins at a place: number k of those that are held, if it is there, else worked out.
fn step_at(
    held: &[u32],
    steps: usize,
    k: usize,
    words: &[u32],
    count: usize,
    text: &[u8],
    i: usize,
    at: usize,
) -> Step
    requires { Held held.now words.now count text.now steps × Sized words.now count × (i < count) × (at ≤ length text.now) }
    ensures { StepIs words.now count text.now i at result }
{
    if steps <= k {
        return find_step(words, count, text, i, at);
    }
    let from = k * 16;
    let to = from + 16;
    let step = held_step(&held[from..to]);
    if step.first != i || step.at != at {
        return find_step(words, count, text, i, at);
    }
    step
}

// What was written: where it ends; what stands behind the row's columns so far, nothing if one is refused; and where the next column or row begins.
#[derive(Clone, Copy)]
pub(crate) struct Put {
    used: usize,
    ends: Ends,
    next: usize,
}

// Writes an integer by a spec's form from the front on, nothing where it has none; says how many bytes it has, at most 325.
fn write_formed(
    out: &mut [u8],
    spec: &[u8],
    form: Result<Form, FormError>,
    negative: bool,
    size: u32,
) -> usize
    requires { FormIs spec.now form }
    ensures { Writes (written_by spec.now (integer negative size)) out.old 0 out.new result × (result ≤ 325) }
{
    formats::write_by(out, spec, form, negative, size)
}

// Writes an item of a row from the used length on: text as it stands; of a field the column at a place, if a comma or nothing stands before it, by
// the form of the field's spec.
fn put_item(
    out: &mut [u8],
    used: usize,
    kind: u32,
    own: &[u8],
    spec: &[u8],
    form: Result<Form, FormError>,
    trace: &[u8],
    ends: Ends,
    at: usize,
) -> Put
    requires { (used ≤ 0x100000000000) × (length own.now ≤ 0xFFFFFFFF) × (at ≤ length trace.now) × FormIs spec.now form }
    ensures { ((kind ≡ 2 → ⊥) → Writes own.now out.old used out.new result.used × (result.ends ≡ ends) × (result.next ≡ at)) × (kind ≡ 2 → FieldIs spec.now trace.now ends at out.old used out.new result.used result.ends result.next) × (result.used ≤ used + length own.now + 325) × (result.next ≤ length trace.now) }
{
    if kind != FIELD {
        buffers::add_run(out, used, own);
        return Put {
            used: used + own.len(),
            ends,
            next: at,
        };
    }
    let Ends::Comma = ends else {
        return Put {
            used,
            ends: Ends::Nothing,
            next: at,
        };
    };
    let column = traces::read_column(trace, at);
    let from = used.min(out.len());
    let size = write_formed(&mut out[from..], spec, form, column.negative, column.size);
    Put {
        used: used + size,
        ends: column.ends,
        next: column.next,
    }
}

// A row's line: where it ends, and where the next row begins.
#[derive(Clone, Copy)]
pub(crate) struct Line {
    used: usize,
    next: usize,
}

// Writes the line of the row at a place from the used length on, up to the first column that refuses it; none then.
fn write_line(
    out: &mut [u8],
    from: usize,
    held: &[u32],
    steps: usize,
    words: &[u32],
    count: usize,
    text: &[u8],
    trace: &[u8],
    row: usize,
) -> Option<Line>
    requires { Held held.now words.now count text.now steps × Sized words.now count × (length text.now ≤ 0xFFFFFFFF) × (from ≤ 0x100000000) × (row ≤ length trace.now) }
    ensures { LineIs words.now count text.now trace.now row out.old from out.new result }
{
    let mut used = from;
    let mut k: usize = 0;
    let mut i: usize = 0;
    let mut at: usize = 0;
    let mut ends = Ends::Comma;
    let mut next = row;
    // A step is an item of some records.
    while i < count {
        let step = step_at(held, steps, k, words, count, text, i, at);
        let item = step.item;
        let put = put_item(
            out,
            used,
            item.kind,
            &text[at..item.own],
            &text[item.own..item.to],
            step.form,
            trace,
            ends,
            next,
        );
        if let Ends::Nothing = put.ends {
            return None;
        }
        used = put.used;
        ends = put.ends;
        next = put.next;
        k += 1;
        i = item.next;
        at = item.to;
    }
    buffers::put(out, used, b'\n');
    match ends {
        Ends::Comma => None,
        _ => Some(Line {
            used: used + 1,
            next,
        }),
    }
}

// The lines of rows: 0, how many there are and where they end; or the number of a refusal and the row that is refused, from 0. A number and no
// `Result`, since of words that hold no template a row without a line may have no refusal.
#[derive(Clone, Copy)]
pub(crate) struct Rows {
    number: u32,
    row: usize,
    used: usize,
}

// The number of a row's refusal; 0 for none.
fn row_number(refusal: Result<(), RowError>) -> u32
    ensures { result ≡ told_of_row refusal }
{
    match refusal {
        Ok(()) => 0,
        Err(e) => u32::from(e),
    }
}

// Writes the lines of a trace's rows from the front on, up to the first row that is refused. Where they end is told up to all numbers and one more.
fn write_lines(
    out: &mut [u8],
    held: &[u32],
    steps: usize,
    words: &[u32],
    count: usize,
    text: &[u8],
    trace: &[u8],
    fields: usize,
) -> Rows
    requires { Held held.now words.now count text.now steps × Sized words.now count × (length text.now ≤ 0xFFFFFFFF) }
    ensures { LinesAre words.now count text.now trace.now fields out.old out.new result.number result.row result.used }
{
    let mut used: usize = 0;
    let mut next: usize = 0;
    let mut row: usize = 0;
    // A step is a row.
    while next < trace.len() {
        let from = used.min(MOST_BYTES + 1);
        let Some(line) = write_line(out, from, held, steps, words, count, text, trace, next) else {
            return Rows {
                number: row_number(traces::check_row(trace, next, fields)),
                row,
                used: 0,
            };
        };
        used = line.used;
        next = line.next;
        row += 1;
    }
    Rows {
        number: 0,
        row,
        used,
    }
}

// Works out the template's steps, and writes the lines of a trace's rows by them.
fn write_rows(
    out: &mut [u8],
    words: &[u32],
    count: usize,
    text: &[u8],
    trace: &[u8],
    fields: usize,
) -> Rows
    requires { Sized words.now count × (length text.now ≤ 0xFFFFFFFF) }
    ensures { LinesAre words.now count text.now trace.now fields out.old out.new result.number result.row result.used }
{
    // Fixed memory, since nothing is allocated; numbers, since an array of structs is copied for each row.
    let mut held = [0u32; 512];
    let steps = hold_steps(&mut held, words, count, text);
    write_lines(out, &held, steps, words, count, text, trace, fields)
}

// What is told of lines that were written: how many rows there are, and how many bytes their lines have; at most 4,294,967,295.
#[derive(Clone, Copy)]
pub struct Written {
    pub rows: u32,
    pub bytes: u32,
}

// A refusal of 68 to 73, and the field or the row, from 0, or the bytes that are needed; at most 4,294,967,295.
#[derive(Clone, Copy)]
pub struct Stopped {
    pub number: u32,
    pub told: u32,
}

// A refusal, which leaves zeros.
fn refuse(out: &mut [u8], number: u32, told: usize) -> Stopped
    ensures { (result ≡ record { number = number; told = min told 0xFFFFFFFF }) × (out.new ≡ replicate (length out.old) 0) }
{
    buffers::fill(out, 0);
    Stopped {
        number,
        told: number_of(told),
    }
}

// Writes the lines of a trace's rows by a template of so many records, or refuses it or a row.
fn write_checked(
    out: &mut [u8],
    words: &[u32],
    count: usize,
    text: &[u8],
    trace: &[u8],
) -> Result<Written, Stopped>
    requires { Sized words.now count × (length text.now ≤ 0xFFFFFFFF) }
    ensures { ToldIs (lines_of (parts_laid words.now count text.now) trace.now) out.old out.new result }
{
    let fields = match templates::check_template(words, count as u32, text) {
        Ok(fields) => fields,
        Err(refused) => return Err(refuse(out, u32::from(refused.why), refused.field)),
    };
    let lines = write_rows(out, words, count, text, trace, fields);
    if lines.number != 0 {
        return Err(refuse(out, lines.number, lines.row));
    }
    let room = number_of(out.len()) as usize;
    if room < lines.used {
        return Err(refuse(out, Number::TooLittleLineRoom as u32, lines.used));
    }
    Ok(Written {
        rows: number_of(lines.row),
        bytes: number_of(lines.used),
    })
}

// Writes a line for each row of a trace by the template that lies in words and text, at most so many records and text bytes.
pub fn write_trace(
    out: &mut [u8],
    words: &[u32],
    count: u32,
    text: &[u8],
    size: u32,
    trace: &[u8],
) -> Result<Written, Stopped>
    ensures { ToldIs (lines_of (parts_laid words.now count (take size text.now)) trace.now) out.old out.new result }
{
    let most = templates::records_in(words, count);
    let end = (size as usize).min(text.len());
    write_checked(out, words, most, &text[..end], trace)
}
