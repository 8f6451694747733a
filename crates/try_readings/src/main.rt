// Readings and limits by RULES, which expected.py writes down, and after them the reference's answers, which oracle/fixed
// writes down: each case is taken from standard input and read, and what it gave is written as lines of numbers.
//
// The input is numbers of 32 bits, least byte first. Of each of the two lists first comes how many cases there are, then each
// case: how many list numbers and script pieces it has and how many words and text bytes it lends, the list, and the pieces. A
// piece is how often it stands in the script, how many bytes it has, and the bytes. What is written of a case is three lines: the
// twelve numbers, the words and the text as they are afterwards, where N*C stands for N elements that are C.
#![tactic(auto)]

ghost use Rattle.std.specs.Prelude.{◌≤◌, ◌≡◌, length};

use buffers::read_full;
use std::io;
use stumpgarret::stumpgarret_read;

const FILL_WORD: u32 = 0xA5A5A5A5;

const FILL_BYTE: u8 = 0xA5;

// So many bytes further, and no further than the end.
fn forward(bytes: &[u8], at: usize, count: usize) -> usize
    ensures { (result ≤ length bytes.now) × (at ≤ length bytes.now → at ≤ result) }
{
    if bytes.len() <= at {
        return bytes.len();
    }
    let left = bytes.len() - at;
    if left < count {
        return bytes.len();
    }
    at + count
}

// A byte as a number; 0 where the bytes end, since a case that is cut off reads as zeros.
fn byte_at(bytes: &[u8], at: usize) -> u32 {
    if at < bytes.len() {
        u32::from(bytes[at])
    } else {
        0
    }
}

// The number that begins at an index.
fn number_at(bytes: &[u8], at: usize) -> u32 {
    let second = byte_at(bytes, forward(bytes, at, 1));
    let third = byte_at(bytes, forward(bytes, at, 2));
    let fourth = byte_at(bytes, forward(bytes, at, 3));
    byte_at(bytes, at) | (second << 8) | (third << 16) | (fourth << 24)
}

// Takes so many numbers, as far as the list goes, and says where they end.
fn take_list(input: &[u8], from: usize, count: u32, list: &mut [u32]) -> usize {
    let n = list.len().min(count as usize);
    let mut at = from;
    for number in &mut list[..n] {
        *number = number_at(input, at);
        at = forward(input, at, 4);
    }
    at
}

// Writes a piece behind the used bytes of a script, as far as that goes, and says how many are used then.
fn put_piece(script: &mut [u8], used: usize, piece: &[u8]) -> usize {
    let end = forward(script, used, piece.len());
    buffers::add_run(script, used, piece);
    end
}

// A piece, so many times.
fn put_times(script: &mut [u8], from: usize, piece: &[u8], times: u32) -> usize {
    let mut used = from;
    for _ in 0..times {
        used = put_piece(script, used, piece);
    }
    used
}

// How far the input and the script are used.
#[derive(Clone, Copy)]
struct Taken {
    at: usize,
    used: usize,
}

// Takes a piece.
fn take_piece(input: &[u8], taken: Taken, script: &mut [u8]) -> Taken {
    let times = number_at(input, taken.at);
    let size = number_at(input, forward(input, taken.at, 4)) as usize;
    let from = forward(input, taken.at, 8);
    let to = forward(input, from, size);
    let used = put_times(script, taken.used, &input[from..to], times);
    Taken { at: to, used }
}

// Takes so many pieces.
fn take_script(input: &[u8], from: usize, count: u32, script: &mut [u8]) -> Taken {
    let mut taken = Taken { at: from, used: 0 };
    for _ in 0..count {
        taken = take_piece(input, taken, script);
    }
    taken
}

// Writes a text.
fn put(rt: &impl Print, text: &[u8]) -> io::Result<()> {
    rt.write_all(text)
}

// A run of equal elements.
#[derive(Clone, Copy)]
struct Run {
    count: u32,
    element: u32,
}

// Writes a run after a space; of none, nothing.
fn put_run(rt: &impl Print, run: Run) -> io::Result<()> {
    let Run { count, element } = run;
    match count {
        0 => Ok(()),
        1 => print!(rt; " {element}"),
        _ => print!(rt; " {count}*{element}"),
    }
}

// The run with one more element; if that is another one, the run is written and a new one begins.
fn next(rt: &impl Print, run: Run, element: u32) -> io::Result<Run> {
    if element == run.element && run.count < u32::MAX {
        return Ok(Run {
            count: run.count + 1,
            element,
        });
    }
    put_run(rt, run)?;
    Ok(Run { count: 1, element })
}

// Writes words in a line, as runs.
fn put_words(rt: &impl Print, words: &[u32]) -> io::Result<()> {
    let mut run = Run {
        count: 0,
        element: 0,
    };
    for word in words {
        run = next(rt, run, *word)?;
    }
    put_run(rt, run)?;
    put(rt, b"\n")
}

// Writes bytes in a line, as runs.
fn put_bytes(rt: &impl Print, bytes: &[u8]) -> io::Result<()> {
    let mut run = Run {
        count: 0,
        element: 0,
    };
    for byte in bytes {
        run = next(rt, run, u32::from(*byte))?;
    }
    put_run(rt, run)?;
    put(rt, b"\n")
}

// Writes the twelve numbers in a line.
fn put_answer(rt: &impl Print, answer: &[u32; 12]) -> io::Result<()> {
    put(rt, b"answer")?;
    put_words(rt, answer)
}

// Reads a case with filled buffers, and writes what it gave.
fn read_case(
    rt: &impl Print,
    script: &[u8],
    list: &[u32],
    words: &mut [u32],
    text: &mut [u8],
) -> io::Result<()> {
    let mut answer = [FILL_WORD; 12];
    buffers::fill(words, FILL_WORD);
    buffers::fill(text, FILL_BYTE);
    stumpgarret_read(script, list, words, text, &mut answer);
    put_answer(rt, &answer)?;
    put(rt, b"words")?;
    put_words(rt, words)?;
    put(rt, b"text")?;
    put_bytes(rt, text)
}

// Takes a case and reads it, and says where the next one begins.
fn run_case(
    rt: &impl Print,
    input: &[u8],
    at: usize,
    list: &mut [u32],
    script: &mut [u8],
    words: &mut [u32],
    text: &mut [u8],
) -> io::Result<usize> {
    let numbers = number_at(input, at);
    let pieces = number_at(input, forward(input, at, 4));
    let lent_words = number_at(input, forward(input, at, 8)) as usize;
    let lent_bytes = number_at(input, forward(input, at, 12)) as usize;
    let listed = take_list(input, forward(input, at, 16), numbers, list);
    let taken = take_script(input, listed, pieces, script);
    let list_end = list.len().min(numbers as usize);
    let script_end = script.len().min(taken.used);
    let words_end = words.len().min(lent_words);
    let text_end = text.len().min(lent_bytes);
    read_case(
        rt,
        &script[..script_end],
        &list[..list_end],
        &mut words[..words_end],
        &mut text[..text_end],
    )?;
    Ok(taken.at)
}

// Every case of the list that begins at an index; says where the list ends.
fn run_list(
    rt: &impl Print,
    input: &[u8],
    from: usize,
    list: &mut [u32],
    script: &mut [u8],
    words: &mut [u32],
    text: &mut [u8],
) -> io::Result<usize> {
    let count = number_at(input, from);
    let mut at = forward(input, from, 4);
    for _ in 0..count {
        at = run_case(rt, input, at, list, script, words, text)?;
    }
    Ok(at)
}

// Room for a body of 1 MiB and some more.
fn large() -> [u8; 1048640]
    ensures { 1048640 ≡ length result }
{
    [0; 1048640]
}

// Room for the numbers of more literals than may be read.
fn numbers() -> [u32; 8192]
    ensures { 8192 ≡ length result }
{
    [0; 8192]
}

// Room for 8,192 records.
fn records() -> [u32; 65536]
    ensures { 65536 ≡ length result }
{
    [0; 65536]
}

fn main(rt: HostRuntime) -> io::Result<()> {
    let mut input = large();
    let mut list = numbers();
    let mut script = large();
    let mut words = records();
    let mut text = large();
    let n = read_full(&mut rt.stdin(), &mut input)?;
    let rest = run_list(
        &rt,
        &input[..n],
        0,
        &mut list,
        &mut script,
        &mut words,
        &mut text,
    )?;
    run_list(
        &rt,
        &input[..n],
        rest,
        &mut list,
        &mut script,
        &mut words,
        &mut text,
    )?;
    Ok(())
}
