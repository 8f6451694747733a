// Tries the leaves on the vectors of standard input, which expected.py made, and writes a line for each of what they gave.
#![tactic(auto)]

use buffers::read_full;
use escapes::Escaped;
use names::HELD;
use std::io;
use utf8::{Cursor, Step};

// Writes a text.
fn put(rt: &impl Print, text: &[u8]) -> io::Result<()> {
    rt.write_all(text)
}

// Writes a number after a space.
fn put_number(rt: &impl Print, n: usize) -> io::Result<()> {
    print!(rt; " {n}")
}

// Each character by `peek` and by `next_char`, and where it ends; then `peek` at the end.
fn put_chars(rt: &impl Print, s: &[u8]) -> io::Result<()> {
    let mut cursor = Cursor { at: 0 };
    for _ in 0..s.len() {
        put_number(rt, cursor.peek(s) as usize)?;
        let Step::Char(c, next) = cursor.next_char(s) else {
            return Ok(());
        };
        put_number(rt, c as usize)?;
        put_number(rt, next.at)?;
        cursor = next;
    }
    put_number(rt, cursor.peek(s) as usize)
}

// What an escape stands for, and its numbers.
fn put_escaped(rt: &impl Print, answer: Escaped) -> io::Result<()> {
    match answer {
        Escaped::Code(c, k) => {
            put(rt, b"code")?;
            put_number(rt, c as usize)?;
            put_number(rt, k.at)
        }
        Escaped::Kept(k) => {
            put(rt, b"kept")?;
            put_number(rt, k.at)
        }
        Escaped::Gone(k) => {
            put(rt, b"gone")?;
            put_number(rt, k.at)
        }
        Escaped::Refused(r) => {
            put(rt, b"refused")?;
            put_number(rt, r.number as usize)?;
            put_number(rt, r.at)
        }
    }
}

// One vector: `b` the class of each byte, `c` the well-formed prefix, the bytes that begin a character and the characters, else the escape of a kind at an index.
fn try_one(rt: &impl Print, sort: u8, kind: u8, at: usize, s: &[u8]) -> io::Result<()> {
    match sort {
        b'b' => {
            put(rt, b"class")?;
            if !s.is_empty() {
                put_number(rt, utf8::class(s[0]))?;
            }
        }
        b'c' => {
            put(rt, b"formed")?;
            let formed = prefixes::well_formed(s);
            put_number(rt, formed.len)?;
            put_number(rt, formed.chars)?;
            put_number(rt, counts::heads(s))?;
            put_chars(rt, s)?;
        }
        _ => {
            let answer = escapes::parse_escaped_char(s, Cursor { at }, u32::from(kind), &HELD);
            put_escaped(rt, answer)?;
        }
    }
    put(rt, b"\n")
}

// A vector is four bytes, its sort, kind, index and length, and so many bytes.
fn try_all(rt: &impl Print, input: &[u8]) -> io::Result<()> {
    // A step is a vector, of any length.
    let mut i = 0;
    while i < input.len() {
        let left = input.len() - i;
        if left < 4 {
            return Ok(());
        }
        let from = i + 4;
        let len = usize::from(input[i + 3]);
        if left - 4 < len {
            return Ok(());
        }
        let to = from + len;
        let at = usize::from(input[i + 2]);
        try_one(rt, input[i], input[i + 1], at, &input[from..to])?;
        i = to;
    }
    Ok(())
}

// All of standard input, as much as fits.
fn main(rt: HostRuntime) -> io::Result<()> {
    let mut space = [0; 65536];
    let n = read_full(&mut rt.stdin(), &mut space)?;
    try_all(&rt, &space[..n])
}
