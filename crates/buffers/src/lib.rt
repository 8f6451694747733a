// Writes into lent buffers: what would stand past the end is left out.
#![tactic(auto)]

ghost use Rattle.std.specs.Prelude.{◌≡◌, [], ◌∷◌, ◌-◌, ◌*◌, ◌<◌, IfOk, min, length, take, replicate};
ghost use Rattle.std.specs.Io.{ReadsAtMost};
ghost use Rattle.std.specs.Io.KnownBytes.{Consumes, IsAtEnd};
ghost use Rattle.definition.specs.Chars.{part};
ghost use Rattle.buffers.specs.Over.{over};

use std::io;
use std::io::Read;

// Writes an element at an index.
pub fn put<T: Copy>(buffer: &mut [T], at: usize, item: T)
    ensures { buffer.new ≡ over buffer.old at (item ∷ []) }
{
    if at < buffer.len() {
        buffer[at] = item;
    }
}

// Writes a run from the front on.
pub fn put_run<T: Copy>(buffer: &mut [T], run: &[T])
    ensures { buffer.new ≡ over buffer.old 0 run.now }
{
    let n = buffer.len().min(run.len());
    // By index: by the library's `copy_from_slice` an archive for C would need `memmove`, and nothing to write would cost a call.
    for i in 0..n {
        buffer[i] = run[i];
    }
}

// Writes a group of words from the front on; all of them by one test where they fit.
fn put_front<const N: usize>(words: &mut [u32], group: [u32; N])
    ensures { words.new ≡ over words.old 0 group.entry }
{
    if N <= words.len() {
        words[..N].copy_from_slice(&group);
    } else {
        put_run(words, &group);
    }
}

// Writes a group of words at a group's place; so many words make one.
pub fn put_group<const N: usize>(words: &mut [u32], place: usize, group: [u32; N])
    ensures { words.new ≡ over words.old (place * N) group.entry }
{
    let from = place.saturating_mul(N).min(words.len());
    put_front(&mut words[from..], group);
}

// Writes a run of bytes from the used length on.
pub fn add_run(text: &mut [u8], used: usize, run: &[u8])
    ensures { text.new ≡ over text.old used run.now }
{
    let from = used.min(text.len());
    put_run(&mut text[from..], run);
}

// Writes the bytes from `from` up to `to`, or to the used length where that is less, once more from the used length on.
pub fn add_again(text: &mut [u8], used: usize, from: usize, to: usize)
    ensures { text.new ≡ over text.old used (part text.old from (min to used)) }
{
    let end = to.min(used);
    let n = end
        .saturating_sub(from)
        .min(text.len().saturating_sub(used));
    // Byte by byte: by the library's `copy_within` an archive for C would need `memmove`.
    for i in 0..n {
        let byte = text[from + i];
        text[used + i] = byte;
    }
}

// Writes one element throughout.
pub fn fill<T: Copy>(buffer: &mut [T], item: T)
    ensures { buffer.new ≡ replicate (length buffer.old) item }
{
    // By a loop, since the library's `fill` asks for a `Clone` that cannot fail.
    for place in buffer {
        *place = item;
    }
}

// Writes so many spaces from the used length on.
pub fn add_spaces(text: &mut [u8], used: usize, count: usize)
    ensures { text.new ≡ over text.old used (replicate count 32) }
{
    let from = used.min(text.len());
    let to = from + count.min(text.len() - from);
    fill(&mut text[from..to], b' ');
}

// Reads until a buffer is full or the input ends, and says how many bytes that is.
pub fn read_full<R: Read>(input: &mut R, buffer: &mut [u8]) -> io::Result<usize>
    ensures bound { ReadsAtMost result buffer.new }
    ensures bytes { IfOk result (λ n. Consumes (R.remaining input.old) (R.remaining input.new) (take n buffer.new)) }
    ensures end { IfOk result (λ n. n < length buffer.new → IsAtEnd (R.remaining input.new)) }
{
    let mut done = 0;
    // A step is what one read gives.
    while done < buffer.len() {
        let n = input.read(&mut buffer[done..])?;
        if n == 0 {
            return Ok(done);
        }
        done += n;
    }
    Ok(done)
}
