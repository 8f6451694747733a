// Reads one body of an f-string from standard input and writes its lines.
#![tactic(auto)]

use buffers::read_full;
use std::io;

// A body has at most 1,024 bytes; one more shows that it is too long.
fn main(rt: HostRuntime) -> io::Result<()> {
    let mut body = [0; 1025];
    let n = read_full(&mut rt.stdin(), &mut body)?;
    let mut out = [0; lines::LONGEST];
    let used = lines::body_lines(&body[..n], &mut out);
    rt.write_all(&out[..used])
}
