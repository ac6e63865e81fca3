// Replays recorded session files, good and damaged: reads them from standard input, hands each to `file::read`, and writes
// a line for each.
#![tactic(auto)]

use cases::input::fill;
use errors::Refusal;
use nodes::Counts;
use std::io;
use std::io::{Read, Write};

// The offset of a refusal of a file.
fn offset(e: Refusal) -> usize {
    match e {
        Refusal::Format(at) | Refusal::Limit(at) | Refusal::Reserved(at) => at,
        _ => 0,
    }
}

// Writes the line of an answer: how many names, types, expressions and declarations; or number and offset of a refusal.
fn say<W: Write>(out: &mut W, reading: Result<Counts, Refusal>) -> io::Result<()> {
    match reading {
        Ok(n) => writeln!(out, "read {} {} {} {}", n.names, n.types, n.exprs, n.decls),
        Err(e) => writeln!(out, "refused {} {}", errors::number(e), offset(e)),
    }
}

// The length of the next file, four bytes, the lowest first; none where the input ends.
fn next_length<R: Read>(input: &mut R) -> io::Result<Option<usize>> {
    let mut head = [0u8; 4];
    if fill(input, &mut head)? < 4 {
        return Ok(None);
    }
    Ok(Some(u32::from_le_bytes(head) as usize))
}

// The next file, read into the buffer; none where the input ends, or where the buffer has no room for it.
fn next<'a, R: Read>(input: &mut R, buf: &'a mut [u8]) -> io::Result<Option<&'a [u8]>> {
    let Some(n) = next_length(input)? else {
        return Ok(None);
    };
    let Some(src) = buf.get_mut(..n) else {
        return Ok(None);
    };
    if fill(input, src)? < n {
        return Ok(None);
    }
    Ok(Some(src))
}

// All files. Nothing says that the input ends, so the loop has a last turn.
fn all<R: Read, W: Write>(
    input: &mut R,
    out: &mut W,
    buf: &mut [u8],
    names: &mut [u64; 4236],
    index: &mut [u64; 11776],
) -> io::Result<()> {
    for _ in 0..u64::MAX {
        let Some(src) = next(input, buf)? else {
            return Ok(());
        };
        say(out, file::read(src, names, index))?;
    }
    Ok(())
}

// The table and the index are lent to all files in turn, and keep what the file before left in them.
fn main(rt: HostRuntime) -> io::Result<()> {
    let mut out = rt.stdout();
    let mut buf = [0u8; 65600];
    let mut names = [0u64; 4236];
    let mut index = [0u64; 11776];
    all(&mut rt.stdin(), &mut out, &mut buf, &mut names, &mut index)
}
