// Writing an answer's line.
use ast::Base;
use cases::say;
use errors::Refusal;
use std::io;
use std::io::Write;

// Writes the answer of resolution: the steps left and a dictionary, or a refusal.
pub fn resolved<W: Write>(
    out: &mut W,
    base: &Base,
    work: &[u64],
    r: Result<usize, Refusal>,
    left: usize,
) -> io::Result<()> {
    match r {
        Ok(e) => {
            write!(out, "0 {left} ")?;
            cases::dicts::whole(out, base, work, e)
        }
        Err(e) => say::refusal(out, base, work, e, left),
    }
}

// Writes the answer of the test of overlap: the steps left, or a refusal.
pub fn apart<W: Write>(
    out: &mut W,
    base: &Base,
    work: &[u64],
    r: Result<(), Refusal>,
    left: usize,
) -> io::Result<()> {
    match r {
        Ok(()) => write!(out, "0 {left}"),
        Err(e) => say::refusal(out, base, work, e, left),
    }
}
