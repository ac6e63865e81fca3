// Writing an answer's line.
use ast::Base;
use cases::say;
use errors::Refusal;
use std::io;
use std::io::Write;

// Writes the variable and the type of each of the last k pairs of the words.
fn pairs<W: Write>(out: &mut W, base: &Base, work: &[u64], k: usize) -> io::Result<()> {
    let n = work.len();
    let from = n - 2 * k.min(n / 2);
    let (pairs, _) = work[from..].as_chunks::<2>();
    for [x, t] in pairs {
        write!(out, " ")?;
        say::variable(out, base.names, *x as usize)?;
        write!(out, "=")?;
        say::whole(out, base, work, *t as usize)?;
    }
    Ok(())
}

// Writes an answer: a substitution of so many pairs after the steps left, or a refusal.
pub fn answer<W: Write>(
    out: &mut W,
    base: &Base,
    work: &[u64],
    r: Result<usize, Refusal>,
    left: usize,
) -> io::Result<()> {
    match r {
        Ok(k) => {
            write!(out, "0 {left}")?;
            pairs(out, base, work, k)
        }
        Err(e) => say::refusal(out, base, work, e, left),
    }
}
