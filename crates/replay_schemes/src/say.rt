// Writing schemes.
use ast::{Base, Cell};
use cases::say;
use errors::Refusal;
use std::io;
use std::io::Write;
use subst::{Qual, Scheme};

// Writes a predicate.
fn predicate<W: Write>(
    out: &mut W,
    base: &Base,
    work: &[u64],
    c: usize,
    t: usize,
) -> io::Result<()> {
    write!(out, " (")?;
    say::name(out, base.names, c)?;
    write!(out, " ")?;
    say::whole(out, base, work, t)?;
    write!(out, ")")
}

// Writes the first predicate of a list; the rest of it.
fn first<W: Write>(out: &mut W, base: &Base, work: &[u64], l: usize) -> io::Result<usize> {
    if l < names::NODE {
        return Ok(ast::NIL);
    }
    if say::is_there(base, work, l) {
        let k = subst::class_at(base, work, l);
        let c = ast::cell_at(base, work, l);
        let Cell::Cons(a, b) = c else {
            return Ok(ast::NIL);
        };
        predicate(out, base, work, k, a)?;
        return Ok(b);
    }
    Ok(ast::NIL)
}

// Writes a scheme: its variables, its two predicates and its type.
fn scheme<W: Write>(out: &mut W, base: &Base, work: &[u64], scheme: Scheme) -> io::Result<()> {
    write!(out, " forall")?;
    say::all(out, base, work, scheme.vars)?;
    write!(out, ".")?;
    let l = first(out, base, work, scheme.preds)?;
    first(out, base, work, l)?;
    write!(out, " => ")?;
    say::whole(out, base, work, scheme.ty)
}

// Writes what came of a scheme with these variables: the steps left and the scheme, or a refusal.
pub fn answer<W: Write>(
    out: &mut W,
    base: &Base,
    work: &[u64],
    vars: usize,
    r: Result<Qual, Refusal>,
    left: usize,
) -> io::Result<()> {
    match r {
        Ok(Qual { preds, ty }) => {
            write!(out, "0 {left}")?;
            scheme(out, base, work, Scheme { vars, preds, ty })
        }
        Err(e) => say::refusal(out, base, work, e, left),
    }
}

// Writes whether a scheme is closed.
pub fn truth<W: Write>(out: &mut W, closed: bool) -> io::Result<()> {
    if closed {
        return write!(out, "closed");
    }
    write!(out, "not closed")
}
