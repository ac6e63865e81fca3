// Writing dictionaries. What lies out of the words or the names is written as nothing.
use crate::say;
use ast::{Base, Cell};
use cores::Part;
use std::io;
use std::io::Write;

// What a dictionary is; `self`, if it does not lie in the words.
fn part(base: &Base, work: &[u64], t: usize) -> Part {
    if say::is_there(base, work, t) {
        return cores::part_at(base, work, t);
    }
    Part::Own
}

// Writes the name of the i-th dictionary of a context.
fn context<W: Write>(out: &mut W, names: &[u64], c: usize, i: usize) -> io::Result<()> {
    out.write_all(b"d_ctx_")?;
    say::name(out, names, c)?;
    write!(out, "_{i}")
}

// Writes an instance's record.
fn record_of<W: Write>(
    out: &mut W,
    base: &Base,
    work: &[u64],
    c: usize,
    t: usize,
) -> io::Result<()> {
    out.write_all(b"(rec ")?;
    say::name(out, base.names, c)?;
    out.write_all(b" ")?;
    say::whole(out, base, work, t)?;
    out.write_all(b")")
}

// Writes the name of a superclass's field.
fn field<W: Write>(out: &mut W, names: &[u64], c: usize, s: usize) -> io::Result<()> {
    out.write_all(b" __super_")?;
    say::name(out, names, c)?;
    out.write_all(b"__")?;
    say::name(out, names, s)?;
    out.write_all(b")")
}

// Writes a dictionary, so many levels of it. Resolution, reduction and simplification make only these.
#[cycle(dictionaries_dictionary)]
fn dictionary<W: Write>(
    out: &mut W,
    base: &Base,
    work: &[u64],
    depth: usize,
    t: usize,
) -> io::Result<()> {
    if depth == 0 {
        return Ok(());
    }
    match part(base, work, t) {
        Part::Dict(d) => write!(out, "d{d}"),
        Part::Context(c, i) => context(out, base.names, c, i),
        Part::Rec(c, u, _) => record_of(out, base, work, c, u),
        Part::Super(e, c, s) => {
            out.write_all(b"(proj ")?;
            dictionary(out, base, work, depth - 1, e)?;
            field(out, base.names, c, s)
        }
        Part::DictApp(f, l) => {
            out.write_all(b"(dapp ")?;
            dictionary(out, base, work, depth - 1, f)?;
            dictionaries(out, base, work, depth - 1, l)?;
            out.write_all(b")")
        }
        _ => Ok(()),
    }
}

// Writes a list of dictionaries, a blank before each.
#[cycle(dictionaries_dictionary)]
fn dictionaries<W: Write>(
    out: &mut W,
    base: &Base,
    work: &[u64],
    depth: usize,
    l: usize,
) -> io::Result<()> {
    if depth == 0 {
        return Ok(());
    }
    match say::cell(base, work, l) {
        Cell::Nil => Ok(()),
        Cell::Cons(a, b) => {
            out.write_all(b" ")?;
            dictionary(out, base, work, depth - 1, a)?;
            dictionaries(out, base, work, depth - 1, b)
        }
    }
}

// Writes a dictionary: none that is written has as many levels.
pub fn whole<W: Write>(out: &mut W, base: &Base, work: &[u64], e: usize) -> io::Result<()> {
    dictionary(out, base, work, 1000000, e)
}
