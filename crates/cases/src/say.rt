// Writing the parts of an answer's line. What lies out of the words or the names is written as nothing. These are functions over a
// writer of bytes, and no `Display`, since the bytes of a name need not be text.
ghost use Rattle.std.specs.Prelude.{◌≡◌, true, ◌++◌, ◌+◌, ◌*◌, ◌<◌, ◌≤◌, length};
ghost use Rattle.names.specs.Names.{first_node};

use ast::{Base, Cell, Shape};
use errors::Refusal;
use names::Kind;
use std::io;
use std::io::Write;

// Writes a name up to its first zero: its bytes as they stand, which need not be text.
pub fn name<W: Write>(out: &mut W, names: &[u64], i: usize) -> io::Result<()> {
    if i >= names.len() / 4 {
        return Ok(());
    }
    for word in &names[4 * i..4 * i + 4] {
        for byte in word.to_be_bytes() {
            if byte == 0 {
                return Ok(());
            }
            out.write_all(&[byte])?;
        }
    }
    Ok(())
}

// Writes a variable.
pub fn variable<W: Write>(out: &mut W, names: &[u64], x: usize) -> io::Result<()> {
    match names::kind_of(x) {
        Kind::Named(i) => name(out, names, i),
        Kind::Fresh(n) => write!(out, "t{n}"),
        Kind::Node(_) | Kind::Nullary(_) => Ok(()),
    }
}

// Whether the word t is no node, or one that lies in the words.
pub fn is_there(base: &Base, work: &[u64], t: usize) -> bool
    ensures { result ≡ true → 4 * t + 4 ≤ 4 * first_node + length (base.now.words.now ++ work.now) }
{
    if t < names::NODE {
        return true;
    }
    t - names::NODE < work.len() / 4
}

// What a type is; a variable, if it does not lie in the words.
fn shape(base: &Base, work: &[u64], t: usize) -> Shape {
    if is_there(base, work, t) {
        return ast::shape_at(base, work, t);
    }
    Shape::Var(t)
}

// What a list is; empty, if it does not lie in the words.
pub fn cell(base: &Base, work: &[u64], l: usize) -> Cell {
    if is_there(base, work, l) {
        return ast::cell_at(base, work, l);
    }
    Cell::Nil
}

// Writes a constructor and its arguments.
#[cycle(arrow_con_list_tree)]
fn con<W: Write>(
    out: &mut W,
    base: &Base,
    work: &[u64],
    depth: usize,
    c: usize,
    l: usize,
) -> io::Result<()> {
    if l == ast::NIL {
        return name(out, base.names, c);
    }
    out.write_all(b"(")?;
    name(out, base.names, c)?;
    list(out, base, work, depth, l)?;
    out.write_all(b")")
}

// Writes a list of types, a blank before each.
#[cycle(arrow_con_list_tree)]
fn list<W: Write>(
    out: &mut W,
    base: &Base,
    work: &[u64],
    depth: usize,
    l: usize,
) -> io::Result<()> {
    if depth == 0 {
        return Ok(());
    }
    match cell(base, work, l) {
        Cell::Nil => Ok(()),
        Cell::Cons(a, b) => {
            out.write_all(b" ")?;
            tree(out, base, work, depth - 1, a)?;
            list(out, base, work, depth - 1, b)
        }
    }
}

// Writes an arrow.
#[cycle(arrow_con_list_tree)]
fn arrow<W: Write>(
    out: &mut W,
    base: &Base,
    work: &[u64],
    depth: usize,
    a: usize,
    b: usize,
) -> io::Result<()> {
    out.write_all(b"(-> ")?;
    tree(out, base, work, depth, a)?;
    out.write_all(b" ")?;
    tree(out, base, work, depth, b)?;
    out.write_all(b")")
}

// Writes a type, so many levels of it.
#[cycle(arrow_con_list_tree)]
fn tree<W: Write>(
    out: &mut W,
    base: &Base,
    work: &[u64],
    depth: usize,
    t: usize,
) -> io::Result<()> {
    if depth == 0 {
        return Ok(());
    }
    match shape(base, work, t) {
        Shape::Var(x) => variable(out, base.names, x),
        Shape::Con(c, l) => con(out, base, work, depth - 1, c, l),
        Shape::Arrow(a, b) => arrow(out, base, work, depth - 1, a, b),
    }
}

// Writes a type: no recorded answer has as many levels.
pub fn whole<W: Write>(out: &mut W, base: &Base, work: &[u64], t: usize) -> io::Result<()> {
    tree(out, base, work, 1000000, t)
}

// Writes a list of types, a blank before each: no list that is written has as many.
pub fn all<W: Write>(out: &mut W, base: &Base, work: &[u64], l: usize) -> io::Result<()> {
    list(out, base, work, 1000000, l)
}

// Writes two types, a blank before each.
fn types<W: Write>(out: &mut W, base: &Base, work: &[u64], a: usize, b: usize) -> io::Result<()> {
    write!(out, " ")?;
    whole(out, base, work, a)?;
    write!(out, " ")?;
    whole(out, base, work, b)
}

// Writes a variable and a type, a blank before each.
fn binding<W: Write>(out: &mut W, base: &Base, work: &[u64], v: usize, t: usize) -> io::Result<()> {
    write!(out, " ")?;
    variable(out, base.names, v)?;
    write!(out, " ")?;
    whole(out, base, work, t)
}

// Writes two names, a blank before each.
fn two_names<W: Write>(out: &mut W, names: &[u64], c: usize, d: usize) -> io::Result<()> {
    write!(out, " ")?;
    name(out, names, c)?;
    write!(out, " ")?;
    name(out, names, d)
}

// Writes a name and two numbers, a blank before each.
fn arity<W: Write>(out: &mut W, names: &[u64], c: usize, m: usize, n: usize) -> io::Result<()> {
    write!(out, " ")?;
    name(out, names, c)?;
    write!(out, " {m} {n}")
}

// Writes a class and a type, a blank before each.
fn of_class<W: Write>(
    out: &mut W,
    base: &Base,
    work: &[u64],
    c: usize,
    t: usize,
) -> io::Result<()> {
    write!(out, " ")?;
    name(out, base.names, c)?;
    write!(out, " ")?;
    whole(out, base, work, t)
}

// Writes a refusal by unification, matching, resolution or the test of overlap: its number, the steps left, and its values;
// 6 and 7 have none.
pub fn refusal<W: Write>(
    out: &mut W,
    base: &Base,
    work: &[u64],
    e: Refusal,
    left: usize,
) -> io::Result<()> {
    let number = errors::number(e);
    write!(out, "{number} {left}")?;
    match e {
        Refusal::UnificationFailure(a, b) => types(out, base, work, a, b),
        Refusal::OccursCheck(v, t) => binding(out, base, work, v, t),
        Refusal::ConMismatch(c, d) => two_names(out, base.names, c, d),
        Refusal::ArityMismatch(c, m, n) => arity(out, base.names, c, m, n),
        Refusal::NoInstance(c, t) | Refusal::DuplicateInstance(c, t) => of_class(
            out, base, work, c, t,
        ),
        _ => Ok(()),
    }
}
