// Binders in rows: tested, and what became of them written.
ghost use Rattle.std.specs.Prelude.{◌≡◌, true, ◌+◌, ◌*◌, ◌<◌, ◌≤◌, length};
ghost use Rattle.names.specs.Names.{first_node};
ghost use Rattle.cases.specs.Typed.{TypedRows};

use crate::dicts;
use ast::Base;
use std::io;
use std::io::Write;
use supers::rows::Row;

// Whether each of the first n rows is pending, its dictionary has a word, and its type is below the table's end.
pub fn are_typed(binders: &[u64], top: usize, n: usize) -> bool
    requires top_lt_first_node { top < first_node }
    requires n_in_bounds { 3 * n ≤ length binders.now }
    ensures { result ≡ true → TypedRows top binders.now n }
{
    let end = names::NODE + top;
    for j in 0..n {
        let r = supers::rows::row_at(binders, j);
        match r {
            Row::Pending(d, _, t) => {
                if d >= names::FRESH {
                    return false;
                }
                if t >= end {
                    return false;
                }
            }
            Row::Replaced(_, _) => {
                return false;
            }
        }
    }
    true
}

// Writes what became of each row.
pub fn all<W: Write>(out: &mut W, base: &Base, work: &[u64], binders: &[u64]) -> io::Result<()> {
    for j in 0..binders.len() / 3 {
        row(out, base, work, binders, j)?;
    }
    Ok(())
}

// Writes what became of a row.
fn row<W: Write>(
    out: &mut W,
    base: &Base,
    work: &[u64],
    binders: &[u64],
    j: usize,
) -> io::Result<()>
    requires { 3 * j + 3 ≤ length binders.now }
{
    match supers::rows::row_at(binders, j) {
        Row::Pending(d, _, _) => write!(out, " d{d} stays"),
        Row::Replaced(d, e) => {
            write!(out, " d{d} is ")?;
            dicts::whole(out, base, work, e)
        }
    }
}
