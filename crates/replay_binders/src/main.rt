// The scope document's case of two binders: a class Ord over Eq, and binders d0 of Eq and d1 of Ord at one type variable.
// `simplify::simplify_context` keeps d1 and replaces d0 by a projection of it. Two steps are enough: for d1 itself, which is no
// Eq, and for its superclass. With one step the answer is 6.
#![tactic(auto)]

ghost use Rattle.std.specs.Prelude.{◌≡◌, ◌+◌, ◌*◌, ◌≤◌, length};
ghost use Rattle.names.specs.Names.{Names};
ghost use Rattle.cases.specs.Typed.{TypedRows};

use ast::{Base, Room};
use std::io;
use std::io::Write;

// Simplifies two binders with so many steps, and writes what became of them.
fn run<W: Write>(
    out: &mut W,
    base: &Base,
    work: &mut [u64],
    classes: &[u64],
    binders: &mut [u64],
    left: usize,
) -> io::Result<()>
    requires base_len { length base.now.words.now ≡ 0 }
    requires names { Names base.now.names.now }
    requires typed_rows { TypedRows 0 binders.old 2 }
    requires in_bounds { 6 ≤ length binders.old }
    requires left_in_bounds { 8 * left ≤ length work.old }
{
    let sp = work.len();
    let mut room = Room { top: 0, left };
    match simplify::simplify_context(base, work, &mut room, classes, binders, sp, 2) {
        Ok(()) => {
            write!(out, "0 {}", room.left)?;
            cases::binders::all(out, base, work, binders)?;
        }
        Err(e) => cases::say::refusal(out, base, work, e, room.left)?,
    }
    writeln!(out)
}

// The case with so many steps, if it is one.
fn tested<W: Write>(
    out: &mut W,
    base: &Base,
    work: &mut [u64],
    classes: &[u64],
    binders: &mut [u64],
    left: usize,
) -> io::Result<()>
    requires base_len { length base.now.words.now ≡ 0 }
    requires in_bounds { 6 ≤ length binders.old }
    requires left_in_bounds { 8 * left ≤ length work.old }
{
    if cases::rows::are_distinct(base.names) {
        if cases::binders::are_typed(binders, 0, 2) {
            run(out, base, work, classes, binders, left)?;
        }
    }
    Ok(())
}

// Names 0 to 2 are Eq, Ord and a. The class table has a row for each: Eq without superclasses, Ord with Eq, a no class.
fn case<W: Write>(out: &mut W, left: usize) -> io::Result<()>
    requires { 8 * left ≤ 64 }
{
    let mut work = [0u64; 64];
    let names = [
        5003780660985331712,
        0,
        0,
        0,
        5724748027504099328,
        0,
        0,
        0,
        6989586621679009792,
        0,
        0,
        0u64,
    ];
    let classes = [6, 0, 6, 1, 0, 0, 0u64];
    let mut binders = [0, 0, 2, 1, 1, 2u64];
    let base = Base {
        words: &[],
        names: &names,
    };
    tested(out, &base, &mut work, &classes, &mut binders, left)
}

fn main(rt: HostRuntime) -> io::Result<()> {
    let mut out = rt.stdout();
    case(&mut out, 2)?;
    case(&mut out, 1)
}
