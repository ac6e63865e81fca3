// Binders of Eq at List Int, of Eq at a and of Ord at a. Ord is over Eq; Int is an Eq, and so is List a where a is one.
ghost use Rattle.std.specs.Prelude.{◌≡◌, ◌++◌, ◌+◌, ◌*◌, ◌≤◌, length};
ghost use Rattle.names.specs.Names.{Names};
ghost use Rattle.cases.specs.Posed.{Posed};
ghost use Rattle.cases.specs.Typed.{TypedRows};

use ast::{Base, Room};
use resolve::Rules;
use std::io;
use std::io::Write;
use supers::Root;

// The names, by their numbers.
const EQ: usize = 0;

const ORD: usize = 1;

const INT: usize = 2;

const LIST: usize = 3;

const A: usize = 4;

// The nodes: the instance at Int; the context of the other, which is also the list a; the type List a; the other instance;
// the type List Int, whose arguments are the cell of the first instance; the given, Ord a.
const TOP: usize = 6;

const CONTEXT: usize = 9223372036854775809;

const HEAD: usize = 9223372036854775810;

const GIVEN: usize = 9223372036854775813;

// Writes the nodes.
fn build(base: &Base, work: &mut [u64])
    requires base_len { length base.now.words.now ≡ 0 }
    requires in_bounds { 24 ≤ length work.old }
{
    subst::push_pred(base, work, 0, EQ, names::NULLARY + INT, ast::NIL);
    subst::push_pred(base, work, 1, EQ, A, ast::NIL);
    ast::push(base, work, 2, ast::CON, LIST, CONTEXT);
    subst::push_pred(base, work, 3, EQ, HEAD, CONTEXT);
    ast::push(base, work, 4, ast::CON, LIST, names::NODE);
    subst::push_pred(base, work, 5, ORD, A, ast::NIL);
}

// Reduces three rows under the context l of a head of class h, and writes what became of them.
fn run<W: Write>(
    out: &mut W,
    base: &Base,
    work: &mut [u64],
    mut room: Room,
    rules: Rules,
    binders: &mut [u64],
    h: usize,
    l: usize,
) -> io::Result<()>
    requires base_len { length base.now.words.now ≡ 0 }
    requires names { Names base.now.names.now }
    requires posed { Posed (base.now.words.now ++ work.old) (length work.old) rules.insts.now room.top room.left h l l }
    requires typed_rows { TypedRows room.top binders.old 3 }
    requires in_bounds { 9 ≤ length binders.old }
{
    let sp = work.len();
    let root = Root::Context(h);
    match reduce::reduce(base, work, &mut room, rules, binders, sp, root, l, 3) {
        Ok(()) => {
            write!(out, "0 {}", room.left)?;
            cases::binders::all(out, base, work, binders)?;
        }
        Err(e) => cases::say::refusal(out, base, work, e, room.left)?,
    }
    writeln!(out)
}

// The same, if the words are what it asks.
fn tested<W: Write>(
    out: &mut W,
    base: &Base,
    work: &mut [u64],
    rules: Rules,
    binders: &mut [u64],
    left: usize,
    l: usize,
) -> io::Result<()>
    requires base_len { length base.now.words.now ≡ 0 }
    requires in_bounds { 9 ≤ length binders.old }
{
    let room = Room { top: TOP, left };
    if cases::rows::are_distinct(base.names) {
        if cases::goals::is_posed(base, work, rules.insts, room, ORD, l, l) {
            if cases::binders::are_typed(binders, TOP, 3) {
                run(out, base, work, room, rules, binders, ORD, l)?;
            }
        }
    }
    Ok(())
}

// One line. The names are Eq, Ord, Int, List and a; the class table has a row for each, and then the superclass of Ord.
fn case<W: Write>(out: &mut W, left: usize, l: usize) -> io::Result<()> {
    let mut work = [0u64; 512];
    let names = [
        5003780660985331712,
        0,
        0,
        0,
        5724748027504099328,
        0,
        0,
        0,
        5291294155555733504,
        0,
        0,
        0,
        5506058961490542592,
        0,
        0,
        0,
        6989586621679009792,
        0,
        0,
        0u64,
    ];
    let classes = [10, 0, 10, 1, 0, 0, 0, 0, 0, 0, 0u64];
    let insts = [9223372036854775808, 9223372036854775811u64];
    let mut binders = [0, 0, 9223372036854775812, 1, 0, 4, 2, 1, 4u64];
    let base = Base {
        words: &[],
        names: &names,
    };
    let rules = Rules {
        classes: &classes,
        insts: &insts,
    };
    build(&base, &mut work);
    tested(out, &base, &mut work, rules, &mut binders, left, l)
}

// With the given, with one step too few, and without the given.
pub fn lines<W: Write>(out: &mut W) -> io::Result<()> {
    case(out, 40, GIVEN)?;
    case(out, 16, GIVEN)?;
    case(out, 40, ast::NIL)
}
