// The scheme of `a` over `Eq c`, `Eq b` and `Pair a b`, in which b and c are free.
ghost use Rattle.std.specs.Prelude.{◌≡◌, true, ◌++◌, ◌+◌, ◌*◌, ◌≤◌, length};
ghost use Rattle.names.specs.Names.{Names};
ghost use Rattle.ast.specs.Table.{Node};
ghost use Rattle.replay_schemes.specs.Few.{FewIn, FewOf, Schemed};

use crate::say;
use ast::{Base, Cell, Room, Shape};
use errors::Refusal;
use pairs::Subst;
use std::io;
use std::io::Write;
use subst::{Qual, Scheme};

// A part of a scheme.
#[derive(Clone, Copy)]
enum Part {
    Type,
    Preds,
    Qual,
    Whole,
}

// What is done with a scheme: its free variables, or those of a part, are written, or whether it is closed, or what it is
// after a variable has become Int.
#[derive(Clone, Copy)]
enum Task {
    Free(Part),
    IsClosed,
    Fill(usize),
}

// The names, by their numbers.
const EQ: usize = 0;

const INT: usize = 1;

const PAIR: usize = 2;

const A: usize = 3;

const B: usize = 4;

const C: usize = 5;

// The nodes: the list b, the list a b, the type, the predicates, the list a, the list c a b. The cells of predicates are
// those of a list of types, and so are those of variables.
const TOP: usize = 6;

const ARGS: usize = 9223372036854775809;

const TYPE: usize = 9223372036854775810;

const PREDS: usize = 9223372036854775811;

const SOME: usize = 9223372036854775812;

const ALL: usize = 9223372036854775813;

// Writes the nodes.
fn build(base: &Base, work: &mut [u64])
    requires base_len { length base.now.words.now ≡ 0 }
    requires in_bounds { 24 ≤ length work.old }
{
    subst::push_pred(base, work, 0, EQ, B, ast::NIL);
    ast::push(base, work, 1, ast::CONS, A, names::NODE);
    ast::push(base, work, 2, ast::CON, PAIR, ARGS);
    subst::push_pred(base, work, 3, EQ, C, names::NODE);
    ast::push(base, work, 4, ast::CONS, A, ast::NIL);
    ast::push(base, work, 5, ast::CONS, C, ARGS);
}

// Whether a list has at most so many types, all of them variables.
fn is_few(base: &Base, work: &[u64], top: usize, l: usize, most: usize) -> bool
    requires { Node (base.now.words.now ++ work.now) top l }
    ensures { result ≡ true → FewIn (base.now.words.now ++ work.now) l most }
{
    let c = ast::cell_at(base, work, l);
    match c {
        Cell::Nil => true,
        Cell::Cons(a, b) => {
            if most == 0 {
                return false;
            }
            if a >= names::NULLARY {
                return false;
            }
            is_few(base, work, top, b, most - 1)
        }
    }
}

// Whether a type is a constructor with at most so many variables.
fn has_few(base: &Base, work: &[u64], top: usize, t: usize, most: usize) -> bool
    requires { Node (base.now.words.now ++ work.now) top t }
    ensures { result ≡ true → FewOf (base.now.words.now ++ work.now) t most }
{
    let s = ast::shape_at(base, work, t);
    let Shape::Con(_, l) = s else {
        return false;
    };
    is_few(base, work, top, l, most)
}

// Whether the words are a scheme, with room for the steps and 16 words more.
fn is_scheme(base: &Base, work: &[u64], room: Room, scheme: Scheme) -> bool
    requires { room.left ≤ 1000 }
    ensures { result ≡ true → Schemed (base.now.words.now ++ work.now) (length work.now) room.top room.left scheme.vars scheme.preds scheme.ty }
{
    let more = Room {
        top: room.top,
        left: room.left + 2,
    };
    if cases::ready::is_ready(base, work, more, scheme.preds, scheme.ty) {
        if scheme.vars >= names::NODE + room.top {
            return false;
        }
        if is_few(base, work, room.top, scheme.preds, 2) {
            return has_few(base, work, room.top, scheme.ty, 2);
        }
    }
    false
}

// The free variables of a part of a scheme.
// That no type lies in a closed table and no two names are equal stands in each contract: a type that says so would be no
// plainer, since the functions that are called ask it of `base` itself.
fn collected(base: &Base, work: &mut [u64], room: &mut Room, part: Part, scheme: Scheme) -> usize
    requires base_len { length base.now.words.now ≡ 0 }
    requires names { Names base.now.names.now }
    requires schemed { Schemed (base.now.words.now ++ work.old) (length work.old) room.old.top room.old.left scheme.vars scheme.preds scheme.ty }
{
    match part {
        Part::Type => free::ftv_type(base, work, room, ast::NIL, scheme.ty),
        Part::Preds => free::ftv_preds(base, work, room, ast::NIL, scheme.preds),
        Part::Qual => free::ftv_qual(base, work, room, scheme.preds, scheme.ty),
        Part::Whole => free::ftv_scheme(base, work, room, scheme),
    }
}

// The scheme after the variable v has become Int.
fn filled(
    base: &Base,
    work: &mut [u64],
    room: &mut Room,
    v: usize,
    scheme: Scheme,
) -> Result<Qual, Refusal>
    requires base_len { length base.now.words.now ≡ 0 }
    requires names { Names base.now.names.now }
    requires schemed { Schemed (base.now.words.now ++ work.old) (length work.old) room.old.top room.old.left scheme.vars scheme.preds scheme.ty }
{
    let sp = work.len();
    let s = Subst::singleton(base, work, sp, v, names::NULLARY + INT);
    subst::apply_scheme(base, work, room, s, scheme)
}

// Does a task with a scheme, and writes what came of it.
fn run<W: Write>(
    out: &mut W,
    base: &Base,
    work: &mut [u64],
    mut room: Room,
    task: Task,
    scheme: Scheme,
) -> io::Result<()>
    requires base_len { length base.now.words.now ≡ 0 }
    requires names { Names base.now.names.now }
    requires schemed { Schemed (base.now.words.now ++ work.old) (length work.old) room.top room.left scheme.vars scheme.preds scheme.ty }
{
    match task {
        Task::Free(part) => {
            let l = collected(base, work, &mut room, part, scheme);
            write!(out, "free")?;
            cases::say::all(out, base, work, l)
        }
        Task::IsClosed => {
            let closed = subst::is_closed(base, work, room.top, scheme);
            say::truth(out, closed)
        }
        Task::Fill(v) => {
            let r = filled(base, work, &mut room, v, scheme);
            say::answer(out, base, work, scheme.vars, r, room.left)
        }
    }
}

// The same, if the words are what it asks.
fn tested<W: Write>(
    out: &mut W,
    base: &Base,
    work: &mut [u64],
    left: usize,
    task: Task,
    vars: usize,
) -> io::Result<()>
    requires base_len { length base.now.words.now ≡ 0 }
    requires left_bound { left ≤ 1000 }
{
    let room = Room { top: TOP, left };
    let scheme = Scheme {
        vars,
        preds: PREDS,
        ty: TYPE,
    };
    if cases::rows::are_distinct(base.names) {
        if is_scheme(base, work, room, scheme) {
            run(out, base, work, room, task, scheme)?;
            writeln!(out)?;
        }
    }
    Ok(())
}

// One line. The names are Eq, Int, Pair, a, b and c.
fn case<W: Write>(out: &mut W, task: Task, left: usize, vars: usize) -> io::Result<()>
    requires { left ≤ 1000 }
{
    let mut work = [0u64; 128];
    let names = [
        5003780660985331712,
        0,
        0,
        0,
        5291294155555733504,
        0,
        0,
        0,
        5792026534122356736,
        0,
        0,
        0,
        6989586621679009792,
        0,
        0,
        0,
        7061644215716937728,
        0,
        0,
        0,
        7133701809754865664,
        0,
        0,
        0u64,
    ];
    let base = Base {
        words: &[],
        names: &names,
    };
    build(&base, &mut work);
    tested(out, &base, &mut work, left, task, vars)
}

// The free variables of type, predicates, both, the scheme, and the scheme that binds all; whether the two schemes are closed;
// Int for the free b, for the bound a, and for b with one step too few; and for b in the closed scheme without a step.
pub fn lines<W: Write>(out: &mut W) -> io::Result<()> {
    case(out, Task::Free(Part::Type), 8, SOME)?;
    case(out, Task::Free(Part::Preds), 8, SOME)?;
    case(out, Task::Free(Part::Qual), 8, SOME)?;
    case(out, Task::Free(Part::Whole), 8, SOME)?;
    case(out, Task::Free(Part::Whole), 8, ALL)?;
    case(out, Task::IsClosed, 8, SOME)?;
    case(out, Task::IsClosed, 8, ALL)?;
    case(out, Task::Fill(B), 8, SOME)?;
    case(out, Task::Fill(A), 8, SOME)?;
    case(out, Task::Fill(B), 4, SOME)?;
    case(out, Task::Fill(B), 0, ALL)
}
