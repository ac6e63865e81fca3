// Replays recorded cases of resolution and of the test of overlap: reads them from standard input, hands each to
// `resolve::resolve` with depth 256 or to `instances::none_overlaps`, and writes a line for each.
//
// The input. Numbers are unsigned, the lowest byte first. First the names, as `replay_pairs` has them. Then cases up to
// the end: 0 to resolve a goal or 1 to test a new head (1 byte); the budget (4); how many nodes (2) and the nodes, as
// `replay_pairs` has them; how many classes (2), and for each the number of its name (2), how many superclasses (1) and
// their names (2 each); how many instances (1), and for each a list of predicates, its head and then its context; the
// class of a head (2) and a list of predicates, which is the context given; the class (2) and the node (2) of the goal or
// of the new head. A list of predicates is how many (1), and for each its class (2) and its node (2). A number of no
// earlier node is taken for the variable of name 0. Where an instance has no head, the context given has more than 64
// predicates, or the words have no room for the budget, the line is `no case`. The words keep what the case before left in
// them.
//
// The output. `0`, the steps left, and the dictionary as a listing has it; no dictionary after the test of overlap. Or the
// refusal's number, the steps left, and its values, a blank before each.
// How `stdin` and `stdout` came to be. A program apart from this project made 488 cases, most with steps to spare, with
// just enough and with one less: the instance heads of the scope document and goals for them (33); new heads against older
// ones, equal up to names, more and less general, overlapping without a match, of other classes (64); givens and their
// superclasses, diamonds, superclasses listed twice or not declared, a later given (45); contexts with variables that the
// head has not (15); failing tries and subgoals, repeated ones, equal constructors with other arities, a context of 64
// (39); superclass chains of 255 to 257 classes (16); 255 to 257 goals deep and 255 to 257 levels of `List` matched,
// filled and compared (34); goals that never end (24); one goal with every budget (24); random environments of up to 5
// classes and some 20 instances, with goals mostly for their heads (191); and three no cases. The lines are those of a
// reference implementation of the scope document in Rust; for the test of overlap it declared an instance, and the steps
// of its head's nodes were taken off. docs/TESTING.md says more.
#![tactic(auto)]

mod lists;
mod say;
mod table;

ghost use Rattle.std.specs.Prelude.{◌≡◌, ◌++◌, length};
ghost use Rattle.names.specs.Names.{Names};
ghost use Rattle.cases.specs.Posed.{Posed};

use ast::{Base, Room};
use cases::input::Reader;
use cases::{goals, input, nodes};
use resolve::Rules;
use std::io;
use std::io::Write;
use supers::Root;

// What is done with a case: a byte that is not 0 is for the test of overlap.
#[derive(Clone, Copy)]
enum Task {
    Resolve,
    Overlap,
}

impl From<u8> for Task {
    fn from(byte: u8) -> Task {
        match byte {
            0 => Task::Resolve,
            _ => Task::Overlap,
        }
    }
}

// What a case asks: the class of a head and the context given, and the class and the type of the goal or of the new head.
#[derive(Clone, Copy)]
struct Question {
    head: usize,
    context: usize,
    class: usize,
    ty: usize,
}

// Resolves a goal with 256 levels, or tests a head for overlap; all words for the stack.
// That no type lies in a closed table and no two names are equal stands in each contract: a type that says so would be no
// plainer, since the functions that are called ask it of `base` itself.
fn run<W: Write>(
    out: &mut W,
    base: &Base,
    work: &mut [u64],
    room: &mut Room,
    rules: Rules,
    task: Task,
    q: Question,
) -> io::Result<()>
    requires base_len { length base.now.words.now ≡ 0 }
    requires names { Names base.now.names.now }
    requires posed { Posed (base.now.words.now ++ work.old) (length work.old) rules.insts.now room.old.top room.old.left q.head q.context q.ty }
{
    let sp = work.len();
    match task {
        Task::Resolve => {
            let root = Root::Context(q.head);
            let r = resolve::resolve(
                base,
                work,
                room,
                rules,
                errors::DEPTH,
                sp,
                root,
                q.context,
                q.class,
                q.ty,
            );
            say::resolved(out, base, work, r, room.left)
        }
        Task::Overlap => {
            let r = instances::none_overlaps(base, work, room, rules.insts, sp, q.class, q.ty);
            say::apart(out, base, work, r, room.left)
        }
    }
}

// Answers a case, if it is one.
fn answer<W: Write>(
    out: &mut W,
    base: &Base,
    work: &mut [u64],
    room: &mut Room,
    rules: Rules,
    task: Task,
    q: Question,
) -> io::Result<()>
    requires base_len { length base.now.words.now ≡ 0 }
    requires names { Names base.now.names.now }
{
    if !goals::is_posed(base, work, rules.insts, *room, q.head, q.context, q.ty) {
        return writeln!(out, "no case");
    }
    run(out, base, work, room, rules, task, q)?;
    writeln!(out)
}

// Reads the case that stands next, and answers it.
fn one<W: Write>(
    out: &mut W,
    reader: &mut Reader,
    base: &Base,
    work: &mut [u64],
    ids: &mut [u64],
    classes: &mut [u64],
    insts: &mut [u64],
) -> io::Result<()>
    requires base_len { length base.now.words.now ≡ 0 }
    requires names { Names base.now.names.now }
{
    let task = Task::from(reader.byte());
    let mut room = Room {
        top: 0,
        left: reader.four(),
    };
    let ids = nodes::read(reader, work, &mut room, ids);
    table::read(reader, classes, (base.names.len() / 4).min(1024));
    let insts = lists::instances(reader, work, &mut room, ids, insts);
    let q = Question {
        head: reader.two(),
        context: lists::list(reader, work, &mut room, ids),
        class: reader.two(),
        ty: nodes::id(reader, ids),
    };
    answer(
        out,
        base,
        work,
        &mut room,
        Rules { classes, insts },
        task,
        q,
    )
}

// Reads the file and replays it. There are words for some 16,000 steps.
fn main(rt: HostRuntime) -> io::Result<()> {
    let mut out = rt.stdout();
    let mut file = [0u8; 163840];
    let n = input::fill(&mut rt.stdin(), &mut file)?;
    let mut names = [0u64; 2048];
    let mut work = [0u64; 135168];
    let mut ids = [0u64; 1024];
    let mut classes = [0u64; 2048];
    let mut insts = [0u64; 256];
    cases::replay::all(
        &file[..n],
        &mut names,
        |reader, base|
            requires base_len { length base.words.now ≡ 0 }
            requires names { Names base.names.now }
        {
            one(
                &mut out,
                reader,
                &base,
                &mut work,
                &mut ids,
                &mut classes,
                &mut insts,
            )
        },
    )
}
