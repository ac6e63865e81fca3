// Replays recorded cases of unification and matching: reads them from standard input, hands each to `unify::unify` or
// `matching::match_ty` with depth 256, and writes a line for each.
//
// The input. Numbers are unsigned, the lowest byte first. First the names: how many (2 bytes), then for each a length
// (1 byte) and so many bytes. Then cases up to the end: 0 for unify or 1 for match (1 byte), the budget (4), how many
// nodes (2), the nodes, and the numbers of the two types (2 each). A node is a tag (1 byte) and, for
//   0 a named variable: the number of its name (2);
//   1 a made variable: its number (4);
//   2 a constructor: the number of its name (2), how many arguments (1), and their node numbers (2 each);
//   3 an arrow: two node numbers (2 each).
// A node names only nodes of smaller number; any other number is taken for the variable of name 0. Where the words have no
// room for the budget, the line is `no case`. The words keep what the case before left in them.
//
// The output. `0`, the steps left, and ` VARIABLE=TYPE` for each pair of the substitution in its order; or the refusal's
// number, the steps left, and its values in the order of `InferenceError`, a blank before each. Types are printed as in a
// listing: `(Pair a Int)`, `(-> a b)`, `Int`, `t7`.
//
// How the cases in `stdin` and the lines in `stdout` came to be. A program apart from this project made 656 cases: the
// starred pairs of the scope document and its instance heads, each with steps to spare, with just enough and with one
// less (45); corners, such as a constructor and a variable of one name, chains of variables, and what occurs only after
// applying (88); two pairs with every budget up to one more than they need (38); up to 64 arguments (44); nodes that
// stand in many places, and answers whose trees double (82); variables in awkward order of bytes, `t10`, `t1a`, `t2`, `T`,
// `_`, made ones from `t0` to `t4294967295` and names of up to 32 bytes, with conflicts of several variables (102); a
// type against a copy of it with one part changed, under one variable (23); 255 to 258 levels of `List` and of arrows,
// left and right, and what is put in, applied to and composed at such depths (44); and random pairs of up to some 40
// nodes each over few names, of which one side is mostly an altered instance of the other (190). In 298 cases there is a
// substitution; 6 is the answer in 132, 7 in 16, 12 in 124, 13 in 51, 14 in 23 and 15 in 12.
// The lines are those of a reference implementation of the scope document in Rust, written apart from this project. All
// were compared with the Rust to which a step meter was added, answers and steps, and the 508 that meet neither 6 nor 7
// with the unchanged Rust. Where several variables conflict in a match, the Rust names one by the order of its hash map;
// there the recorded answer is one that it gives.
#![tactic(auto)]

mod say;

ghost use Rattle.std.specs.Prelude.{◌≡◌, ◌++◌, length};
ghost use Rattle.names.specs.Names.{Names};
ghost use Rattle.cases.specs.Tested.{Fits};

use ast::{Base, Room};
use cases::input::Reader;
use cases::{input, nodes, ready};
use errors::Refusal;
use std::io;
use std::io::Write;

// What a case asks for: a byte that is not 0 is for match.
#[derive(Clone, Copy)]
enum Task {
    Unify,
    Match,
}

impl From<u8> for Task {
    fn from(byte: u8) -> Task {
        match byte {
            0 => Task::Unify,
            _ => Task::Match,
        }
    }
}

// Unifies or matches two types, with 256 levels, and all words for the stack.
// That no type lies in a closed table and no two names are equal stands in each contract: a type that says so would be no
// plainer, since the functions that are called ask it of `base` itself.
fn run(
    base: &Base,
    work: &mut [u64],
    room: &mut Room,
    task: Task,
    s: usize,
    t: usize,
) -> Result<usize, Refusal>
    requires base_len { length base.now.words.now ≡ 0 }
    requires names { Names base.now.names.now }
    requires fits { Fits (base.now.words.now ++ work.old) (length work.old) room.old.top room.old.left s t }
{
    let sp = work.len();
    match task {
        Task::Unify => unify::unify(base, work, room, errors::DEPTH, sp, s, t),
        Task::Match => matching::match_ty(base, work, room, errors::DEPTH, sp, s, t),
    }
}

// Answers a case, if it is one.
fn answer<W: Write>(
    out: &mut W,
    base: &Base,
    work: &mut [u64],
    room: &mut Room,
    task: Task,
    s: usize,
    t: usize,
) -> io::Result<()>
    requires base_len { length base.now.words.now ≡ 0 }
    requires names { Names base.now.names.now }
{
    if !ready::is_ready(base, work, *room, s, t) {
        return writeln!(out, "no case");
    }
    let r = run(base, work, room, task, s, t);
    say::answer(out, base, work, r, room.left)?;
    writeln!(out)
}

// Reads the case that stands next, and answers it.
fn one<W: Write>(
    out: &mut W,
    reader: &mut Reader,
    base: &Base,
    work: &mut [u64],
    ids: &mut [u64],
) -> io::Result<()>
    requires base_len { length base.now.words.now ≡ 0 }
    requires names { Names base.now.names.now }
{
    let task = Task::from(reader.byte());
    let mut room = Room {
        top: 0,
        left: reader.four(),
    };
    let ids = nodes::read(reader, work, &mut room, ids);
    let s = nodes::id(reader, ids);
    let t = nodes::id(reader, ids);
    answer(out, base, work, &mut room, task, s, t)
}

// Reads the file and replays it. There are words for 65,536 steps, which `unify` takes at 256 levels of `List`.
fn main(rt: HostRuntime) -> io::Result<()> {
    let mut out = rt.stdout();
    let mut file = [0u8; 163840];
    let n = input::fill(&mut rt.stdin(), &mut file)?;
    let mut names = [0u64; 1024];
    let mut work = [0u64; 540672];
    let mut ids = [0u64; 1024];
    cases::replay::all(
        &file[..n],
        &mut names,
        |reader, base|
            requires base_len { length base.words.now ≡ 0 }
            requires names { Names base.names.now }
        { one(&mut out, reader, &base, &mut work, &mut ids) },
    )
}
