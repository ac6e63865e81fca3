// The path of a walk over superclasses, as frames on the stack: its entries are entered one by one, and its projections
// made once the last one is the goal.
ghost use Rattle.std.specs.Prelude.{◌≡◌, ◌++◌, ◌+◌, ◌*◌, ◌<◌, ◌≤◌, length};
ghost use Rattle.ast.specs.Table.{Node};
ghost use Rattle.supers.specs.Frames.{Enters, Turns, Built};

use ast::{Base, Room};
use errors::DEPTH;

// What comes of one entry: there is none left below the last frame; it lies too deep; no step is left for it; it is the
// goal; it is not.
#[derive(Clone, Copy)]
pub enum Entered {
    Up,
    Deep,
    Spent,
    Hit,
    Miss,
}

// The entry of class s below d others takes a step, and a frame with none of its superclasses taken. It is the goal if it
// has the goal's class, the types are the same and it is not barred, as a given is where the entry must be proper.
pub fn enter(
    base: &Base,
    work: &mut [u64],
    sp: usize,
    d: usize,
    left: usize,
    s: usize,
    goal: usize,
    same: bool,
    barred: bool,
) -> Entered
    requires d_len_bound { length base.now.words.now + 8 * left + 2 * d ≤ sp }
    requires sp_in_bounds { sp ≤ length (base.now.words.now ++ work.old) }
    ensures { Enters (base.now.words.now ++ work.old) (base.now.words.now ++ work.new) sp d left s goal same barred result }
{
    if d >= DEPTH {
        return Entered::Deep;
    }
    if left == 0 {
        return Entered::Spent;
    }
    let at = sp - 2 * (d + 1);
    pairs::put(base, work, at, s);
    pairs::put(base, work, at + 1, 0);
    if barred {
        return Entered::Miss;
    }
    if same {
        if s == goal {
            return Entered::Hit;
        }
    }
    Entered::Miss
}

// The next superclass of the last of d frames is taken and entered.
pub fn turn(
    base: &Base,
    work: &mut [u64],
    classes: &[u64],
    sp: usize,
    d: usize,
    left: usize,
    goal: usize,
    same: bool,
) -> Entered
    requires d_nonzero { 0 < d }
    requires d_len_bound { length base.now.words.now + 8 * left + 2 * d ≤ sp }
    requires sp_in_bounds { sp ≤ length (base.now.words.now ++ work.old) }
    ensures { Turns classes.now (base.now.words.now ++ work.old) (base.now.words.now ++ work.new) sp d left goal same result }
{
    let at = sp - 2 * d;
    let c = ast::index(base, work, at);
    let i = ast::index(base, work, at + 1);
    let f = crate::super_at(classes, c, i);
    match f {
        None => Entered::Up,
        Some(s) => {
            pairs::put(base, work, at + 1, i + 1);
            enter(base, work, sp, d, left, s, goal, same, false)
        }
    }
}

// The projections along the frames, from the dictionary e outward: one for each frame after the first.
pub fn build(base: &Base, work: &mut [u64], room: &mut Room, sp: usize, d: usize, e: usize) -> usize
    requires base_len_bound { length base.now.words.now ≤ 4 * room.old.top }
    requires d_bound { 4 * room.old.top + 4 * d + 2 * d + 2 ≤ sp }
    requires sp_in_bounds { sp ≤ length (base.now.words.now ++ work.old) }
    requires node { Node (base.now.words.now ++ work.old) room.old.top e }
    ensures built { Built (base.now.words.now ++ work.old) (base.now.words.now ++ work.new) room.old.top sp d e result }
    ensures top { room.new.top ≡ room.old.top + d }
    ensures left { room.new.left ≡ room.old.left }
{
    let mut r = e;
    for j in 0..d {
        let at = sp - 2 * (j + 2);
        let s = ast::index(base, work, at);
        let c = ast::index(base, work, at + 2);
        r = cores::push_proj(base, work, room, r, c, s);
    }
    r
}
