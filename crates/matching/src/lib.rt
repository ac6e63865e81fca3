// Matching of 002 over words: no node is made, and the substitution is pairs that end where the stack ended.
// `match_ty` has its own lists and arrows beside those of `unify`, as in the Rust.
#![tactic(auto)]

ghost use Rattle.std.specs.Prelude.{◌≡◌, ◌++◌, ℕ, ◌+◌, ◌*◌, ◌-◌, ◌<◌, ◌≤◌, length};
ghost use Rattle.meaning.specs.Ast.{pred};
ghost use Rattle.meaning.specs.Unify as U;
ghost use Rattle.names.specs.Names.{name_of};
ghost use Rattle.ast.specs.Table.{tree, list};
ghost use Rattle.pairs.specs.Pairs.{sub_at};
ghost use Rattle.compose.specs.Answers.{GivesU, ReadyU, ReadyOne, ReadyArrow};
ghost use Rattle.matching.specs.Match.{match_one, match_arrow, Shapes, Classes};
ghost use Rattle.apply.specs.Applied.{applied_of};

use ast::{Base, Cell, Room, Shape};
use compose::{Beside, Ending};
use errors::Refusal;

// The arguments of a pattern, after the pairs.
#[cycle(match_arrow_match_cons_match_one_match_ty_match_zip)]
fn match_zip(
    base: &Base,
    work: &mut [u64],
    room: &mut Room,
    depth: usize,
    end: Ending,
    xs: usize,
    ys: usize,
) -> Result<usize, Refusal>
    requires base_len_bound { length base.now.words.now ≤ 4 * room.old.top }
    requires ready_one { ReadyOne base.now.names.now (base.now.words.now ++ work.old) room.old.top room.old.left end.hi end.k xs ys }
    ensures { GivesU 0 (2 * end.k) base.now.names.now (base.now.words.now ++ work.old) (base.now.words.now ++ work.new) room.old.top room.old.left end.hi
        (U.match_zip (λ a b. U.match_in depth a b) (list base.now.names.now (base.now.words.now ++ work.old) xs) (list base.now.names.now (base.now.words.now ++ work.old) ys) (sub_at base.now.names.now (base.now.words.now ++ work.old) (end.hi - 2 * end.k) end.k) room.old.left) (applied_of result room.new.top room.new.left) }
{
    let p = ast::cell_at(base, work, xs);
    let q = ast::cell_at(base, work, ys);
    match p {
        Cell::Nil => Ok(end.k),
        Cell::Cons(x, xs2) => match q {
            Cell::Nil => Ok(end.k),
            Cell::Cons(y, ys2) => {
                let k2 = match_one(base, work, room, depth, end, x, y)?;
                match_zip(
                    base,
                    work,
                    room,
                    depth,
                    Ending { hi: end.hi, k: k2 },
                    xs2,
                    ys2,
                )
            }
        },
    }
}

// One pair of types, merged into the pairs.
#[cycle(match_arrow_match_cons_match_one_match_ty_match_zip)]
fn match_one(
    base: &Base,
    work: &mut [u64],
    room: &mut Room,
    depth: usize,
    end: Ending,
    x: usize,
    y: usize,
) -> Result<usize, Refusal>
    requires base_len_bound { length base.now.words.now ≤ 4 * room.old.top }
    requires ready_one { ReadyOne base.now.names.now (base.now.words.now ++ work.old) room.old.top room.old.left end.hi end.k x y }
    ensures { GivesU 1 (2 * end.k) base.now.names.now (base.now.words.now ++ work.old) (base.now.words.now ++ work.new) room.old.top room.old.left end.hi
        (match_one (λ a b. U.match_in depth a b) (sub_at base.now.names.now (base.now.words.now ++ work.old) (end.hi - 2 * end.k) end.k) (tree base.now.names.now (base.now.words.now ++ work.old) x) (tree base.now.names.now (base.now.words.now ++ work.old) y) room.old.left) (applied_of result room.new.top room.new.left) }
{
    let k2 = match_ty(base, work, room, depth, end.hi - 2 * end.k, x, y)?;
    let lo = end.hi - 2 * end.k - 2 * k2;
    compose::merge_pairs(base, work, room, Beside { lo, k2, k1: end.k })
}

// Two constructors of types s and t: one name and as many arguments, or 12.
#[cycle(match_arrow_match_cons_match_one_match_ty_match_zip)]
fn match_cons(
    base: &Base,
    work: &mut [u64],
    room: &mut Room,
    depth: usize,
    sp: usize,
    s: usize,
    t: usize,
    c: usize,
    xs: usize,
    d: usize,
    ys: usize,
) -> Result<usize, Refusal>
    requires base_len_bound { length base.now.words.now ≤ 4 * room.old.top }
    requires ready_u { ReadyU base.now.names.now (base.now.words.now ++ work.old) room.old.top room.old.left sp s t }
    requires shapes { Shapes (base.now.words.now ++ work.old) s t c xs d ys }
    ensures { GivesU 0 0 base.now.names.now (base.now.words.now ++ work.old) (base.now.words.now ++ work.new) room.old.top room.old.left sp
        (U.match_node (λ a b. U.match_in depth a b) (tree base.now.names.now (base.now.words.now ++ work.old) s) (tree base.now.names.now (base.now.words.now ++ work.old) t) room.old.left) (applied_of result room.new.top room.new.left) }
{
    if c != d {
        return Err(Refusal::UnificationFailure(s, t));
    }
    let i = ast::count_list(base, work, room.top, xs);
    let j = ast::count_list(base, work, room.top, ys);
    if i != j {
        return Err(Refusal::UnificationFailure(s, t));
    }
    match_zip(base, work, room, depth, Ending { hi: sp, k: 0 }, xs, ys)
}

// Two arrows: the left sides, then the right sides, then both merged.
#[cycle(match_arrow_match_cons_match_one_match_ty_match_zip)]
fn match_arrow(
    base: &Base,
    work: &mut [u64],
    room: &mut Room,
    depth: usize,
    sp: usize,
    a: usize,
    b: usize,
    c: usize,
    d: usize,
) -> Result<usize, Refusal>
    requires base_len_bound { length base.now.words.now ≤ 4 * room.old.top }
    requires ready_arrow { ReadyArrow base.now.names.now (base.now.words.now ++ work.old) room.old.top room.old.left sp a b c d }
    ensures { GivesU 0 0 base.now.names.now (base.now.words.now ++ work.old) (base.now.words.now ++ work.new) room.old.top room.old.left sp
        (match_arrow (λ x y. U.match_in depth x y) (tree base.now.names.now (base.now.words.now ++ work.old) a) (tree base.now.names.now (base.now.words.now ++ work.old) b) (tree base.now.names.now (base.now.words.now ++ work.old) c) (tree base.now.names.now (base.now.words.now ++ work.old) d) room.old.left) (applied_of result room.new.top room.new.left) }
{
    let k = match_ty(base, work, room, depth, sp, a, c)?;
    match_one(base, work, room, depth, Ending { hi: sp, k }, b, d)
}

// `match_ty`: the pattern s against the type t, as pairs that end at sp, where the stack ends.
#[cycle(match_arrow_match_cons_match_one_match_ty_match_zip)]
pub fn match_ty(
    base: &Base,
    work: &mut [u64],
    room: &mut Room,
    depth: usize,
    sp: usize,
    s: usize,
    t: usize,
) -> Result<usize, Refusal>
    requires base_len_bound { length base.now.words.now ≤ 4 * room.old.top }
    requires ready_u { ReadyU base.now.names.now (base.now.words.now ++ work.old) room.old.top room.old.left sp s t }
    ensures { GivesU 1 0 base.now.names.now (base.now.words.now ++ work.old) (base.now.words.now ++ work.new) room.old.top room.old.left sp
        (U.match_in depth (tree base.now.names.now (base.now.words.now ++ work.old) s) (tree base.now.names.now (base.now.words.now ++ work.old) t) room.old.left) (applied_of result room.new.top room.new.left) }
{
    if depth == 0 {
        return Err(Refusal::Depth);
    }
    if room.left == 0 {
        return Err(Refusal::Steps);
    }
    let e = depth - 1;
    room.left -= 1;
    let p = ast::shape_at(base, work, s);
    let q = ast::shape_at(base, work, t);
    match p {
        Shape::Var(x) => {
            pairs::put(base, work, sp - 2, x);
            pairs::put(base, work, sp - 1, t);
            Ok(1)
        }
        Shape::Con(c, xs) => match q {
            Shape::Var(_) => Err(Refusal::UnificationFailure(s, t)),
            Shape::Con(d, ys) => match_cons(base, work, room, e, sp, s, t, c, xs, d, ys),
            Shape::Arrow(_, _) => Err(Refusal::UnificationFailure(s, t)),
        },
        Shape::Arrow(a, b) => match q {
            Shape::Var(_) => Err(Refusal::UnificationFailure(s, t)),
            Shape::Con(_, _) => Err(Refusal::UnificationFailure(s, t)),
            Shape::Arrow(c, d) => match_arrow(base, work, room, e, sp, a, b, c, d),
        },
    }
}

// `match_pred`: a head of class c at s against a goal of class d at t.
pub fn match_pred(
    base: &Base,
    work: &mut [u64],
    room: &mut Room,
    sp: usize,
    c: usize,
    s: usize,
    d: usize,
    t: usize,
) -> Result<usize, Refusal>
    requires base_len_bound { length base.now.words.now ≤ 4 * room.old.top }
    requires ready_u { ReadyU base.now.names.now (base.now.words.now ++ work.old) room.old.top room.old.left sp s t }
    requires classes { Classes c d }
    ensures { GivesU 0 0 base.now.names.now (base.now.words.now ++ work.old) (base.now.words.now ++ work.new) room.old.top room.old.left sp
        (U.match_pred (pred (name_of base.now.names.now c) (tree base.now.names.now (base.now.words.now ++ work.old) s)) (pred (name_of base.now.names.now d) (tree base.now.names.now (base.now.words.now ++ work.old) t)) room.old.left) (applied_of result room.new.top room.new.left) }
{
    if c != d {
        return Err(Refusal::UnificationFailure(names::NULLARY + c, names::NULLARY + d));
    }
    match_ty(base, work, room, errors::DEPTH, sp, s, t)
}
