// Unification of 002 over words. The substitution is pairs that end where the stack ended.
#![tactic(auto)]

mod variable;

ghost use Rattle.std.specs.Prelude.{◌≡◌, ◌++◌, ℕ, ◌+◌, ◌*◌, ◌-◌, ◌<◌, ◌≤◌, length};
ghost use Rattle.meaning.specs.Subst as S;
ghost use Rattle.meaning.specs.Unify as U;
ghost use Rattle.names.specs.Names.{name_of};
ghost use Rattle.ast.specs.Table.{tree, list};
ghost use Rattle.pairs.specs.Pairs.{sub_at};
ghost use Rattle.compose.specs.Answers.{GivesU, ReadyU, ReadyOne, ReadyArrow, ReadyJoin};
ghost use Rattle.unify.specs.Unify.{apply_two, unify_one, GivesTwo};
ghost use Rattle.apply.specs.Applied.{applied_of};
ghost use Rattle.unify.specs.Two.{two_of};

use ast::{Base, Cell, Room, Shape};
use compose::{Beside, Ending};
use errors::Refusal;
use pairs::Subst;

// A pair of types, by their words.
#[derive(Clone, Copy)]
pub struct Pair {
    pub left: usize,
    pub right: usize,
}

// The pairs applied to x and to y.
fn both(
    base: &Base,
    work: &mut [u64],
    room: &mut Room,
    end: Ending,
    x: usize,
    y: usize,
) -> Result<Pair, Refusal>
    requires base_len_bound { length base.now.words.now ≤ 4 * room.old.top }
    requires ready_one { ReadyOne base.now.names.now (base.now.words.now ++ work.old) room.old.top room.old.left end.hi end.k x y }
    ensures { GivesTwo base.now.names.now (base.now.words.now ++ work.old) (base.now.words.now ++ work.new) room.old.top room.old.left
        (apply_two (sub_at base.now.names.now (base.now.words.now ++ work.old) (end.hi - 2 * end.k) end.k) (tree base.now.names.now (base.now.words.now ++ work.old) x) (tree base.now.names.now (base.now.words.now ++ work.old) y) room.old.left) (two_of result room.new.top room.new.left) }
{
    let sub = Subst {
        at: end.hi - 2 * end.k,
        k: end.k,
    };
    let left = apply::apply(base, work, room, errors::DEPTH, sub, x)?;
    let right = apply::apply(base, work, room, errors::DEPTH, sub, y)?;
    Ok(Pair { left, right })
}

// The k2 pairs just below the pairs, composed with these.
fn join(
    base: &Base,
    work: &mut [u64],
    room: &mut Room,
    k2: usize,
    end: Ending,
) -> Result<usize, Refusal>
    requires base_len_bound { length base.now.words.now ≤ 4 * room.old.top }
    requires ready_join { ReadyJoin base.now.names.now (base.now.words.now ++ work.old) room.old.top room.old.left end.hi k2 end.k }
    ensures { GivesU 0 (2 * k2 + 2 * end.k) base.now.names.now (base.now.words.now ++ work.old) (base.now.words.now ++ work.new) room.old.top room.old.left end.hi
        (S.compose (sub_at base.now.names.now (base.now.words.now ++ work.old) (end.hi - 2 * end.k - 2 * k2) k2) (sub_at base.now.names.now (base.now.words.now ++ work.old) (end.hi - 2 * end.k) end.k) room.old.left) (applied_of result room.new.top room.new.left) }
{
    let lo = end.hi - 2 * end.k - 2 * k2;
    compose::compose_in(base, work, room, Beside { lo, k2, k1: end.k })
}

// The types x and y unified, after the pairs.
#[cycle(one_unify_unify_arrow_unify_con_unify_zip)]
fn one(
    base: &Base,
    work: &mut [u64],
    room: &mut Room,
    depth: usize,
    end: Ending,
    x: usize,
    y: usize,
) -> Result<usize, Refusal>
    requires base_len_bound { length base.now.words.now ≤ 4 * room.old.top }
    requires ready_one { ReadyOne base.now.names.now (base.now.words.now ++ work.old) room.old.top room.old.left end.hi end.k x y }
    ensures { GivesU 1 (2 * end.k) base.now.names.now (base.now.words.now ++ work.old) (base.now.words.now ++ work.new) room.old.top room.old.left end.hi
        (unify_one (λ a b. U.unify_in depth a b) (sub_at base.now.names.now (base.now.words.now ++ work.old) (end.hi - 2 * end.k) end.k) (tree base.now.names.now (base.now.words.now ++ work.old) x) (tree base.now.names.now (base.now.words.now ++ work.old) y) room.old.left) (applied_of result room.new.top room.new.left) }
{
    let p = both(base, work, room, end, x, y)?;
    let k2 = unify(base, work, room, depth, end.hi - 2 * end.k, p.left, p.right)?;
    join(base, work, room, k2, end)
}

// `unify_zip`: the lists xs and ys unified, after the pairs.
#[cycle(one_unify_unify_arrow_unify_con_unify_zip)]
fn unify_zip(
    base: &Base,
    work: &mut [u64],
    room: &mut Room,
    depth: usize,
    end: Ending,
    xs: usize,
    ys: usize,
) -> Result<usize, Refusal>
    requires base_len_bound { length base.now.words.now ≤ 4 * room.old.top }
    requires ready_one { ReadyOne base.now.names.now (base.now.words.now ++ work.old) room.old.top room.old.left end.hi end.k xs ys }
    ensures { GivesU 0 (2 * end.k) base.now.names.now (base.now.words.now ++ work.old) (base.now.words.now ++ work.new) room.old.top room.old.left end.hi
        (U.unify_zip (λ a b. U.unify_in depth a b) (list base.now.names.now (base.now.words.now ++ work.old) xs) (list base.now.names.now (base.now.words.now ++ work.old) ys) (sub_at base.now.names.now (base.now.words.now ++ work.old) (end.hi - 2 * end.k) end.k) room.old.left) (applied_of result room.new.top room.new.left) }
{
    let p = ast::cell_at(base, work, xs);
    let q = ast::cell_at(base, work, ys);
    match p {
        Cell::Nil => Ok(end.k),
        Cell::Cons(x, xs2) => match q {
            Cell::Nil => Ok(end.k),
            Cell::Cons(y, ys2) => {
                let k2 = one(base, work, room, depth, end, x, y)?;
                unify_zip(
                    base,
                    work,
                    room,
                    depth,
                    Ending { hi: end.hi, k: k2 },
                    xs2,
                    ys2,
                )
            }
        },
    }
}

// Two constructors: the names, then the numbers of arguments, then the arguments.
#[cycle(one_unify_unify_arrow_unify_con_unify_zip)]
fn unify_con(
    base: &Base,
    work: &mut [u64],
    room: &mut Room,
    depth: usize,
    sp: usize,
    c: usize,
    xs: usize,
    d: usize,
    ys: usize,
) -> Result<usize, Refusal>
    requires base_len_bound { length base.now.words.now ≤ 4 * room.old.top }
    requires ready_u { ReadyU base.now.names.now (base.now.words.now ++ work.old) room.old.top room.old.left sp xs ys }
    ensures { GivesU 0 0 base.now.names.now (base.now.words.now ++ work.old) (base.now.words.now ++ work.new) room.old.top room.old.left sp
        (U.unify_con (λ a b. U.unify_in depth a b) (name_of base.now.names.now c) (list base.now.names.now (base.now.words.now ++ work.old) xs) (name_of base.now.names.now d) (list base.now.names.now (base.now.words.now ++ work.old) ys) room.old.left) (applied_of result room.new.top room.new.left) }
{
    if c != d {
        return Err(Refusal::ConMismatch(c, d));
    }
    let i = ast::count_list(base, work, room.top, xs);
    let j = ast::count_list(base, work, room.top, ys);
    if i != j {
        return Err(Refusal::ArityMismatch(c, i, j));
    }
    unify_zip(base, work, room, depth, Ending { hi: sp, k: 0 }, xs, ys)
}

// Two arrows: the left sides as they are, the right sides after what those gave.
#[cycle(one_unify_unify_arrow_unify_con_unify_zip)]
fn unify_arrow(
    base: &Base,
    work: &mut [u64],
    room: &mut Room,
    depth: usize,
    sp: usize,
    a: usize,
    b: usize,
    c: usize,
    d: usize,
) -> Result<usize, Refusal>
    requires base_len_bound { length base.now.words.now ≤ 4 * room.old.top }
    requires ready_arrow { ReadyArrow base.now.names.now (base.now.words.now ++ work.old) room.old.top room.old.left sp a b c d }
    ensures { GivesU 0 0 base.now.names.now (base.now.words.now ++ work.old) (base.now.words.now ++ work.new) room.old.top room.old.left sp
        (U.unify_arrow (λ x y. U.unify_in depth x y) (tree base.now.names.now (base.now.words.now ++ work.old) a) (tree base.now.names.now (base.now.words.now ++ work.old) b) (tree base.now.names.now (base.now.words.now ++ work.old) c) (tree base.now.names.now (base.now.words.now ++ work.old) d) room.old.left) (applied_of result room.new.top room.new.left) }
{
    let k = unify(base, work, room, depth, sp, a, c)?;
    one(base, work, room, depth, Ending { hi: sp, k }, b, d)
}

// `unify`: the most general unifier of the types s and t, as pairs that end at sp, where the stack ends.
#[cycle(one_unify_unify_arrow_unify_con_unify_zip)]
pub fn unify(
    base: &Base,
    work: &mut [u64],
    room: &mut Room,
    depth: usize,
    sp: usize,
    s: usize,
    t: usize,
) -> Result<usize, Refusal>
    requires base_len_bound { length base.now.words.now ≤ 4 * room.old.top }
    requires ready_u { ReadyU base.now.names.now (base.now.words.now ++ work.old) room.old.top room.old.left sp s t }
    ensures { GivesU 1 0 base.now.names.now (base.now.words.now ++ work.old) (base.now.words.now ++ work.new) room.old.top room.old.left sp
        (U.unify_in depth (tree base.now.names.now (base.now.words.now ++ work.old) s) (tree base.now.names.now (base.now.words.now ++ work.old) t) room.old.left) (applied_of result room.new.top room.new.left) }
{
    if depth == 0 {
        return Err(Refusal::Depth);
    }
    if room.left == 0 {
        return Err(Refusal::Steps);
    }
    let e = depth - 1;
    room.left -= 1;
    let p = ast::shape_at(base, work, s);
    let q = ast::shape_at(base, work, t);
    match p {
        Shape::Var(x) => variable::bind(base, work, room, sp, x, t),
        Shape::Con(c, xs) => match q {
            Shape::Var(y) => variable::bind(base, work, room, sp, y, s),
            Shape::Con(d, ys) => unify_con(base, work, room, e, sp, c, xs, d, ys),
            Shape::Arrow(_, _) => Err(Refusal::UnificationFailure(s, t)),
        },
        Shape::Arrow(a, b) => match q {
            Shape::Var(y) => variable::bind(base, work, room, sp, y, s),
            Shape::Con(_, _) => Err(Refusal::UnificationFailure(s, t)),
            Shape::Arrow(c, d) => unify_arrow(base, work, room, e, sp, a, b, c, d),
        },
    }
}
