// Substitutions as pairs on the stack, applied to types: `apply_type` of 002, and the same with variables that stay.
#![tactic(auto)]

ghost use Rattle.std.specs.Prelude.{◌≡◌, ◌++◌, ℕ, ◌+◌, ◌*◌, ◌-◌, ◌<◌, ◌≤◌, length};
ghost use Rattle.meaning.specs.Subst.{apply_in, each};
ghost use Rattle.names.specs.Names.{Names};
ghost use Rattle.ast.specs.Table.{tree, list, Node};
ghost use Rattle.pairs.specs.Pairs.{sub_at};
ghost use Rattle.apply.specs.Applied.{applied_of};
ghost use Rattle.apply.specs.Region.{sub_but, find_but, Ready, ReadyBut, Gives};

use ast::{Base, Cell, Room, Shape};
use errors::Refusal;
use pairs::Subst;

// What the pairs have for the variable of word x, unless it is one of the list vs.
fn find_but(base: &Base, work: &[u64], top: usize, sub: Subst, vs: usize, x: usize) -> Option<usize>
    requires names { Names base.now.names.now }
    requires node { Node (base.now.words.now ++ work.now) top vs }
    requires k_in_bounds { sub.at + 2 * sub.k ≤ length (base.now.words.now ++ work.now) }
    ensures { result ≡ find_but base.now.names.now (base.now.words.now ++ work.now) vs sub.at sub.k x }
{
    if vars::has_var(base, work, top, vs, x) {
        return None;
    }
    pairs::find(base, work, sub, x)
}

// The pairs applied to the type t, where the variables of the list vs stay: `apply_type` of the substitution
// without them, with so much depth left. No step would pay for a copy of it.
#[cycle(apply_but_args_but)]
pub fn apply_but(
    base: &Base,
    work: &mut [u64],
    room: &mut Room,
    depth: usize,
    sub: Subst,
    vs: usize,
    t: usize,
) -> Result<usize, Refusal>
    requires base_len_bound { length base.now.words.now ≤ 4 * room.old.top }
    requires ready_but { ReadyBut base.now.names.now (base.now.words.now ++ work.old) room.old.top room.old.left sub.at sub.k vs t }
    ensures { Gives (tree base.now.names.now (base.now.words.now ++ work.new)) (4 * room.old.top + 8 * room.old.left - 4) base.now.names.now
        (base.now.words.now ++ work.old) (base.now.words.now ++ work.new) room.old.top room.old.left
        (apply_in depth (sub_but base.now.names.now (base.now.words.now ++ work.old) vs sub.at sub.k) (tree base.now.names.now (base.now.words.now ++ work.old) t) room.old.left) (applied_of result room.new.top room.new.left) }
{
    if depth == 0 {
        return Err(Refusal::Depth);
    }
    if room.left == 0 {
        return Err(Refusal::Steps);
    }
    let d = depth - 1;
    room.left -= 1;
    let s = ast::shape_at(base, work, t);
    match s {
        Shape::Var(x) => {
            let f = find_but(base, work, room.top, sub, vs, x);
            Ok(f.unwrap_or(x))
        }
        Shape::Con(c, b) => {
            if b == ast::NIL {
                return Ok(t);
            }
            let m = args_but(base, work, room, d, sub, vs, b)?;
            Ok(ast::add(base, work, room, ast::CON, c, m))
        }
        Shape::Arrow(a, b) => {
            let m = apply_but(base, work, room, d, sub, vs, a)?;
            let n = apply_but(base, work, room, d, sub, vs, b)?;
            Ok(ast::add(base, work, room, ast::ARROW, m, n))
        }
    }
}

// The pairs applied to each type of the list n, left to right; the variables of the list vs stay.
#[cycle(apply_but_args_but)]
fn args_but(
    base: &Base,
    work: &mut [u64],
    room: &mut Room,
    depth: usize,
    sub: Subst,
    vs: usize,
    n: usize,
) -> Result<usize, Refusal>
    requires base_len_bound { length base.now.words.now ≤ 4 * room.old.top }
    requires ready_but { ReadyBut base.now.names.now (base.now.words.now ++ work.old) room.old.top room.old.left sub.at sub.k vs n }
    ensures { Gives (list base.now.names.now (base.now.words.now ++ work.new)) (4 * room.old.top + 8 * room.old.left) base.now.names.now
        (base.now.words.now ++ work.old) (base.now.words.now ++ work.new) room.old.top room.old.left
        (each (apply_in depth (sub_but base.now.names.now (base.now.words.now ++ work.old) vs sub.at sub.k)) (list base.now.names.now (base.now.words.now ++ work.old) n) room.old.left) (applied_of result room.new.top room.new.left) }
{
    let c = ast::cell_at(base, work, n);
    match c {
        Cell::Nil => Ok(n),
        Cell::Cons(a, b) => {
            let m = apply_but(base, work, room, depth, sub, vs, a)?;
            let l = args_but(base, work, room, depth, sub, vs, b)?;
            Ok(ast::add(base, work, room, ast::CONS, m, l))
        }
    }
}

// The pairs applied to the type t: `apply_type` with so much depth left.
pub fn apply(
    base: &Base,
    work: &mut [u64],
    room: &mut Room,
    depth: usize,
    sub: Subst,
    t: usize,
) -> Result<usize, Refusal>
    requires base_len_bound { length base.now.words.now ≤ 4 * room.old.top }
    requires ready { Ready base.now.names.now (base.now.words.now ++ work.old) room.old.top room.old.left sub.at sub.k t }
    ensures { Gives (tree base.now.names.now (base.now.words.now ++ work.new)) (4 * room.old.top + 8 * room.old.left - 4) base.now.names.now
        (base.now.words.now ++ work.old) (base.now.words.now ++ work.new) room.old.top room.old.left
        (apply_in depth (sub_at base.now.names.now (base.now.words.now ++ work.old) sub.at sub.k) (tree base.now.names.now (base.now.words.now ++ work.old) t) room.old.left) (applied_of result room.new.top room.new.left) }
{
    apply_but(base, work, room, depth, sub, ast::NIL, t)
}
