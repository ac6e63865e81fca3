// The variables that a scheme binds, as a list in byte order.
ghost use Rattle.std.specs.Prelude.{◌≡◌, ◌++◌, ◌*◌, ◌≤◌, length};
ghost use Rattle.meaning.specs.Ast.{var};
ghost use Rattle.meaning.specs.Subst.{occurs, occurs_in};
ghost use Rattle.theorems.proofs.FreeVars.{occurs_qual};
ghost use Rattle.names.specs.Names.{tyvar_of};
ghost use Rattle.ast.specs.Table.{tree, list, Node};
ghost use Rattle.scope.specs.Scope.{env_of};
ghost use Rattle.canonical.specs.Picks.{IsUnder, IsOver, Last};
ghost use Rattle.canonical.specs.Named.{free_in, ReadyType, ReadyVars, list_qual, Sorted};

use ast::{Base, Cell, Room, Shape};
use scope::Env;

// Whether the variable of word x lies before the picked one, if one was picked.
fn is_under(names: &[u64], p: Option<usize>, x: usize) -> bool
    ensures { IsUnder names.now p (tyvar_of names.now x) result }
{
    match p {
        None => true,
        Some(y) => names::before(names, x, y),
    }
}

// Whether it lies after the picked one, if one was picked.
fn is_over(names: &[u64], p: Option<usize>, x: usize) -> bool
    ensures { IsOver names.now p (tyvar_of names.now x) result }
{
    match p {
        None => true,
        Some(y) => names::before(names, y, x),
    }
}

// The variable's word x where it lies before `last`, after `best`, and is not free in the environment; else `best`.
fn last_var(
    base: &Base,
    work: &[u64],
    env: &Env,
    top: usize,
    last: Option<usize>,
    best: Option<usize>,
    x: usize,
) -> Option<usize>
    requires { ReadyType base.now.names.now (base.now.words.now ++ work.now) env.now.rows.now env.now.order.now top x }
    ensures { Last base.now.names.now (free_in base.now.names.now (base.now.words.now ++ work.now) env.now.rows.now env.now.order.now)
        (λ v. occurs v (var (tyvar_of base.now.names.now x))) top last best result }
{
    if is_under(base.names, last, x) {
        if is_over(base.names, best, x) {
            if scope::is_free(base, work, *env, top, x) {
                return best;
            }
            return Some(x);
        }
        return best;
    }
    best
}

// The last such variable of the type t. A shared node is walked once for each place where it stands.
#[cycle(last_in_last_list)]
fn last_in(
    base: &Base,
    work: &[u64],
    env: &Env,
    top: usize,
    last: Option<usize>,
    best: Option<usize>,
    t: usize,
) -> Option<usize>
    requires { ReadyType base.now.names.now (base.now.words.now ++ work.now) env.now.rows.now env.now.order.now top t }
    ensures { Last base.now.names.now (free_in base.now.names.now (base.now.words.now ++ work.now) env.now.rows.now env.now.order.now)
        (λ v. occurs v (tree base.now.names.now (base.now.words.now ++ work.now) t)) top last best result }
{
    let s = ast::shape_at(base, work, t);
    match s {
        Shape::Var(x) => last_var(base, work, env, top, last, best, x),
        Shape::Con(_, l) => last_list(base, work, env, top, last, best, l),
        Shape::Arrow(a, b) => {
            let m = last_in(base, work, env, top, last, best, a);
            last_in(base, work, env, top, last, m, b)
        }
    }
}

// The same of a list of types. The cells of a list of predicates are those of one of types.
#[cycle(last_in_last_list)]
fn last_list(
    base: &Base,
    work: &[u64],
    env: &Env,
    top: usize,
    last: Option<usize>,
    best: Option<usize>,
    l: usize,
) -> Option<usize>
    requires { ReadyType base.now.names.now (base.now.words.now ++ work.now) env.now.rows.now env.now.order.now top l }
    ensures { Last base.now.names.now (free_in base.now.names.now (base.now.words.now ++ work.now) env.now.rows.now env.now.order.now)
        (λ v. occurs_in v (list base.now.names.now (base.now.words.now ++ work.now) l)) top last best result }
{
    let c = ast::cell_at(base, work, l);
    match c {
        Cell::Nil => best,
        Cell::Cons(a, b) => {
            let m = last_in(base, work, env, top, last, best, a);
            last_list(base, work, env, top, last, m, b)
        }
    }
}

// The last variable before `last` of the type t and of the predicates ps that is not free in the environment.
fn last_before(
    base: &Base,
    work: &[u64],
    env: &Env,
    top: usize,
    last: Option<usize>,
    ps: usize,
    t: usize,
) -> Option<usize>
    requires ready_type { ReadyType base.now.names.now (base.now.words.now ++ work.now) env.now.rows.now env.now.order.now top t }
    requires node { Node (base.now.words.now ++ work.now) top ps }
    ensures { Last base.now.names.now (free_in base.now.names.now (base.now.words.now ++ work.now) env.now.rows.now env.now.order.now)
        (λ v. occurs_qual v (list_qual base.now.names.now (base.now.words.now ++ work.now) ps t)) top last None result }
{
    let m = last_list(base, work, env, top, last, None, ps);
    last_in(base, work, env, top, last, m, t)
}

// The variables of the type t and of the predicates ps that are not free in the environment, in byte order: from the last one
// on, each is put before those that follow it.
pub fn sorted_vars(
    base: &Base,
    work: &mut [u64],
    room: &mut Room,
    env: Env,
    ps: usize,
    t: usize,
) -> usize
    requires base_len_bound { length base.now.words.now ≤ 4 * room.old.top }
    requires ready_vars { ReadyVars base.now.names.now (base.now.words.now ++ work.old) env.rows.now env.order.now room.old.top ps t }
    ensures sorted { Sorted base.now.names.now (base.now.words.now ++ work.old) (base.now.words.now ++ work.new)
        (list_qual base.now.names.now (base.now.words.now ++ work.old) ps t) (env_of base.now.names.now (base.now.words.now ++ work.old) env.entry.rows.now env.entry.order.now)
        room.old.top result room.new.top }
    ensures left { room.new.left ≡ room.old.left }
{
    let mut l = ast::NIL;
    let mut last = None;
    // No `for`: which variable comes next is known only from the one before.
    while let Some(x) = last_before(base, work, &env, room.top, last, ps, t) {
        l = ast::add(base, work, room, ast::CONS, x, l);
        last = Some(x);
    }
    l
}
