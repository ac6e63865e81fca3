// Canonical names of 000: which variables of a type get the letters, and the new names in byte order.
#![tactic(auto)]

ghost use Rattle.std.specs.Prelude.{◌++◌, ◌<◌, ◌≤◌, length};
ghost use Rattle.meaning.specs.Ast.{var};
ghost use Rattle.meaning.specs.Subst.{occurs, occurs_in};
ghost use Rattle.theorems.proofs.FreeVars.{occurs_qual};
ghost use Rattle.names.specs.Names.{first_nullary, tyvar_of};
ghost use Rattle.ast.specs.Table.{tree, list};
ghost use Rattle.supers.specs.Rows.{row_at, Binders};
ghost use Rattle.scope.specs.Scope.{env_of};
ghost use Rattle.canonical.specs.Picks.{Least};
ghost use Rattle.canonical.specs.Named.{free_in, row_has, ReadyVar, ReadyType, ReadyRows, rows_qual, Lettered};

use ast::{Base, Cell, Shape};
use scope::Env;
use supers::rows::Row;

pub mod renamed;
pub mod sorted;

// The variable's word x where it lies from `from` on, below `best`, and is not free in the environment; else `best`.
fn least_var(
    base: &Base,
    work: &[u64],
    env: &Env,
    top: usize,
    from: usize,
    best: usize,
    x: usize,
) -> usize
    requires { ReadyVar base.now.names.now (base.now.words.now ++ work.now) env.now.rows.now env.now.order.now top }
    ensures { Least base.now.names.now (free_in base.now.names.now (base.now.words.now ++ work.now) env.now.rows.now env.now.order.now)
        (λ v. occurs v (var (tyvar_of base.now.names.now x))) from best result }
{
    if x < from {
        return best;
    }
    if best <= x {
        return best;
    }
    if scope::is_free(base, work, *env, top, x) {
        return best;
    }
    x
}

// The least such word of the variables of the type t. A shared node is walked once for each place where it stands.
#[cycle(least_in_least_list)]
fn least_in(
    base: &Base,
    work: &[u64],
    env: &Env,
    top: usize,
    from: usize,
    best: usize,
    t: usize,
) -> usize
    requires { ReadyType base.now.names.now (base.now.words.now ++ work.now) env.now.rows.now env.now.order.now top t }
    ensures { Least base.now.names.now (free_in base.now.names.now (base.now.words.now ++ work.now) env.now.rows.now env.now.order.now)
        (λ v. occurs v (tree base.now.names.now (base.now.words.now ++ work.now) t)) from best result }
{
    let s = ast::shape_at(base, work, t);
    match s {
        Shape::Var(x) => least_var(base, work, env, top, from, best, x),
        Shape::Con(_, l) => least_list(base, work, env, top, from, best, l),
        Shape::Arrow(a, b) => {
            let m = least_in(base, work, env, top, from, best, a);
            least_in(base, work, env, top, from, m, b)
        }
    }
}

// The same of a list of types.
#[cycle(least_in_least_list)]
fn least_list(
    base: &Base,
    work: &[u64],
    env: &Env,
    top: usize,
    from: usize,
    best: usize,
    l: usize,
) -> usize
    requires { ReadyType base.now.names.now (base.now.words.now ++ work.now) env.now.rows.now env.now.order.now top l }
    ensures { Least base.now.names.now (free_in base.now.names.now (base.now.words.now ++ work.now) env.now.rows.now env.now.order.now)
        (λ v. occurs_in v (list base.now.names.now (base.now.words.now ++ work.now) l)) from best result }
{
    let c = ast::cell_at(base, work, l);
    match c {
        Cell::Nil => best,
        Cell::Cons(a, b) => {
            let m = least_in(base, work, env, top, from, best, a);
            least_list(base, work, env, top, from, m, b)
        }
    }
}

// The least such word of the variables of row i, if the row is pending.
fn least_row(
    base: &Base,
    work: &[u64],
    env: &Env,
    binders: &[u64],
    top: usize,
    from: usize,
    best: usize,
    n: usize,
    i: usize,
) -> usize
    requires ready_var { ReadyVar base.now.names.now (base.now.words.now ++ work.now) env.now.rows.now env.now.order.now top }
    requires binders { Binders (base.now.words.now ++ work.now) binders.now top n }
    requires i_lt_n { i < n }
    ensures { Least base.now.names.now (free_in base.now.names.now (base.now.words.now ++ work.now) env.now.rows.now env.now.order.now)
        (λ v. row_has base.now.names.now (base.now.words.now ++ work.now) (row_at binders.now i) v) from best result }
{
    let q = supers::rows::row_at(binders, i);
    match q {
        Row::Pending(_, _, u) => least_in(base, work, env, top, from, best, u),
        Row::Replaced(_, _) => best,
    }
}

// The least such word of the variables of the type t and of the pending ones of the first n rows, below all that are no
// variables' words.
fn least_above(
    base: &Base,
    work: &[u64],
    env: &Env,
    binders: &[u64],
    top: usize,
    from: usize,
    n: usize,
    t: usize,
) -> usize
    requires { ReadyRows base.now.names.now (base.now.words.now ++ work.now) env.now.rows.now env.now.order.now binders.now top n t }
    ensures { Least base.now.names.now (free_in base.now.names.now (base.now.words.now ++ work.now) env.now.rows.now env.now.order.now)
        (λ v. occurs_qual v (rows_qual base.now.names.now (base.now.words.now ++ work.now) binders.now n t)) from first_nullary result }
{
    let mut best = least_in(base, work, env, top, from, names::NULLARY, t);
    for i in 0..n {
        best = least_row(base, work, env, binders, top, from, best, n, i);
    }
    best
}

// The words of the variables that get the letters, in rising order, and how many they are: of those of the type t and of the
// pending ones of the first n rows that are not free in the environment the 26 of least number.
// No heap: the words go into a lent slice, and how many they are is the answer.
pub fn letters(
    base: &Base,
    work: &[u64],
    env: Env,
    binders: &[u64],
    out: &mut [u64],
    top: usize,
    n: usize,
    t: usize,
) -> usize
    requires ready_rows { ReadyRows base.now.names.now (base.now.words.now ++ work.now) env.rows.now env.order.now binders.now top n t }
    requires in_bounds { 26 ≤ length out.old }
    ensures { Lettered base.now.names.now (base.now.words.now ++ work.now) (rows_qual base.now.names.now (base.now.words.now ++ work.now) binders.now n t)
        (env_of base.now.names.now (base.now.words.now ++ work.now) env.entry.rows.now env.entry.order.now) out.new result }
{
    let mut from = names::FRESH;
    for k in 0..26 {
        let x = least_above(base, work, &env, binders, top, from, n, t);
        if names::NULLARY <= x {
            return k;
        }
        out[k] = x as u64;
        from = x + 1;
    }
    26
}
