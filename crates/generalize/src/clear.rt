// The test for ambiguous predicates of `generalize_binding`.
ghost use Rattle.std.specs.Prelude.{◌≡◌, [], ◌++◌, ◌+◌, ◌*◌, ◌<◌, ◌≤◌, length};
ghost use Rattle.meaning.specs.Ast.{var};
ghost use Rattle.meaning.specs.Subst.{ftv_type};
ghost use Rattle.meaning.specs.Generalize.{env_ftv, preds_of};
ghost use Rattle.names.specs.Names.{tyvar_of};
ghost use Rattle.ast.specs.Table.{tree};
ghost use Rattle.supers.specs.Rows.{row_at, binders_in};
ghost use Rattle.scope.specs.Scope.{env_of};
ghost use Rattle.canonical.specs.Named.{ReadyType, ReadyRows};
ghost use Rattle.generalize.specs.Tested.{strays, stray_row, refusing, Tests};

use ast::{Base, Shape};
use errors::Refusal;
use scope::Env;
use supers::rows::Row;

// Whether neither the type t nor the environment has the variable of word x.
fn is_lost(base: &Base, work: &[u64], env: Env, top: usize, t: usize, x: usize) -> bool
    requires { ReadyType base.now.names.now (base.now.words.now ++ work.now) env.rows.now env.order.now top t }
    ensures { result ≡ strays (ftv_type (tree base.now.names.now (base.now.words.now ++ work.now) t) [])
        (env_ftv (env_of base.now.names.now (base.now.words.now ++ work.now) env.entry.rows.now env.entry.order.now))
        (var (tyvar_of base.now.names.now x)) }
{
    if ast::occurs_in(base, work, top, x, t) {
        return false;
    }
    let f = scope::is_free(base, work, env, top, x);
    !f
}

// Whether row i is pending at a variable that neither the type t nor the environment has.
fn is_stray(
    base: &Base,
    work: &[u64],
    env: Env,
    binders: &[u64],
    top: usize,
    n: usize,
    t: usize,
    i: usize,
) -> bool
    requires ready_rows { ReadyRows base.now.names.now (base.now.words.now ++ work.now) env.rows.now env.order.now binders.now top n t }
    requires i_lt_n { i < n }
    ensures { result ≡ stray_row (ftv_type (tree base.now.names.now (base.now.words.now ++ work.now) t) [])
        (env_ftv (env_of base.now.names.now (base.now.words.now ++ work.now) env.entry.rows.now env.entry.order.now))
        base.now.names.now (base.now.words.now ++ work.now) (row_at binders.now i) }
{
    let q = supers::rows::row_at(binders, i);
    let Row::Pending(_, _, u) = q else {
        return false;
    };
    let s = ast::shape_at(base, work, u);
    match s {
        Shape::Var(x) => is_lost(base, work, env, top, t, x),
        Shape::Con(_, _) => false,
        Shape::Arrow(_, _) => false,
    }
}

// Refuses row i as ambiguous, if it is pending.
fn refuse_row(binders: &[u64], i: usize) -> Result<(), Refusal>
    requires { 3 * i + 3 ≤ length binders.now }
    ensures { result ≡ refusing (row_at binders.now i) }
{
    let q = supers::rows::row_at(binders, i);
    match q {
        Row::Pending(_, c, u) => Err(Refusal::Ambiguous(c, u)),
        Row::Replaced(_, _) => Ok(()),
    }
}

// Refuses the first pending one of the first n rows at a variable that neither the type t nor the environment has.
pub fn ambiguous(
    base: &Base,
    work: &[u64],
    env: Env,
    binders: &[u64],
    top: usize,
    n: usize,
    t: usize,
) -> Result<(), Refusal>
    requires { ReadyRows base.now.names.now (base.now.words.now ++ work.now) env.rows.now env.order.now binders.now top n t }
    ensures { Tests (ftv_type (tree base.now.names.now (base.now.words.now ++ work.now) t) [])
        (env_ftv (env_of base.now.names.now (base.now.words.now ++ work.now) env.entry.rows.now env.entry.order.now))
        base.now.names.now (base.now.words.now ++ work.now) top
        (preds_of (binders_in base.now.names.now (base.now.words.now ++ work.now) binders.now 0 n)) result }
{
    for i in 0..n {
        if is_stray(base, work, env, binders, top, n, t, i) {
            return refuse_row(binders, i);
        }
    }
    Ok(())
}
