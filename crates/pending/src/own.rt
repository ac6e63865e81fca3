// What `generalize_binding` does with the rows that `reduce` left: of equal predicates the first stays, and those that are not the
// binding's own come first.
ghost use Rattle.std.specs.Prelude.{◌≡◌, [], ◌++◌, ◌+◌, ◌*◌, ◌<◌, ◌≤◌};
ghost use Rattle.meaning.specs.Base.{if};
ghost use Rattle.meaning.specs.Ast.{var, pred};
ghost use Rattle.meaning.specs.Subst.{ftv_type};
ghost use Rattle.meaning.specs.Generalize.{env_ftv};
ghost use Rattle.names.specs.Names.{Names, name_of, tyvar_of};
ghost use Rattle.ast.specs.Table.{tree, Node};
ghost use Rattle.supers.specs.Rows.{row_at, binders_in, Binders};
ghost use Rattle.scope.specs.Scope.{env_of, Scope};
ghost use Rattle.pending.specs.Owned.{owns, late_row, FindsEarlier, ReadyOwn, GivesSettled, GivesAliased, GivesLate, GivesDeferred};

use ast::{Base, Shape};
use scope::Env;
use supers::rows::Row;

// Whether the type t has the variable of word x or the environment has it not.
fn has_own(base: &Base, work: &[u64], env: Env, top: usize, t: usize, x: usize) -> bool
    requires names { Names base.now.names.now }
    requires scope { Scope base.now.names.now (base.now.words.now ++ work.now) env.rows.now env.order.now top }
    requires node { Node (base.now.words.now ++ work.now) top t }
    ensures { result ≡ owns (ftv_type (tree base.now.names.now (base.now.words.now ++ work.now) t) [])
        (env_ftv (env_of base.now.names.now (base.now.words.now ++ work.now) env.entry.rows.now env.entry.order.now))
        (var (tyvar_of base.now.names.now x)) }
{
    if ast::occurs_in(base, work, top, x, t) {
        return true;
    }
    let f = scope::is_free(base, work, env, top, x);
    !f
}

// Whether a residual predicate at the type u stays with a binding of type t: u is a variable that t has or that the environment
// has not. No residual predicate is at another type.
pub fn is_own(base: &Base, work: &[u64], env: Env, top: usize, t: usize, u: usize) -> bool
    requires names { Names base.now.names.now }
    requires scope { Scope base.now.names.now (base.now.words.now ++ work.now) env.rows.now env.order.now top }
    requires node { Node (base.now.words.now ++ work.now) top t }
    requires node_2 { Node (base.now.words.now ++ work.now) top u }
    ensures { result ≡ owns (ftv_type (tree base.now.names.now (base.now.words.now ++ work.now) t) [])
        (env_ftv (env_of base.now.names.now (base.now.words.now ++ work.now) env.entry.rows.now env.entry.order.now))
        (tree base.now.names.now (base.now.words.now ++ work.now) u) }
{
    let s = ast::shape_at(base, work, u);
    match s {
        Shape::Var(x) => has_own(base, work, env, top, t, x),
        Shape::Con(_, _) => true,
        Shape::Arrow(_, _) => true,
    }
}

// The dictionary's number of row j, if that is pending with class c at the type u.
fn equal_row(
    base: &Base,
    work: &[u64],
    binders: &[u64],
    top: usize,
    j: usize,
    c: usize,
    u: usize,
) -> Option<usize>
    requires names { Names base.now.names.now }
    requires binders { Binders (base.now.words.now ++ work.now) binders.now top (j + 1) }
    requires node { Node (base.now.words.now ++ work.now) top u }
    ensures { FindsEarlier (binders_in base.now.names.now (base.now.words.now ++ work.now) binders.now j (j + 1))
        (pred (name_of base.now.names.now c) (tree base.now.names.now (base.now.words.now ++ work.now) u)) result }
{
    let q = supers::rows::row_at(binders, j);
    let Row::Pending(d, b, t) = q else {
        return None;
    };
    if b != c {
        return None;
    }
    if ast::same(base, work, top, t, u) {
        return Some(d);
    }
    None
}

// The dictionary's number of the first pending row before number i with class c at the type u.
fn earlier(
    base: &Base,
    work: &[u64],
    binders: &[u64],
    top: usize,
    i: usize,
    c: usize,
    u: usize,
) -> Option<usize>
    requires names { Names base.now.names.now }
    requires binders { Binders (base.now.words.now ++ work.now) binders.now top i }
    requires node { Node (base.now.words.now ++ work.now) top u }
    ensures { FindsEarlier (binders_in base.now.names.now (base.now.words.now ++ work.now) binders.now 0 i)
        (pred (name_of base.now.names.now c) (tree base.now.names.now (base.now.words.now ++ work.now) u)) result }
{
    for j in 0..i {
        let q = equal_row(base, work, binders, top, j, c, u);
        if let Some(d) = q {
            return Some(d);
        }
    }
    None
}

// The first number where the test holds, else the second.
fn pick(own: bool, e: usize, d: usize) -> usize
    ensures { result ≡ if own e d }
{
    if own {
        return e;
    }
    d
}

// Row i: where an earlier row has its predicate, it is replaced by the name of the first such row if it is the binding's own,
// else by its own name.
fn settle_row(
    base: &Base,
    work: &[u64],
    env: Env,
    binders: &mut [u64],
    top: usize,
    i: usize,
    t: usize,
)
    requires { ReadyOwn base.now.names.now (base.now.words.now ++ work.now) env.rows.now env.order.now binders.old top (i + 1) t }
    ensures { GivesSettled (ftv_type (tree base.now.names.now (base.now.words.now ++ work.now) t) [])
        (env_ftv (env_of base.now.names.now (base.now.words.now ++ work.now) env.entry.rows.now env.entry.order.now))
        base.now.names.now (base.now.words.now ++ work.now) binders.old binders.new i }
{
    let q = supers::rows::row_at(binders, i);
    let Row::Pending(d, c, u) = q else {
        return;
    };
    let f = earlier(base, work, binders, top, i, c, u);
    let Some(e) = f else {
        return;
    };
    let own = is_own(base, work, env, top, t, u);
    let x = pick(own, e, d);
    crate::put_row(
        binders,
        i,
        d as u64,
        supers::rows::MARK,
        (names::FRESH + x) as u64,
    );
}

// Of the first n rows that are pending with equal predicates the first stays, and the others are replaced.
pub fn alias_rows(
    base: &Base,
    work: &[u64],
    env: Env,
    binders: &mut [u64],
    top: usize,
    n: usize,
    t: usize,
)
    requires { ReadyOwn base.now.names.now (base.now.words.now ++ work.now) env.rows.now env.order.now binders.old top n t }
    ensures { GivesAliased (ftv_type (tree base.now.names.now (base.now.words.now ++ work.now) t) [])
        (env_ftv (env_of base.now.names.now (base.now.words.now ++ work.now) env.entry.rows.now env.entry.order.now))
        base.now.names.now (base.now.words.now ++ work.now) binders.old binders.new n }
{
    for i in 0..n {
        settle_row(base, work, env, binders, top, i, t);
    }
}

// Whether row i is pending and is not the binding's own.
fn is_late(
    base: &Base,
    work: &[u64],
    env: Env,
    binders: &[u64],
    top: usize,
    i: usize,
    t: usize,
) -> bool
    requires { ReadyOwn base.now.names.now (base.now.words.now ++ work.now) env.rows.now env.order.now binders.now top (i + 1) t }
    ensures { result ≡ late_row (ftv_type (tree base.now.names.now (base.now.words.now ++ work.now) t) [])
        (env_ftv (env_of base.now.names.now (base.now.words.now ++ work.now) env.entry.rows.now env.entry.order.now))
        base.now.names.now (base.now.words.now ++ work.now) (row_at binders.now i) }
{
    let q = supers::rows::row_at(binders, i);
    let Row::Pending(_, _, u) = q else {
        return false;
    };
    let own = is_own(base, work, env, top, t, u);
    !own
}

// Row i: where it is deferred, it moves to number nd, behind those that were deferred before it.
fn defer_row(
    base: &Base,
    work: &[u64],
    env: Env,
    binders: &mut [u64],
    top: usize,
    nd: usize,
    i: usize,
    t: usize,
) -> usize
    requires nd_le_i { nd ≤ i }
    requires ready_own { ReadyOwn base.now.names.now (base.now.words.now ++ work.now) env.rows.now env.order.now binders.old top (i + 1) t }
    ensures { GivesLate (late_row (ftv_type (tree base.now.names.now (base.now.words.now ++ work.now) t) [])
        (env_ftv (env_of base.now.names.now (base.now.words.now ++ work.now) env.entry.rows.now env.entry.order.now))
        base.now.names.now (base.now.words.now ++ work.now) (row_at binders.old i)) binders.old binders.new nd i result }
{
    let late = is_late(base, work, env, binders, top, i, t);
    if late {
        crate::order::rotate(binders, nd, i);
        return nd + 1;
    }
    nd
}

// Of the first n rows those that are deferred come to the front, in their order, and all others follow in theirs. Gives how
// many are deferred.
pub fn defer_rows(
    base: &Base,
    work: &[u64],
    env: Env,
    binders: &mut [u64],
    top: usize,
    n: usize,
    t: usize,
) -> usize
    requires { ReadyOwn base.now.names.now (base.now.words.now ++ work.now) env.rows.now env.order.now binders.old top n t }
    ensures { GivesDeferred (ftv_type (tree base.now.names.now (base.now.words.now ++ work.now) t) [])
        (env_ftv (env_of base.now.names.now (base.now.words.now ++ work.now) env.entry.rows.now env.entry.order.now))
        base.now.names.now (base.now.words.now ++ work.now) binders.old binders.new n result }
{
    let mut nd: usize = 0;
    for i in 0..n {
        nd = defer_row(base, work, env, binders, top, nd, i, t);
    }
    nd
}
