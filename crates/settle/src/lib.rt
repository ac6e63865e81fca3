// The first half of `generalize_binding` and of `finalize_expr` of 000: pending predicates, which are rows of a lent slice, are
// reduced and simplified, and their dictionaries replace names in the term.
#![tactic(auto)]

ghost use Rattle.std.specs.Prelude.{[], ◌++◌, ◌+◌, ◌*◌, ◌≤◌, length};
ghost use Rattle.meaning.specs.Subst.{ftv_type};
ghost use Rattle.meaning.specs.Generalize.{env_ftv};
ghost use Rattle.ast.specs.Table.{tree};
ghost use Rattle.scope.specs.Scope.{env_of};
ghost use Rattle.pending.specs.Owned.{ReadyOwn};
ghost use Rattle.settle.specs.Answers.{GivesSorted, ReadyReplace, GivesReplaced, GivesFrom, ReadySettle, GivesSettled};
ghost use Rattle.apply.specs.Applied.{applied_of};
ghost use Rattle.settle.specs.Settled.{settled_of};

use ast::{Base, Room};
use errors::{DEPTH, Refusal};
use resolve::Rules;
use scope::Env;
use supers::Root;

// A term, and how many rows are deferred.
#[derive(Clone, Copy)]
pub struct Rest {
    pub term: usize,
    pub deferred: usize,
}

// Of the first n rows those with equal predicates are replaced by the first, and those that are deferred come to the front.
// Gives how many are deferred.
fn sort_out(
    base: &Base,
    work: &[u64],
    env: Env,
    binders: &mut [u64],
    top: usize,
    n: usize,
    t: usize,
) -> usize
    requires { ReadyOwn base.now.names.now (base.now.words.now ++ work.now) env.rows.now env.order.now binders.old top n t }
    ensures { GivesSorted (ftv_type (tree base.now.names.now (base.now.words.now ++ work.now) t) [])
        (env_ftv (env_of base.now.names.now (base.now.words.now ++ work.now) env.entry.rows.now env.entry.order.now))
        base.now.names.now (base.now.words.now ++ work.now) binders.old binders.new n result }
{
    pending::own::alias_rows(base, work, env, binders, top, n, t);
    pending::own::defer_rows(base, work, env, binders, top, n, t)
}

// The first n rows are simplified, and then all that were replaced replace names in the term e.
fn replace(
    base: &Base,
    work: &mut [u64],
    room: &mut Room,
    classes: &[u64],
    binders: &mut [u64],
    sp: usize,
    n: usize,
    e: usize,
) -> Result<usize, Refusal>
    requires base_len_bound { length base.now.words.now ≤ 4 * room.old.top }
    requires ready_replace { ReadyReplace base.now.names.now (base.now.words.now ++ work.old) binders.old room.old.top room.old.left sp n e }
    ensures { GivesReplaced base.now.names.now classes.now (base.now.words.now ++ work.old) (base.now.words.now ++ work.new)
        binders.old binders.new room.old.top room.old.left sp n e (applied_of result room.new.top room.new.left) }
{
    simplify::simplify_context(base, work, room, classes, binders, sp, n)?;
    terms::subst_core(base, work, room, binders, DEPTH, n, e)
}

// The same of the rows from number nd up to number n.
fn replace_from(
    base: &Base,
    work: &mut [u64],
    room: &mut Room,
    classes: &[u64],
    binders: &mut [u64],
    sp: usize,
    nd: usize,
    n: usize,
    e: usize,
) -> Result<usize, Refusal>
    requires nd_le_n { nd ≤ n }
    requires n_in_bounds { 3 * n ≤ length binders.old }
    requires base_len_bound { length base.now.words.now ≤ 4 * room.old.top }
    requires ready_replace { ReadyReplace base.now.names.now (base.now.words.now ++ work.old) binders.old room.old.top room.old.left sp n e }
    ensures { GivesFrom base.now.names.now classes.now (base.now.words.now ++ work.old) (base.now.words.now ++ work.new)
        binders.old binders.new room.old.top room.old.left sp nd n e (applied_of result room.new.top room.new.left) }
{
    let from = 3 * nd;
    let k = n - nd;
    replace(base, work, room, classes, &mut binders[from..], sp, k, e)
}

// The first n rows, all pending, are reduced; of those that stay the deferred ones come to the front, and the others are
// simplified. The term e gets the dictionaries for the names that were replaced.
pub fn settle(
    base: &Base,
    work: &mut [u64],
    room: &mut Room,
    rules: Rules,
    env: Env,
    binders: &mut [u64],
    sp: usize,
    n: usize,
    t: usize,
    e: usize,
) -> Result<Rest, Refusal>
    requires base_len_bound { length base.now.words.now ≤ 4 * room.old.top }
    requires ready_settle { ReadySettle base.now.names.now (base.now.words.now ++ work.old) rules.insts.now env.rows.now env.order.now binders.old room.old.top room.old.left sp n t e }
    ensures { GivesSettled base.now.names.now rules.entry.classes.now (base.now.words.now ++ work.old) (base.now.words.now ++ work.new)
        rules.entry.insts.now env.entry.rows.now env.entry.order.now binders.old binders.new room.old.top room.old.left sp n t e (settled_of result room.new.top room.new.left) }
{
    reduce::reduce(
        base,
        work,
        room,
        rules,
        binders,
        sp,
        Root::Binder,
        ast::NIL,
        n,
    )?;
    let deferred = sort_out(base, work, env, binders, room.top, n, t);
    let term = replace_from(base, work, room, rules.classes, binders, sp, deferred, n, e)?;
    Ok(Rest { term, deferred })
}
