// `generalize_binding` and `finalize_expr` of 000 over words: pending rows are settled, and what is left gets canonical names.
#![tactic(auto)]

pub mod clear;
pub mod naming;

ghost use Rattle.std.specs.Prelude.{[], ◌++◌, ◌*◌, ◌≤◌, length};
ghost use Rattle.ast.specs.Table.{Node};
ghost use Rattle.generalize.specs.Naming.{ReadyNames};
ghost use Rattle.generalize.specs.Generalizes.{GivesConcluded, ReadyFrom, GivesFrom, ReadyGeneralize, GivesGeneralized, GivesNamesFrom, GivesFinalized};
ghost use Rattle.generalize.specs.Generalized.{generalized_of};
ghost use Rattle.generalize.specs.Finalized.{finalized_of};
ghost use Rattle.generalize.specs.Named.{named_of};

use ast::{Base, Room};
use errors::Refusal;
use naming::Naming;
use resolve::Rules;
use scope::Env;
use subst::Scheme;

// A scheme, its term, and how many rows are deferred.
#[derive(Clone, Copy)]
pub struct General {
    pub scheme: Scheme,
    pub term: usize,
    pub deferred: usize,
}

// A list of predicates, a type, and a term.
#[derive(Clone, Copy)]
pub struct Final {
    pub preds: usize,
    pub ty: usize,
    pub term: usize,
}

// The rows of one's own are tested, and then the type t, these rows and the term e get canonical names.
fn conclude(
    base: &Base,
    work: &mut [u64],
    room: &mut Room,
    env: Env,
    binders: &mut [u64],
    sp: usize,
    n: usize,
    t: usize,
    e: usize,
) -> Result<Naming, Refusal>
    requires base_len_bound { length base.now.words.now ≤ 4 * room.old.top }
    requires ready_names { ReadyNames base.now.names.now (base.now.words.now ++ work.old) env.rows.now env.order.now binders.old room.old.top room.old.left sp n t }
    requires node { Node (base.now.words.now ++ work.old) room.old.top e }
    ensures { GivesConcluded base.now.names.now (base.now.words.now ++ work.old) (base.now.words.now ++ work.new) env.entry.rows.now env.entry.order.now
        binders.old room.old.top room.old.left sp n t e (named_of result room.new.top room.new.left) }
{
    clear::ambiguous(base, work, env, binders, room.top, n, t)?;
    naming::name_all(base, work, room, env, binders, sp, n, t, e)
}

// The same of the rows from number nd up to number n.
fn conclude_from(
    base: &Base,
    work: &mut [u64],
    room: &mut Room,
    env: Env,
    binders: &mut [u64],
    sp: usize,
    nd: usize,
    n: usize,
    t: usize,
    e: usize,
) -> Result<Naming, Refusal>
    requires nd_le_n { nd ≤ n }
    requires n_in_bounds { 3 * n ≤ length binders.old }
    requires base_len_bound { length base.now.words.now ≤ 4 * room.old.top }
    requires ready_from { ReadyFrom base.now.names.now (base.now.words.now ++ work.old) env.rows.now env.order.now binders.old room.old.top room.old.left sp nd n t }
    requires node { Node (base.now.words.now ++ work.old) room.old.top e }
    ensures { GivesFrom base.now.names.now (base.now.words.now ++ work.old) (base.now.words.now ++ work.new) env.entry.rows.now env.entry.order.now
        binders.old binders.new room.old.top room.old.left sp nd n t e (named_of result room.new.top room.new.left) }
{
    let from = 3 * nd;
    let k = n - nd;
    conclude(base, work, room, env, &mut binders[from..], sp, k, t, e)
}

// `generalize_binding` of the type t, the first n rows, all pending, and the term e. The deferred rows come to the front.
pub fn generalize(
    base: &Base,
    work: &mut [u64],
    room: &mut Room,
    rules: Rules,
    env: Env,
    binders: &mut [u64],
    sp: usize,
    n: usize,
    t: usize,
    e: usize,
) -> Result<General, Refusal>
    requires base_len_bound { length base.now.words.now ≤ 4 * room.old.top }
    requires ready_generalize { ReadyGeneralize base.now.names.now (base.now.words.now ++ work.old) rules.insts.now env.rows.now env.order.now binders.old room.old.top room.old.left sp n t e }
    ensures { GivesGeneralized base.now.names.now rules.entry.classes.now (base.now.words.now ++ work.old) (base.now.words.now ++ work.new)
        rules.entry.insts.now env.entry.rows.now env.entry.order.now binders.old binders.new room.old.top room.old.left sp n t e (generalized_of result room.new.top room.new.left) }
{
    let r = settle::settle(base, work, room, rules, env, binders, sp, n, t, e)?;
    let q = conclude_from(base, work, room, env, binders, sp, r.deferred, n, t, r.term)?;
    Ok(General {
        scheme: q.scheme,
        term: q.term,
        deferred: r.deferred,
    })
}

// Canonical names of the rows from number nd up to number n, the type t and the term e.
fn name_from(
    base: &Base,
    work: &mut [u64],
    room: &mut Room,
    env: Env,
    binders: &mut [u64],
    sp: usize,
    nd: usize,
    n: usize,
    t: usize,
    e: usize,
) -> Result<Naming, Refusal>
    requires nd_le_n { nd ≤ n }
    requires n_in_bounds { 3 * n ≤ length binders.old }
    requires base_len_bound { length base.now.words.now ≤ 4 * room.old.top }
    requires ready_from { ReadyFrom base.now.names.now (base.now.words.now ++ work.old) env.rows.now env.order.now binders.old room.old.top room.old.left sp nd n t }
    requires node { Node (base.now.words.now ++ work.old) room.old.top e }
    ensures { GivesNamesFrom base.now.names.now (base.now.words.now ++ work.old) (base.now.words.now ++ work.new) env.entry.rows.now env.entry.order.now
        binders.old room.old.top room.old.left sp nd n t e (named_of result room.new.top room.new.left) }
{
    let from = 3 * nd;
    let k = n - nd;
    naming::name_all(base, work, room, env, &mut binders[from..], sp, k, t, e)
}

// `finalize_expr` of the type t, the first n rows, all pending, and the term e: there is no environment.
pub fn finalize(
    base: &Base,
    work: &mut [u64],
    room: &mut Room,
    rules: Rules,
    binders: &mut [u64],
    sp: usize,
    n: usize,
    t: usize,
    e: usize,
) -> Result<Final, Refusal>
    requires base_len_bound { length base.now.words.now ≤ 4 * room.old.top }
    requires ready_generalize { ReadyGeneralize base.now.names.now (base.now.words.now ++ work.old) rules.insts.now [] [] binders.old room.old.top room.old.left sp n t e }
    ensures { GivesFinalized base.now.names.now rules.entry.classes.now (base.now.words.now ++ work.old) (base.now.words.now ++ work.new)
        rules.entry.insts.now binders.old binders.new room.old.top room.old.left sp n t e (finalized_of result room.new.top room.new.left) }
{
    let empty = Env {
        rows: &[],
        order: &[],
    };
    let r = settle::settle(base, work, room, rules, empty, binders, sp, n, t, e)?;
    let q = name_from(
        base, work, room, empty, binders, sp, r.deferred, n, t, r.term,
    )?;
    Ok(Final {
        preds: q.scheme.preds,
        ty: q.scheme.ty,
        term: q.term,
    })
}
