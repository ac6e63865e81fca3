// What `infer_let` of 000 does between its two inferences: `apply_env`, `apply_preds_pending` and `generalize_binding`.
#![tactic(auto)]

ghost use Rattle.std.specs.Prelude.{◌++◌, ◌*◌, ◌≤◌, length};
ghost use Rattle.inferred.specs.Parts.{let_general};
ghost use Rattle.inferred.specs.Closing.{answer_of};
ghost use Rattle.inferred.specs.Inferring.{state_of};
ghost use Rattle.binding.specs.Rest.{general_rest};
ghost use Rattle.binding.specs.General.{ReadyMid, AskedGeneral, GivesG};
ghost use Rattle.generalize.specs.Generalized.{generalized_of};

use ast::{Base, Room};
use errors::Refusal;
use generalize::General;
use inferred::Typed;
use pairs::Subst;
use resolve::Rules;
use scope::{Env, Fresh};

// The pairs of what is bound applied to its rows, and then its type, these rows and its term generalized: the environment was
// applied to before.
fn rest(
    base: &Base,
    work: &mut [u64],
    room: &mut Room,
    rules: Rules,
    env: Env,
    binders: &mut [u64],
    sp: usize,
    fresh: Fresh,
    bound: Typed,
) -> Result<General, Refusal>
    requires base_len_bound { length base.now.words.now ≤ 4 * room.old.top }
    requires ready_mid { ReadyMid base.now.names.now (base.now.words.now ++ work.old) env.rows.now env.order.now rules.insts.now binders.old room.old.top room.old.left sp fresh.tv fresh.dv bound.ty bound.term bound.pairs bound.rows }
    ensures { GivesG (AskedGeneral base.now.names.now rules.entry.classes.now (base.now.words.now ++ work.old) rules.entry.insts.now room.old.top (answer_of base.now.names.now (base.now.words.now ++ work.old) binders.old sp bound.ty bound.term bound.pairs bound.rows) (state_of base.now.names.now (base.now.words.now ++ work.old) env.entry.rows.now env.entry.order.now fresh.tv fresh.dv)) (λ ce. general_rest ce (answer_of base.now.names.now (base.now.words.now ++ work.old) binders.old sp bound.ty bound.term bound.pairs bound.rows) (state_of base.now.names.now (base.now.words.now ++ work.old) env.entry.rows.now env.entry.order.now fresh.tv fresh.dv) room.old.left) base.now.names.now (base.now.words.now ++ work.old) (base.now.words.now ++ work.new)
        env.entry.rows.now env.entry.order.now binders.old binders.new room.old.top room.old.left sp bound.pairs bound.rows fresh.tv fresh.dv (generalized_of result room.new.top room.new.left) }
{
    let k = bound.pairs;
    let at = sp - 2 * k;
    pending::apply_rows(base, work, room, binders, Subst { at, k }, bound.rows)?;
    generalize::generalize(
        base, work, room, rules, env, binders, at, bound.rows, bound.ty, bound.term,
    )
}

// What a let binds, generalized: its pairs end at sp.
pub fn general(
    base: &Base,
    work: &mut [u64],
    room: &mut Room,
    rules: Rules,
    order: &[u64],
    env: &mut [u64],
    binders: &mut [u64],
    sp: usize,
    fresh: Fresh,
    bound: Typed,
) -> Result<General, Refusal>
    requires base_len_bound { length base.now.words.now ≤ 4 * room.old.top }
    requires ready_mid { ReadyMid base.now.names.now (base.now.words.now ++ work.old) env.old order.now rules.insts.now binders.old room.old.top room.old.left sp fresh.tv fresh.dv bound.ty bound.term bound.pairs bound.rows }
    ensures { GivesG (AskedGeneral base.now.names.now rules.entry.classes.now (base.now.words.now ++ work.old) rules.entry.insts.now room.old.top (answer_of base.now.names.now (base.now.words.now ++ work.old) binders.old sp bound.ty bound.term bound.pairs bound.rows) (state_of base.now.names.now (base.now.words.now ++ work.old) env.old order.now fresh.tv fresh.dv)) (λ ce. let_general ce (answer_of base.now.names.now (base.now.words.now ++ work.old) binders.old sp bound.ty bound.term bound.pairs bound.rows) (state_of base.now.names.now (base.now.words.now ++ work.old) env.old order.now fresh.tv fresh.dv) room.old.left) base.now.names.now (base.now.words.now ++ work.old) (base.now.words.now ++ work.new)
        env.new order.now binders.old binders.new room.old.top room.old.left sp bound.pairs bound.rows fresh.tv fresh.dv (generalized_of result room.new.top room.new.left) }
{
    let k = bound.pairs;
    let at = sp - 2 * k;
    scope::apply_env(base, work, room, env, order, Subst { at, k })?;
    rest(
        base,
        work,
        room,
        rules,
        Env { rows: env, order },
        binders,
        sp,
        fresh,
        bound,
    )
}
