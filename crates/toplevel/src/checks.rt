// `check_expr` of 000: an expression is inferred, and its type, predicates and term get their last form.
ghost use Rattle.std.specs.Prelude.{◌++◌, ◌*◌, ◌≤◌, length};
ghost use Rattle.meaning.specs.Declare.{check_expr};
ghost use Rattle.inferred.specs.Closing.{answer_of};
ghost use Rattle.inferred.specs.Inferring.{state_of, ReadyI};
ghost use Rattle.binding.specs.General.{AskedGeneral};
ghost use Rattle.infer.specs.Asking.{Asked};
ghost use Rattle.toplevel.specs.Parts.{check_end, check_rows, check_after};
ghost use Rattle.toplevel.specs.Tops.{ReadyRest, GivesK};
ghost use Rattle.toplevel.specs.Checked.{checked_of};

use ast::{Base, Room};
use errors::{DEPTH, Refusal};
use inferred::Typed;
use pairs::Subst;
use resolve::Rules;
use scope::{Env, Fresh};
use views::File;

// What is said of an expression: its predicates, its type and its term; and the next variable's and dictionary's number.
#[derive(Clone, Copy)]
pub struct Answer {
    pub preds: usize,
    pub ty: usize,
    pub term: usize,
    pub fresh: Fresh,
}

// Type, rows and term get their last form.
fn check_end(
    base: &Base,
    work: &mut [u64],
    room: &mut Room,
    rules: Rules,
    env: Env,
    binders: &mut [u64],
    sp: usize,
    fresh: Fresh,
    of: Typed,
) -> Result<Answer, Refusal>
    requires base_len_bound { length base.now.words.now ≤ 4 * room.old.top }
    requires ready_rest { ReadyRest base.now.names.now (base.now.words.now ++ work.old) env.rows.now env.order.now rules.insts.now binders.old room.old.top room.old.left sp fresh.tv fresh.dv of.ty of.term of.pairs of.rows }
    ensures { GivesK (AskedGeneral base.now.names.now rules.entry.classes.now (base.now.words.now ++ work.old) rules.entry.insts.now room.old.top (answer_of base.now.names.now (base.now.words.now ++ work.old) binders.old sp of.ty of.term of.pairs of.rows) (state_of base.now.names.now (base.now.words.now ++ work.old) env.entry.rows.now env.entry.order.now fresh.tv fresh.dv)) (λ ce. check_end ce (answer_of base.now.names.now (base.now.words.now ++ work.old) binders.old sp of.ty of.term of.pairs of.rows) (state_of base.now.names.now (base.now.words.now ++ work.old) env.entry.rows.now env.entry.order.now fresh.tv fresh.dv) room.old.left) base.now.names.now (base.now.words.now ++ work.old) (base.now.words.now ++ work.new)
        env.entry.rows.now env.entry.order.now binders.old binders.new room.old.top room.old.left sp fresh.tv fresh.dv (checked_of result room.new.top room.new.left) }
{
    let at = sp - 2 * of.pairs;
    let f = generalize::finalize(
        base, work, room, rules, binders, at, of.rows, of.ty, of.term,
    )?;
    Ok(Answer {
        preds: f.preds,
        ty: f.ty,
        term: f.term,
        fresh,
    })
}

// The pairs, which end at sp, are applied to the types of the rows.
fn check_rows(
    base: &Base,
    work: &mut [u64],
    room: &mut Room,
    rules: Rules,
    env: Env,
    binders: &mut [u64],
    sp: usize,
    fresh: Fresh,
    of: Typed,
) -> Result<Answer, Refusal>
    requires base_len_bound { length base.now.words.now ≤ 4 * room.old.top }
    requires ready_rest { ReadyRest base.now.names.now (base.now.words.now ++ work.old) env.rows.now env.order.now rules.insts.now binders.old room.old.top room.old.left sp fresh.tv fresh.dv of.ty of.term of.pairs of.rows }
    ensures { GivesK (AskedGeneral base.now.names.now rules.entry.classes.now (base.now.words.now ++ work.old) rules.entry.insts.now room.old.top (answer_of base.now.names.now (base.now.words.now ++ work.old) binders.old sp of.ty of.term of.pairs of.rows) (state_of base.now.names.now (base.now.words.now ++ work.old) env.entry.rows.now env.entry.order.now fresh.tv fresh.dv)) (λ ce. check_rows ce (answer_of base.now.names.now (base.now.words.now ++ work.old) binders.old sp of.ty of.term of.pairs of.rows) (state_of base.now.names.now (base.now.words.now ++ work.old) env.entry.rows.now env.entry.order.now fresh.tv fresh.dv) room.old.left) base.now.names.now (base.now.words.now ++ work.old) (base.now.words.now ++ work.new)
        env.entry.rows.now env.entry.order.now binders.old binders.new room.old.top room.old.left sp fresh.tv fresh.dv (checked_of result room.new.top room.new.left) }
{
    let k = of.pairs;
    let at = sp - 2 * k;
    pending::apply_rows(base, work, room, binders, Subst { at, k }, of.rows)?;
    check_end(base, work, room, rules, env, binders, sp, fresh, of)
}

// And before that to the type.
fn check_after(
    base: &Base,
    work: &mut [u64],
    room: &mut Room,
    rules: Rules,
    env: Env,
    binders: &mut [u64],
    sp: usize,
    fresh: Fresh,
    of: Typed,
) -> Result<Answer, Refusal>
    requires base_len_bound { length base.now.words.now ≤ 4 * room.old.top }
    requires ready_rest { ReadyRest base.now.names.now (base.now.words.now ++ work.old) env.rows.now env.order.now rules.insts.now binders.old room.old.top room.old.left sp fresh.tv fresh.dv of.ty of.term of.pairs of.rows }
    ensures { GivesK (AskedGeneral base.now.names.now rules.entry.classes.now (base.now.words.now ++ work.old) rules.entry.insts.now room.old.top (answer_of base.now.names.now (base.now.words.now ++ work.old) binders.old sp of.ty of.term of.pairs of.rows) (state_of base.now.names.now (base.now.words.now ++ work.old) env.entry.rows.now env.entry.order.now fresh.tv fresh.dv)) (λ ce. check_after ce (answer_of base.now.names.now (base.now.words.now ++ work.old) binders.old sp of.ty of.term of.pairs of.rows) (state_of base.now.names.now (base.now.words.now ++ work.old) env.entry.rows.now env.entry.order.now fresh.tv fresh.dv) room.old.left) base.now.names.now (base.now.words.now ++ work.old) (base.now.words.now ++ work.new)
        env.entry.rows.now env.entry.order.now binders.old binders.new room.old.top room.old.left sp fresh.tv fresh.dv (checked_of result room.new.top room.new.left) }
{
    let k = of.pairs;
    let at = sp - 2 * k;
    let ty = apply::apply(base, work, room, DEPTH, Subst { at, k }, of.ty)?;
    check_rows(
        base,
        work,
        room,
        rules,
        env,
        binders,
        sp,
        fresh,
        Typed { ty, ..of },
    )
}

// `check_expr`: the qualified type of expression i, and its term.
pub fn check(
    base: &Base,
    work: &mut [u64],
    room: &mut Room,
    file: File,
    rules: Rules,
    methods: &[u64],
    order: &[u64],
    env: &mut [u64],
    binders: &mut [u64],
    sp: usize,
    fresh: Fresh,
    i: usize,
) -> Result<Answer, Refusal>
    requires base_len_bound { length base.now.words.now ≤ 4 * room.old.top }
    requires ready_i { ReadyI 0 0 0 base.now.names.now (base.now.words.now ++ work.old) env.old order.now rules.insts.now binders.old room.old.top room.old.left sp fresh.tv fresh.dv }
    ensures { GivesK (Asked file.entry.src.now base.now.names.now file.entry.index.now (base.now.words.now ++ work.old) rules.entry.classes.now methods.now rules.entry.insts.now env.old order.now room.old.top i) (λ p. check_expr p.0 p.1 (state_of base.now.names.now (base.now.words.now ++ work.old) env.old order.now fresh.tv fresh.dv) room.old.left) base.now.names.now (base.now.words.now ++ work.old) (base.now.words.now ++ work.new)
        env.new order.now binders.old binders.new room.old.top room.old.left sp fresh.tv fresh.dv (checked_of result room.new.top room.new.left) }
{
    let of = infer::infer(
        base, work, room, file, rules, methods, order, env, binders, DEPTH, sp, fresh, i,
    )?;
    check_after(
        base,
        work,
        room,
        rules,
        Env { rows: env, order },
        binders,
        sp,
        of.fresh,
        of,
    )
}
