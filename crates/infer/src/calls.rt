// `infer_app` of 000.
ghost use Rattle.std.specs.Prelude.{◌++◌, ◌+◌, ◌*◌, ◌-◌, ◌≤◌, length};
ghost use Rattle.meaning.specs.Infer.{infer_in};
ghost use Rattle.names.specs.Names.{first_fresh, tyvar_of};
ghost use Rattle.pairs.specs.Pairs.{sub_at};
ghost use Rattle.inferred.specs.Parts.{app_arg};
ghost use Rattle.inferred.specs.Closing.{answer_of, answer_from};
ghost use Rattle.inferred.specs.Inferring.{state_of, ReadyI, GivesI};
ghost use Rattle.infer.specs.Runs.{Nothing, inferred_then, closed_app};
ghost use Rattle.infer.specs.Asking.{AskedTwo, AskedAfter, ReadyArg, ReadyAppEnd};
ghost use Rattle.inferred.specs.Inferred.{inferred_of};

use ast::{Base, Room};
use errors::Refusal;
use inferred::Typed;
use pairs::Subst;
use resolve::Rules;
use scope::{Env, Fresh};
use views::File;

// `infer_app`: the function first.
#[cycle(app_app_arg_abs_abs_rest_infer_let_body_let_rest_binding_let_mid_onward)]
pub fn app(
    base: &Base,
    work: &mut [u64],
    room: &mut Room,
    file: File,
    rules: Rules,
    methods: &[u64],
    order: &[u64],
    env: &mut [u64],
    binders: &mut [u64],
    depth: usize,
    sp: usize,
    fresh: Fresh,
    f: usize,
    x: usize,
) -> Result<Typed, Refusal>
    requires base_len_bound { length base.now.words.now ≤ 4 * room.old.top }
    requires ready_i { ReadyI 8 1 1 base.now.names.now (base.now.words.now ++ work.old) env.old order.now rules.insts.now binders.old room.old.top room.old.left sp fresh.tv fresh.dv }
    ensures { GivesI (AskedTwo file.entry.src.now base.now.names.now file.entry.index.now (base.now.words.now ++ work.old) rules.entry.classes.now methods.now rules.entry.insts.now env.old order.now room.old.top f x) (λ p. inferred_then (infer_in depth p.0 p.1) (λ r. app_arg (λ u. infer_in depth p.0 u) (tyvar_of base.now.names.now (first_fresh + fresh.tv)) r p.2) (state_of base.now.names.now (base.now.words.now ++ work.old) env.old order.now (fresh.tv + 1) fresh.dv) room.old.left) 8 1 1 base.now.names.now (base.now.words.now ++ work.old) (base.now.words.now ++ work.new)
        env.new order.now binders.old binders.new room.old.top room.old.left sp fresh.tv fresh.dv (inferred_of result room.new.top room.new.left) }
{
    let a = names::FRESH + fresh.tv;
    let next = Fresh {
        tv: fresh.tv + 1,
        dv: fresh.dv,
    };
    let function = crate::infer(
        base, work, room, file, rules, methods, order, env, binders, depth, sp, next, f,
    )?;
    let next = function.fresh;
    app_arg(
        base, work, room, file, rules, methods, order, env, binders, depth, sp, next, a, function,
        x,
    )
}

// The function's pairs are applied to the environment; then the argument, whose rows follow the function's.
#[cycle(app_app_arg_abs_abs_rest_infer_let_body_let_rest_binding_let_mid_onward)]
fn app_arg(
    base: &Base,
    work: &mut [u64],
    room: &mut Room,
    file: File,
    rules: Rules,
    methods: &[u64],
    order: &[u64],
    env: &mut [u64],
    binders: &mut [u64],
    depth: usize,
    sp: usize,
    fresh: Fresh,
    a: usize,
    function: Typed,
    x: usize,
) -> Result<Typed, Refusal>
    requires base_len_bound { length base.now.words.now ≤ 4 * room.old.top }
    requires ready_arg { ReadyArg base.now.names.now (base.now.words.now ++ work.old) env.old order.now rules.insts.now binders.old room.old.top room.old.left sp fresh.tv fresh.dv function.ty function.term function.pairs function.rows a }
    ensures { GivesI (AskedAfter file.entry.src.now base.now.names.now file.entry.index.now (base.now.words.now ++ work.old) rules.entry.classes.now methods.now rules.entry.insts.now env.old order.now room.old.top x (sub_at base.now.names.now (base.now.words.now ++ work.old) (sp - 2 * function.pairs) function.pairs)) (λ p. app_arg (λ u. infer_in depth p.0 u) (tyvar_of base.now.names.now a) (answer_of base.now.names.now (base.now.words.now ++ work.old) binders.old sp function.ty function.term function.pairs function.rows) p.1 (state_of base.now.names.now (base.now.words.now ++ work.old) env.old order.now fresh.tv fresh.dv) room.old.left) (2 * function.pairs + 8) 0 function.rows base.now.names.now (base.now.words.now ++ work.old) (base.now.words.now ++ work.new)
        env.new order.now binders.old binders.new room.old.top room.old.left sp fresh.tv fresh.dv (inferred_of result room.new.top room.new.left) }
{
    let k = function.pairs;
    let at = sp - 2 * k;
    scope::apply_env(base, work, room, env, order, Subst { at, k })?;
    let argument = crate::onward(
        base,
        work,
        room,
        file,
        rules,
        methods,
        order,
        env,
        binders,
        depth,
        at,
        fresh,
        function.rows,
        x,
    )?;
    let argument = Typed {
        rows: function.rows + argument.rows,
        ..argument
    };
    app_end(
        base,
        work,
        room,
        Env { rows: env, order },
        binders,
        sp,
        argument.fresh,
        a,
        function,
        argument,
    )
}

// The end of an application: the argument's rows are all that are pending.
fn app_end(
    base: &Base,
    work: &mut [u64],
    room: &mut Room,
    env: Env,
    binders: &mut [u64],
    sp: usize,
    fresh: Fresh,
    a: usize,
    function: Typed,
    argument: Typed,
) -> Result<Typed, Refusal>
    requires base_len_bound { length base.now.words.now ≤ 4 * room.old.top }
    requires ready_app_end { ReadyAppEnd base.now.names.now (base.now.words.now ++ work.old) env.rows.now env.order.now binders.old room.old.top room.old.left sp function.ty function.term function.pairs argument.ty argument.term argument.pairs function.rows argument.rows a }
    ensures { GivesI Nothing (λ _. closed_app (tyvar_of base.now.names.now a) (answer_of base.now.names.now (base.now.words.now ++ work.old) binders.old sp function.ty function.term function.pairs function.rows) (answer_from base.now.names.now (base.now.words.now ++ work.old) binders.old (sp - 2 * function.pairs) argument.ty argument.term argument.pairs function.rows argument.rows) (state_of base.now.names.now (base.now.words.now ++ work.old) env.entry.rows.now env.entry.order.now fresh.tv fresh.dv) room.old.left) (2 * function.pairs + 2 * argument.pairs + 8) 0 argument.rows base.now.names.now (base.now.words.now ++ work.old) (base.now.words.now ++ work.new)
        env.entry.rows.now env.entry.order.now binders.old binders.new room.old.top room.old.left sp fresh.tv fresh.dv (inferred_of result room.new.top room.new.left) }
{
    let c = inferred::app_close(base, work, room, binders, sp, a, function, argument)?;
    Ok(c.with_state(argument.rows, fresh))
}
