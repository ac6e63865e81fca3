// `infer_expr` of 000: a dispatcher over the kinds of expressions; each kind is a module.
#![tactic(auto)]

mod calls;
mod functions;
mod inside;
mod leaves;
mod lets;

ghost use Rattle.std.specs.Prelude.{◌++◌, ◌*◌, ◌≤◌, length, drop};
ghost use Rattle.meaning.specs.Infer.{infer_in};
ghost use Rattle.inferred.specs.Inferring.{state_of, ReadyI, GivesI};
ghost use Rattle.infer.specs.Asking.{Asked, GivesO};
ghost use Rattle.inferred.specs.Inferred.{inferred_of};

use ast::{Base, Room};
use errors::Refusal;
use exprs::Node;
use inferred::Typed;
use resolve::Rules;
use scope::{Env, Fresh};
use views::File;

// `infer_expr` with so much depth left: expression i of the file.
#[cycle(app_app_arg_abs_abs_rest_infer_let_body_let_rest_binding_let_mid_onward)]
pub fn infer(
    base: &Base,
    work: &mut [u64],
    room: &mut Room,
    file: File,
    rules: Rules,
    methods: &[u64],
    order: &[u64],
    env: &mut [u64],
    binders: &mut [u64],
    depth: usize,
    sp: usize,
    fresh: Fresh,
    i: usize,
) -> Result<Typed, Refusal>
    requires base_len_bound { length base.now.words.now ≤ 4 * room.old.top }
    requires ready_i { ReadyI 0 0 0 base.now.names.now (base.now.words.now ++ work.old) env.old order.now rules.insts.now binders.old room.old.top room.old.left sp fresh.tv fresh.dv }
    ensures { GivesI (Asked file.entry.src.now base.now.names.now file.entry.index.now (base.now.words.now ++ work.old) rules.entry.classes.now methods.now rules.entry.insts.now env.old order.now room.old.top i) (λ p. infer_in depth p.0 p.1 (state_of base.now.names.now (base.now.words.now ++ work.old) env.old order.now fresh.tv fresh.dv) room.old.left) 0 0 0 base.now.names.now (base.now.words.now ++ work.old) (base.now.words.now ++ work.new)
        env.new order.now binders.old binders.new room.old.top room.old.left sp fresh.tv fresh.dv (inferred_of result room.new.top room.new.left) }
{
    if depth == 0 {
        return Err(Refusal::Depth);
    }
    if room.left == 0 {
        return Err(Refusal::Steps);
    }
    let Some(x) = exprs::expr_at(file, i) else {
        return Err(Refusal::Depth);
    };
    let d = depth - 1;
    room.left -= 1;
    match x {
        Node::Var(r) => leaves::name(
            base,
            work,
            room,
            rules,
            methods,
            Env { rows: env, order },
            binders,
            sp,
            fresh,
            r,
        ),
        Node::Int(v) => Ok(leaves::number(
            base,
            work,
            room,
            rules.insts,
            Env { rows: env, order },
            binders,
            sp,
            fresh,
            v,
        )),
        Node::Bool(b) => Ok(leaves::truth(
            base,
            work,
            *room,
            rules.insts,
            Env { rows: env, order },
            binders,
            sp,
            fresh,
            b,
        )),
        Node::Abs(r, b) => functions::abs(
            base, work, room, file, rules, methods, order, env, binders, d, sp, fresh, r, b,
        ),
        Node::App(f, a) => calls::app(
            base, work, room, file, rules, methods, order, env, binders, d, sp, fresh, f, a,
        ),
        Node::Let(r, a, b) => lets::binding(
            base, work, room, file, rules, methods, order, env, binders, d, sp, fresh, r, a, b,
        ),
    }
}

// Expression i, with its rows from number m on.
#[cycle(app_app_arg_abs_abs_rest_infer_let_body_let_rest_binding_let_mid_onward)]
pub fn onward(
    base: &Base,
    work: &mut [u64],
    room: &mut Room,
    file: File,
    rules: Rules,
    methods: &[u64],
    order: &[u64],
    env: &mut [u64],
    binders: &mut [u64],
    depth: usize,
    sp: usize,
    fresh: Fresh,
    m: usize,
    i: usize,
) -> Result<Typed, Refusal>
    requires base_len_bound { length base.now.words.now ≤ 4 * room.old.top }
    requires m_in_bounds { 3 * m ≤ length binders.old }
    requires ready_i { ReadyI 0 0 0 base.now.names.now (base.now.words.now ++ work.old) env.old order.now rules.insts.now (drop (3 * m) binders.old) room.old.top room.old.left sp fresh.tv fresh.dv }
    ensures { GivesO (Asked file.entry.src.now base.now.names.now file.entry.index.now (base.now.words.now ++ work.old) rules.entry.classes.now methods.now rules.entry.insts.now env.old order.now room.old.top i) (λ p. infer_in depth p.0 p.1 (state_of base.now.names.now (base.now.words.now ++ work.old) env.old order.now fresh.tv fresh.dv) room.old.left) base.now.names.now (base.now.words.now ++ work.old) (base.now.words.now ++ work.new)
        env.new order.now binders.old binders.new room.old.top room.old.left sp fresh.tv fresh.dv m (inferred_of result room.new.top room.new.left) }
{
    let from = 3 * m;
    infer(
        base,
        work,
        room,
        file,
        rules,
        methods,
        order,
        env,
        &mut binders[from..],
        depth,
        sp,
        fresh,
        i,
    )
}
