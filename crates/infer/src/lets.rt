// `infer_let` of 000 up to its body.
ghost use Rattle.std.specs.Prelude.{◌++◌, ◌+◌, ◌*◌, ◌≤◌, length};
ghost use Rattle.meaning.specs.Infer.{infer_in};
ghost use Rattle.names.specs.Names.{name_of};
ghost use Rattle.inferred.specs.Parts.{let_mid};
ghost use Rattle.inferred.specs.Closing.{answer_of};
ghost use Rattle.inferred.specs.Inferring.{state_of, ReadyI, GivesI};
ghost use Rattle.infer.specs.Runs.{inferred_then};
ghost use Rattle.binding.specs.General.{ReadyMid};
ghost use Rattle.infer.specs.Asking.{AskedLet, AskedMid};
ghost use Rattle.inferred.specs.Inferred.{inferred_of};

use ast::{Base, Room};
use errors::Refusal;
use inferred::Typed;
use resolve::Rules;
use scope::Fresh;
use views::File;

// `infer_let`: what is bound first.
#[cycle(app_app_arg_abs_abs_rest_infer_let_body_let_rest_binding_let_mid_onward)]
pub fn binding(
    base: &Base,
    work: &mut [u64],
    room: &mut Room,
    file: File,
    rules: Rules,
    methods: &[u64],
    order: &[u64],
    env: &mut [u64],
    binders: &mut [u64],
    depth: usize,
    sp: usize,
    fresh: Fresh,
    r: usize,
    b: usize,
    f: usize,
) -> Result<Typed, Refusal>
    requires base_len_bound { length base.now.words.now ≤ 4 * room.old.top }
    requires ready_i { ReadyI 8 0 1 base.now.names.now (base.now.words.now ++ work.old) env.old order.now rules.insts.now binders.old room.old.top room.old.left sp fresh.tv fresh.dv }
    ensures { GivesI (AskedLet file.entry.src.now base.now.names.now file.entry.index.now (base.now.words.now ++ work.old) rules.entry.classes.now methods.now rules.entry.insts.now env.old order.now room.old.top r b f) (λ p. inferred_then (infer_in depth p.0 p.1) (λ r₁. let_mid p.0 (λ u. infer_in depth p.0 u) (name_of base.now.names.now r) r₁ p.2) (state_of base.now.names.now (base.now.words.now ++ work.old) env.old order.now fresh.tv fresh.dv) room.old.left) 8 0 1 base.now.names.now (base.now.words.now ++ work.old) (base.now.words.now ++ work.new)
        env.new order.now binders.old binders.new room.old.top room.old.left sp fresh.tv fresh.dv (inferred_of result room.new.top room.new.left) }
{
    let bound = crate::infer(
        base, work, room, file, rules, methods, order, env, binders, depth, sp, fresh, b,
    )?;
    let next = bound.fresh;
    let_mid(
        base, work, room, file, rules, methods, order, env, binders, depth, sp, next, r, bound, f,
    )
}

// What is bound is generalized; then the body.
#[cycle(app_app_arg_abs_abs_rest_infer_let_body_let_rest_binding_let_mid_onward)]
fn let_mid(
    base: &Base,
    work: &mut [u64],
    room: &mut Room,
    file: File,
    rules: Rules,
    methods: &[u64],
    order: &[u64],
    env: &mut [u64],
    binders: &mut [u64],
    depth: usize,
    sp: usize,
    fresh: Fresh,
    r: usize,
    bound: Typed,
    f: usize,
) -> Result<Typed, Refusal>
    requires base_len_bound { length base.now.words.now ≤ 4 * room.old.top }
    requires ready_mid { ReadyMid base.now.names.now (base.now.words.now ++ work.old) env.old order.now rules.insts.now binders.old room.old.top room.old.left sp fresh.tv fresh.dv bound.ty bound.term bound.pairs bound.rows }
    ensures { GivesI (AskedMid file.entry.src.now base.now.names.now file.entry.index.now (base.now.words.now ++ work.old) rules.entry.classes.now methods.now rules.entry.insts.now env.old order.now room.old.top r f (answer_of base.now.names.now (base.now.words.now ++ work.old) binders.old sp bound.ty bound.term bound.pairs bound.rows) (state_of base.now.names.now (base.now.words.now ++ work.old) env.old order.now fresh.tv fresh.dv)) (λ p. let_mid p.0 (λ u. infer_in depth p.0 u) (name_of base.now.names.now r) (answer_of base.now.names.now (base.now.words.now ++ work.old) binders.old sp bound.ty bound.term bound.pairs bound.rows) p.1 (state_of base.now.names.now (base.now.words.now ++ work.old) env.old order.now fresh.tv fresh.dv) room.old.left) (2 * bound.pairs + 8) 0 bound.rows base.now.names.now (base.now.words.now ++ work.old) (base.now.words.now ++ work.new)
        env.new order.now binders.old binders.new room.old.top room.old.left sp fresh.tv fresh.dv (inferred_of result room.new.top room.new.left) }
{
    let g = binding::general(
        base, work, room, rules, order, env, binders, sp, fresh, bound,
    )?;
    crate::inside::let_body(
        base,
        work,
        room,
        file,
        rules,
        methods,
        order,
        env,
        binders,
        depth,
        sp,
        fresh,
        r,
        g,
        bound.pairs,
        f,
    )
}
