// `infer_abs` of 000.
ghost use Rattle.std.specs.Prelude.{◌++◌, ◌+◌, ◌*◌, ◌<◌, ◌≤◌, length};
ghost use Rattle.meaning.specs.Infer.{infer_in};
ghost use Rattle.names.specs.Names.{first_fresh, first_nullary, name_of, tyvar_of};
ghost use Rattle.scope.specs.Scope.{scheme_in};
ghost use Rattle.inferred.specs.Parts.{abs_body, abs_rest};
ghost use Rattle.inferred.specs.Closing.{answer_of};
ghost use Rattle.inferred.specs.Inferring.{state_of, ReadyI, GivesI};
ghost use Rattle.infer.specs.Runs.{Nothing, restored_abs};
ghost use Rattle.infer.specs.Asking.{Asked, AskedNamed, Hidden, ReadyAbsEnd};
ghost use Rattle.inferred.specs.Inferred.{inferred_of};

use ast::{Base, Room};
use errors::Refusal;
use inferred::Typed;
use resolve::Rules;
use scope::{Entry, Fresh};
use subst::Scheme;
use views::File;

// `infer_abs`: the parameter has a row of its own while the body is inferred.
#[cycle(app_app_arg_abs_abs_rest_infer_let_body_let_rest_binding_let_mid_onward)]
pub fn abs(
    base: &Base,
    work: &mut [u64],
    room: &mut Room,
    file: File,
    rules: Rules,
    methods: &[u64],
    order: &[u64],
    env: &mut [u64],
    binders: &mut [u64],
    depth: usize,
    sp: usize,
    fresh: Fresh,
    r: usize,
    b: usize,
) -> Result<Typed, Refusal>
    requires base_len_bound { length base.now.words.now ≤ 4 * room.old.top }
    requires ready_i { ReadyI 8 1 1 base.now.names.now (base.now.words.now ++ work.old) env.old order.now rules.insts.now binders.old room.old.top room.old.left sp fresh.tv fresh.dv }
    ensures { GivesI (AskedNamed file.entry.src.now base.now.names.now file.entry.index.now (base.now.words.now ++ work.old) rules.entry.classes.now methods.now rules.entry.insts.now env.old order.now room.old.top r b) (λ p. abs_body (λ u. infer_in depth p.0 u) (name_of base.now.names.now r) (tyvar_of base.now.names.now (first_fresh + fresh.tv)) p.1 (state_of base.now.names.now (base.now.words.now ++ work.old) env.old order.now (fresh.tv + 1) fresh.dv) room.old.left) 8 1 1 base.now.names.now (base.now.words.now ++ work.old) (base.now.words.now ++ work.new)
        env.new order.now binders.old binders.new room.old.top room.old.left sp fresh.tv fresh.dv (inferred_of result room.new.top room.new.left) }
{
    if r >= order.len() {
        return Err(Refusal::Depth);
    }
    let a = names::FRESH + fresh.tv;
    let next = Fresh {
        tv: fresh.tv + 1,
        dv: fresh.dv,
    };
    let old = scope::row_at(env, r);
    let plain = Scheme {
        vars: ast::NIL,
        preds: ast::NIL,
        ty: a,
    };
    scope::put(env, r, Entry::Local(plain));
    abs_rest(
        base, work, room, file, rules, methods, order, env, binders, depth, sp, next, a, r, old, b,
    )
}

// The body, and then the row as it was.
#[cycle(app_app_arg_abs_abs_rest_infer_let_body_let_rest_binding_let_mid_onward)]
fn abs_rest(
    base: &Base,
    work: &mut [u64],
    room: &mut Room,
    file: File,
    rules: Rules,
    methods: &[u64],
    order: &[u64],
    env: &mut [u64],
    binders: &mut [u64],
    depth: usize,
    sp: usize,
    fresh: Fresh,
    a: usize,
    r: usize,
    old: Entry,
    b: usize,
) -> Result<Typed, Refusal>
    requires base_len_bound { length base.now.words.now ≤ 4 * room.old.top }
    requires ready_i { ReadyI 8 0 1 base.now.names.now (base.now.words.now ++ work.old) env.old order.now rules.insts.now binders.old room.old.top room.old.left sp fresh.tv fresh.dv }
    requires hidden { Hidden base.now.names.now (base.now.words.now ++ work.old) order.now room.old.top r old }
    requires a_lt_first_nullary { a < first_nullary }
    ensures { GivesI (Asked file.entry.src.now base.now.names.now file.entry.index.now (base.now.words.now ++ work.old) rules.entry.classes.now methods.now rules.entry.insts.now env.old order.now room.old.top b) (λ p. abs_rest (λ u. infer_in depth p.0 u) (name_of base.now.names.now r) (tyvar_of base.now.names.now a) (scheme_in base.now.names.now (base.now.words.now ++ work.old) old) p.1 (state_of base.now.names.now (base.now.words.now ++ work.old) env.old order.now fresh.tv fresh.dv) room.old.left) 8 0 1 base.now.names.now (base.now.words.now ++ work.old) (base.now.words.now ++ work.new)
        env.new order.now binders.old binders.new room.old.top room.old.left sp fresh.tv fresh.dv (inferred_of result room.new.top room.new.left) }
{
    let body = crate::infer(
        base, work, room, file, rules, methods, order, env, binders, depth, sp, fresh, b,
    )?;
    abs_end(
        base, work, room, order, env, binders, sp, body.fresh, a, r, old, body,
    )
}

// The end of an abstraction: the hidden row is put back, and nothing was applied to it.
fn abs_end(
    base: &Base,
    work: &mut [u64],
    room: &mut Room,
    order: &[u64],
    env: &mut [u64],
    binders: &[u64],
    sp: usize,
    fresh: Fresh,
    a: usize,
    r: usize,
    old: Entry,
    body: Typed,
) -> Result<Typed, Refusal>
    requires base_len_bound { length base.now.words.now ≤ 4 * room.old.top }
    requires ready_abs_end { ReadyAbsEnd base.now.names.now (base.now.words.now ++ work.old) env.old order.now binders.now room.old.top room.old.left sp body.ty body.term body.pairs body.rows a r old }
    ensures { GivesI Nothing (λ _. restored_abs (name_of base.now.names.now r) (tyvar_of base.now.names.now a) (scheme_in base.now.names.now (base.now.words.now ++ work.old) old) (answer_of base.now.names.now (base.now.words.now ++ work.old) binders.now sp body.ty body.term body.pairs body.rows) (state_of base.now.names.now (base.now.words.now ++ work.old) env.old order.now fresh.tv fresh.dv) room.old.left) (2 * body.pairs + 8) 0 body.rows base.now.names.now (base.now.words.now ++ work.old) (base.now.words.now ++ work.new)
        env.new order.now binders.now binders.now room.old.top room.old.left sp fresh.tv fresh.dv (inferred_of result room.new.top room.new.left) }
{
    scope::put(env, r, old);
    let c = inferred::abs_close(base, work, room, binders, sp, a, r, body)?;
    Ok(c.with_state(body.rows, fresh))
}
