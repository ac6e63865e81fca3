// Names and literals: expressions without parts.
ghost use Rattle.std.specs.Prelude.{[], ◌++◌, ◌*◌, ◌≤◌, length, Ok};
ghost use Rattle.meaning.specs.Ast.{int, bool, cint, cbool};
ghost use Rattle.meaning.specs.Subst.{empty};
ghost use Rattle.meaning.specs.Infer.{infer_var};
ghost use Rattle.names.specs.Names.{name_of};
ghost use Rattle.inferred.specs.Inferring.{state_of, ReadyI, GivesI};
ghost use Rattle.infer.specs.Runs.{Nothing, literal};
ghost use Rattle.infer.specs.Asking.{AskedName};
ghost use Rattle.inferred.specs.Inferred.{inferred_of};

use ast::{Base, Room};
use errors::Refusal;
use inferred::Typed;
use resolve::Rules;
use scope::{Env, Fresh};

// `infer_var`: a name that is none of the table is in no file.
pub fn name(
    base: &Base,
    work: &mut [u64],
    room: &mut Room,
    rules: Rules,
    methods: &[u64],
    env: Env,
    binders: &mut [u64],
    sp: usize,
    fresh: Fresh,
    x: usize,
) -> Result<Typed, Refusal>
    requires base_len_bound { length base.now.words.now ≤ 4 * room.old.top }
    requires ready_i { ReadyI 0 0 0 base.now.names.now (base.now.words.now ++ work.old) env.rows.now env.order.now rules.insts.now binders.old room.old.top room.old.left sp fresh.tv fresh.dv }
    ensures { GivesI (AskedName base.now.names.now (base.now.words.now ++ work.old) rules.entry.classes.now methods.now rules.entry.insts.now room.old.top x) (λ ce. infer_var ce (name_of base.now.names.now x) (state_of base.now.names.now (base.now.words.now ++ work.old) env.entry.rows.now env.entry.order.now fresh.tv fresh.dv) room.old.left) 0 0 0 base.now.names.now (base.now.words.now ++ work.old) (base.now.words.now ++ work.new)
        env.entry.rows.now env.entry.order.now binders.old binders.new room.old.top room.old.left sp fresh.tv fresh.dv (inferred_of result room.new.top room.new.left) }
{
    if x >= env.order.len() {
        return Err(Refusal::Depth);
    }
    let u = instantiate::infer_var(base, work, room, methods, env, binders, sp, fresh, x)?;
    Ok(Typed {
        ty: u.ty,
        term: u.term,
        pairs: 0,
        rows: u.rows,
        fresh: u.fresh,
    })
}

// A literal: its type, and its term.
pub fn number(
    base: &Base,
    work: &mut [u64],
    room: &mut Room,
    insts: &[u64],
    env: Env,
    binders: &[u64],
    sp: usize,
    fresh: Fresh,
    v: usize,
) -> Typed
    requires base_len_bound { length base.now.words.now ≤ 4 * room.old.top }
    requires ready_i { ReadyI 8 0 0 base.now.names.now (base.now.words.now ++ work.old) env.rows.now env.order.now insts.now binders.now room.old.top room.old.left sp fresh.tv fresh.dv }
    ensures { GivesI Nothing (λ _. literal (empty, int, [], cint v) (state_of base.now.names.now (base.now.words.now ++ work.old) env.entry.rows.now env.entry.order.now fresh.tv fresh.dv) room.old.left) 8 0 0 base.now.names.now (base.now.words.now ++ work.old) (base.now.words.now ++ work.new)
        env.entry.rows.now env.entry.order.now binders.now binders.now room.old.top room.old.left sp fresh.tv fresh.dv (inferred_of (Ok result) room.new.top room.new.left) }
{
    inferred::int_literal(base, work, room, binders, sp, v).with_state(0, fresh)
}

// A literal: its type, and its term.
pub fn truth(
    base: &Base,
    work: &[u64],
    room: Room,
    insts: &[u64],
    env: Env,
    binders: &[u64],
    sp: usize,
    fresh: Fresh,
    b: bool,
) -> Typed
    requires base_len_bound { length base.now.words.now ≤ 4 * room.top }
    requires ready_i { ReadyI 8 0 0 base.now.names.now (base.now.words.now ++ work.now) env.rows.now env.order.now insts.now binders.now room.top room.left sp fresh.tv fresh.dv }
    ensures { GivesI Nothing (λ _. literal (empty, bool, [], cbool b) (state_of base.now.names.now (base.now.words.now ++ work.now) env.entry.rows.now env.entry.order.now fresh.tv fresh.dv) room.left) 8 0 0 base.now.names.now (base.now.words.now ++ work.now) (base.now.words.now ++ work.now)
        env.entry.rows.now env.entry.order.now binders.now binders.now room.top room.left sp fresh.tv fresh.dv (inferred_of (Ok result) room.top room.left) }
{
    inferred::bool_literal(base, work, room, binders, sp, b).with_state(0, fresh)
}
