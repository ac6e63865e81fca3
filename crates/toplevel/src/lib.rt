// `process_let_decl` of 000: an expression is inferred, generalized, and its scheme gets the row of a name.
#![tactic(auto)]

pub mod checks;

ghost use Rattle.std.specs.Prelude.{◌++◌, ◌*◌, ◌<◌, ◌≤◌, length, Ok};
ghost use Rattle.meaning.specs.Declare.{process_let_decl};
ghost use Rattle.names.specs.Names.{name_of};
ghost use Rattle.supers.specs.Rows.{binders_in};
ghost use Rattle.subst.specs.Schemes.{scheme_of_word};
ghost use Rattle.inferred.specs.Closing.{answer_of};
ghost use Rattle.inferred.specs.Inferring.{state_of, ReadyI};
ghost use Rattle.binding.specs.General.{AskedGeneral};
ghost use Rattle.infer.specs.Asking.{Asked};
ghost use Rattle.toplevel.specs.Parts.{let_put, let_end, let_general, let_typed, let_after};
ghost use Rattle.toplevel.specs.Tops.{Nothing, ReadyRest, ReadyPut, ReadyEnd, EndsB, GivesB};
ghost use Rattle.toplevel.specs.Bound.{bound_of};

use ast::{Base, Room};
use errors::{DEPTH, Refusal};
use inferred::Typed;
use pairs::Subst;
use resolve::Rules;
use scope::{Entry, Env, Fresh};
use subst::Scheme;
use supers::rows::Row;
use views::File;

// What a let comes to: its scheme, and the next variable's and the next dictionary's number.
#[derive(Clone, Copy)]
pub struct Let {
    pub scheme: Scheme,
    pub fresh: Fresh,
}

// The scheme gets the row of name x, which says whether it is closed.
fn let_put(
    base: &Base,
    work: &[u64],
    room: Room,
    order: &[u64],
    env: &mut [u64],
    fresh: Fresh,
    x: usize,
    scheme: Scheme,
)
    requires { ReadyPut base.now.names.now (base.now.words.now ++ work.now) env.old order.now room.top x scheme.vars scheme.preds scheme.ty }
    ensures { EndsB Nothing (λ _. let_put (name_of base.now.names.now x) (scheme_of_word base.now.names.now (base.now.words.now ++ work.now) scheme.vars scheme.preds scheme.ty) (state_of base.now.names.now (base.now.words.now ++ work.now) env.old order.now fresh.tv fresh.dv) room.left) base.now.names.now (base.now.words.now ++ work.now) env.new order.now room.top room.left fresh.tv fresh.dv (bound_of (Ok (record { scheme = scheme; fresh = fresh })) room.top room.left) }
{
    let c = subst::is_closed(base, work, room.top, scheme);
    if c {
        scope::put(env, x, Entry::Closed(scheme));
    } else {
        scope::put(env, x, Entry::Local(scheme));
    }
}

// The same where none of nd rows is deferred; the first one that is has no instance.
fn let_end(
    base: &Base,
    work: &[u64],
    room: Room,
    order: &[u64],
    env: &mut [u64],
    binders: &[u64],
    fresh: Fresh,
    x: usize,
    scheme: Scheme,
    nd: usize,
) -> Result<Let, Refusal>
    requires { ReadyEnd base.now.names.now (base.now.words.now ++ work.now) env.old order.now binders.now room.top x scheme.vars scheme.preds scheme.ty nd }
    ensures { EndsB Nothing (λ _. let_end (name_of base.now.names.now x) (scheme_of_word base.now.names.now (base.now.words.now ++ work.now) scheme.vars scheme.preds scheme.ty) (binders_in base.now.names.now (base.now.words.now ++ work.now) binders.now 0 nd) (state_of base.now.names.now (base.now.words.now ++ work.now) env.old order.now fresh.tv fresh.dv) room.left) base.now.names.now (base.now.words.now ++ work.now) env.new order.now room.top room.left fresh.tv fresh.dv (bound_of result room.top room.left) }
{
    if nd == 0 {
        let_put(base, work, room, order, env, fresh, x, scheme);
        return Ok(Let { scheme, fresh });
    }
    let q = supers::rows::row_at(binders, 0);
    match q {
        Row::Pending(_, c, u) => Err(Refusal::NoInstance(c, u)),
        Row::Replaced(_, _) => Err(Refusal::Depth),
    }
}

// Type, rows and term are generalized.
fn let_general(
    base: &Base,
    work: &mut [u64],
    room: &mut Room,
    rules: Rules,
    order: &[u64],
    env: &mut [u64],
    binders: &mut [u64],
    sp: usize,
    fresh: Fresh,
    x: usize,
    bound: Typed,
) -> Result<Let, Refusal>
    requires base_len_bound { length base.now.words.now ≤ 4 * room.old.top }
    requires ready_rest { ReadyRest base.now.names.now (base.now.words.now ++ work.old) env.old order.now rules.insts.now binders.old room.old.top room.old.left sp fresh.tv fresh.dv bound.ty bound.term bound.pairs bound.rows }
    requires x_in_bounds { x < length order.now }
    ensures { GivesB (AskedGeneral base.now.names.now rules.entry.classes.now (base.now.words.now ++ work.old) rules.entry.insts.now room.old.top (answer_of base.now.names.now (base.now.words.now ++ work.old) binders.old sp bound.ty bound.term bound.pairs bound.rows) (state_of base.now.names.now (base.now.words.now ++ work.old) env.old order.now fresh.tv fresh.dv)) (λ ce. let_general ce (name_of base.now.names.now x) (answer_of base.now.names.now (base.now.words.now ++ work.old) binders.old sp bound.ty bound.term bound.pairs bound.rows) (state_of base.now.names.now (base.now.words.now ++ work.old) env.old order.now fresh.tv fresh.dv) room.old.left) base.now.names.now (base.now.words.now ++ work.old) (base.now.words.now ++ work.new)
        env.new order.now binders.old binders.new room.old.top room.old.left sp fresh.tv fresh.dv (bound_of result room.new.top room.new.left) }
{
    let at = sp - 2 * bound.pairs;
    let g = generalize::generalize(
        base,
        work,
        room,
        rules,
        Env { rows: env, order },
        binders,
        at,
        bound.rows,
        bound.ty,
        bound.term,
    )?;
    let_end(
        base, work, *room, order, env, binders, fresh, x, g.scheme, g.deferred,
    )
}

// The pairs, which end at sp, are applied to the type.
fn let_typed(
    base: &Base,
    work: &mut [u64],
    room: &mut Room,
    rules: Rules,
    order: &[u64],
    env: &mut [u64],
    binders: &mut [u64],
    sp: usize,
    fresh: Fresh,
    x: usize,
    bound: Typed,
) -> Result<Let, Refusal>
    requires base_len_bound { length base.now.words.now ≤ 4 * room.old.top }
    requires ready_rest { ReadyRest base.now.names.now (base.now.words.now ++ work.old) env.old order.now rules.insts.now binders.old room.old.top room.old.left sp fresh.tv fresh.dv bound.ty bound.term bound.pairs bound.rows }
    requires x_in_bounds { x < length order.now }
    ensures { GivesB (AskedGeneral base.now.names.now rules.entry.classes.now (base.now.words.now ++ work.old) rules.entry.insts.now room.old.top (answer_of base.now.names.now (base.now.words.now ++ work.old) binders.old sp bound.ty bound.term bound.pairs bound.rows) (state_of base.now.names.now (base.now.words.now ++ work.old) env.old order.now fresh.tv fresh.dv)) (λ ce. let_typed ce (name_of base.now.names.now x) (answer_of base.now.names.now (base.now.words.now ++ work.old) binders.old sp bound.ty bound.term bound.pairs bound.rows) (state_of base.now.names.now (base.now.words.now ++ work.old) env.old order.now fresh.tv fresh.dv) room.old.left) base.now.names.now (base.now.words.now ++ work.old) (base.now.words.now ++ work.new)
        env.new order.now binders.old binders.new room.old.top room.old.left sp fresh.tv fresh.dv (bound_of result room.new.top room.new.left) }
{
    let k = bound.pairs;
    let at = sp - 2 * k;
    let ty = apply::apply(base, work, room, DEPTH, Subst { at, k }, bound.ty)?;
    let_general(
        base,
        work,
        room,
        rules,
        order,
        env,
        binders,
        sp,
        fresh,
        x,
        Typed { ty, ..bound },
    )
}

// And before that to the types of the rows.
fn let_after(
    base: &Base,
    work: &mut [u64],
    room: &mut Room,
    rules: Rules,
    order: &[u64],
    env: &mut [u64],
    binders: &mut [u64],
    sp: usize,
    fresh: Fresh,
    x: usize,
    bound: Typed,
) -> Result<Let, Refusal>
    requires base_len_bound { length base.now.words.now ≤ 4 * room.old.top }
    requires ready_rest { ReadyRest base.now.names.now (base.now.words.now ++ work.old) env.old order.now rules.insts.now binders.old room.old.top room.old.left sp fresh.tv fresh.dv bound.ty bound.term bound.pairs bound.rows }
    requires x_in_bounds { x < length order.now }
    ensures { GivesB (AskedGeneral base.now.names.now rules.entry.classes.now (base.now.words.now ++ work.old) rules.entry.insts.now room.old.top (answer_of base.now.names.now (base.now.words.now ++ work.old) binders.old sp bound.ty bound.term bound.pairs bound.rows) (state_of base.now.names.now (base.now.words.now ++ work.old) env.old order.now fresh.tv fresh.dv)) (λ ce. let_after ce (name_of base.now.names.now x) (answer_of base.now.names.now (base.now.words.now ++ work.old) binders.old sp bound.ty bound.term bound.pairs bound.rows) (state_of base.now.names.now (base.now.words.now ++ work.old) env.old order.now fresh.tv fresh.dv) room.old.left) base.now.names.now (base.now.words.now ++ work.old) (base.now.words.now ++ work.new)
        env.new order.now binders.old binders.new room.old.top room.old.left sp fresh.tv fresh.dv (bound_of result room.new.top room.new.left) }
{
    let k = bound.pairs;
    let at = sp - 2 * k;
    pending::apply_rows(base, work, room, binders, Subst { at, k }, bound.rows)?;
    let_typed(
        base, work, room, rules, order, env, binders, sp, fresh, x, bound,
    )
}

// `process_let_decl`: expression i is what name x is bound to.
pub fn process_let(
    base: &Base,
    work: &mut [u64],
    room: &mut Room,
    file: File,
    rules: Rules,
    methods: &[u64],
    order: &[u64],
    env: &mut [u64],
    binders: &mut [u64],
    sp: usize,
    fresh: Fresh,
    x: usize,
    i: usize,
) -> Result<Let, Refusal>
    requires base_len_bound { length base.now.words.now ≤ 4 * room.old.top }
    requires ready_i { ReadyI 0 0 0 base.now.names.now (base.now.words.now ++ work.old) env.old order.now rules.insts.now binders.old room.old.top room.old.left sp fresh.tv fresh.dv }
    requires x_bound { x < 1_059 }
    ensures { GivesB (Asked file.entry.src.now base.now.names.now file.entry.index.now (base.now.words.now ++ work.old) rules.entry.classes.now methods.now rules.entry.insts.now env.old order.now room.old.top i) (λ p. process_let_decl p.0 (name_of base.now.names.now x) p.1 (state_of base.now.names.now (base.now.words.now ++ work.old) env.old order.now fresh.tv fresh.dv) room.old.left) base.now.names.now (base.now.words.now ++ work.old) (base.now.words.now ++ work.new)
        env.new order.now binders.old binders.new room.old.top room.old.left sp fresh.tv fresh.dv (bound_of result room.new.top room.new.left) }
{
    let bound = infer::infer(
        base, work, room, file, rules, methods, order, env, binders, DEPTH, sp, fresh, i,
    )?;
    let_after(
        base,
        work,
        room,
        rules,
        order,
        env,
        binders,
        sp,
        bound.fresh,
        x,
        bound,
    )
}
