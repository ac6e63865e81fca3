// The body of a let, under its name's scheme.
ghost use Rattle.std.specs.Prelude.{◌++◌, ◌+◌, ◌*◌, ◌-◌, ◌≤◌, length};
ghost use Rattle.meaning.specs.Infer.{infer_in};
ghost use Rattle.names.specs.Names.{name_of};
ghost use Rattle.pairs.specs.Pairs.{sub_at};
ghost use Rattle.cores.specs.Terms.{core};
ghost use Rattle.supers.specs.Rows.{binders_in};
ghost use Rattle.subst.specs.Schemes.{scheme_of_word};
ghost use Rattle.scope.specs.Scope.{scheme_in};
ghost use Rattle.inferred.specs.Parts.{let_body, let_rest};
ghost use Rattle.inferred.specs.Closing.{answer_from};
ghost use Rattle.inferred.specs.Inferring.{state_of, GivesI};
ghost use Rattle.infer.specs.Runs.{Nothing, restored_let};
ghost use Rattle.infer.specs.Asking.{Asked, AskedBody, Hidden, ReadyBody, ReadyLetEnd};
ghost use Rattle.inferred.specs.Inferred.{inferred_of};

use ast::{Base, Room};
use errors::Refusal;
use generalize::General;
use inferred::Typed;
use resolve::Rules;
use scope::{Entry, Fresh};
use views::File;

// The scheme has the name's row while the body is inferred.
#[cycle(app_app_arg_abs_abs_rest_infer_let_body_let_rest_binding_let_mid_onward)]
pub fn let_body(
    base: &Base,
    work: &mut [u64],
    room: &mut Room,
    file: File,
    rules: Rules,
    methods: &[u64],
    order: &[u64],
    env: &mut [u64],
    binders: &mut [u64],
    depth: usize,
    sp: usize,
    fresh: Fresh,
    r: usize,
    g: General,
    k: usize,
    f: usize,
) -> Result<Typed, Refusal>
    requires base_len_bound { length base.now.words.now ≤ 4 * room.old.top }
    requires ready_body { ReadyBody base.now.names.now (base.now.words.now ++ work.old) env.old order.now rules.insts.now binders.old room.old.top room.old.left sp fresh.tv fresh.dv k g.scheme.vars g.scheme.preds g.scheme.ty g.term g.deferred }
    ensures { GivesI (AskedBody file.entry.src.now base.now.names.now file.entry.index.now (base.now.words.now ++ work.old) rules.entry.classes.now methods.now rules.entry.insts.now env.old order.now room.old.top r f (scheme_of_word base.now.names.now (base.now.words.now ++ work.old) g.scheme.vars g.scheme.preds g.scheme.ty)) (λ p. let_body (λ u. infer_in depth p.0 u) (name_of base.now.names.now r) (sub_at base.now.names.now (base.now.words.now ++ work.old) (sp - 2 * k) k) (scheme_of_word base.now.names.now (base.now.words.now ++ work.old) g.scheme.vars g.scheme.preds g.scheme.ty, core base.now.names.now (base.now.words.now ++ work.old) g.term, binders_in base.now.names.now (base.now.words.now ++ work.old) binders.old 0 g.deferred) p.1 (state_of base.now.names.now (base.now.words.now ++ work.old) env.old order.now fresh.tv fresh.dv) room.old.left) (2 * k + 4) 0 g.deferred base.now.names.now (base.now.words.now ++ work.old) (base.now.words.now ++ work.new)
        env.new order.now binders.old binders.new room.old.top room.old.left sp fresh.tv fresh.dv (inferred_of result room.new.top room.new.left) }
{
    if r >= order.len() {
        return Err(Refusal::Depth);
    }
    let old = scope::row_at(env, r);
    scope::put(env, r, Entry::Local(g.scheme));
    let_rest(
        base, work, room, file, rules, methods, order, env, binders, depth, sp, fresh, r, old, g,
        k, f,
    )
}

// The body, with its rows after the deferred ones, and then the row as it was.
#[cycle(app_app_arg_abs_abs_rest_infer_let_body_let_rest_binding_let_mid_onward)]
fn let_rest(
    base: &Base,
    work: &mut [u64],
    room: &mut Room,
    file: File,
    rules: Rules,
    methods: &[u64],
    order: &[u64],
    env: &mut [u64],
    binders: &mut [u64],
    depth: usize,
    sp: usize,
    fresh: Fresh,
    r: usize,
    old: Entry,
    g: General,
    k: usize,
    f: usize,
) -> Result<Typed, Refusal>
    requires base_len_bound { length base.now.words.now ≤ 4 * room.old.top }
    requires ready_body { ReadyBody base.now.names.now (base.now.words.now ++ work.old) env.old order.now rules.insts.now binders.old room.old.top room.old.left sp fresh.tv fresh.dv k g.scheme.vars g.scheme.preds g.scheme.ty g.term g.deferred }
    requires hidden { Hidden base.now.names.now (base.now.words.now ++ work.old) order.now room.old.top r old }
    ensures { GivesI (Asked file.entry.src.now base.now.names.now file.entry.index.now (base.now.words.now ++ work.old) rules.entry.classes.now methods.now rules.entry.insts.now env.old order.now room.old.top f) (λ p. let_rest (λ u. infer_in depth p.0 u) (name_of base.now.names.now r) (sub_at base.now.names.now (base.now.words.now ++ work.old) (sp - 2 * k) k) (core base.now.names.now (base.now.words.now ++ work.old) g.term) (binders_in base.now.names.now (base.now.words.now ++ work.old) binders.old 0 g.deferred) (scheme_in base.now.names.now (base.now.words.now ++ work.old) old) p.1 (state_of base.now.names.now (base.now.words.now ++ work.old) env.old order.now fresh.tv fresh.dv) room.old.left) (2 * k + 4) 0 g.deferred base.now.names.now (base.now.words.now ++ work.old) (base.now.words.now ++ work.new)
        env.new order.now binders.old binders.new room.old.top room.old.left sp fresh.tv fresh.dv (inferred_of result room.new.top room.new.left) }
{
    let at = sp - 2 * k;
    let body = crate::onward(
        base, work, room, file, rules, methods, order, env, binders, depth, at, fresh, g.deferred,
        f,
    )?;
    let body = Typed {
        rows: g.deferred + body.rows,
        ..body
    };
    let_end(
        base, work, room, order, env, binders, sp, body.fresh, k, g.deferred, r, old, g.term, body,
    )
}

// The end of a let: the hidden row is put back, and nothing was applied to it.
fn let_end(
    base: &Base,
    work: &mut [u64],
    room: &mut Room,
    order: &[u64],
    env: &mut [u64],
    binders: &mut [u64],
    sp: usize,
    fresh: Fresh,
    k: usize,
    nd: usize,
    r: usize,
    old: Entry,
    c: usize,
    body: Typed,
) -> Result<Typed, Refusal>
    requires base_len_bound { length base.now.words.now ≤ 4 * room.old.top }
    requires ready_let_end { ReadyLetEnd base.now.names.now (base.now.words.now ++ work.old) env.old order.now binders.old room.old.top room.old.left sp k c body.ty body.term body.pairs nd body.rows r old }
    ensures { GivesI Nothing (λ _. restored_let (name_of base.now.names.now r) (sub_at base.now.names.now (base.now.words.now ++ work.old) (sp - 2 * k) k) (core base.now.names.now (base.now.words.now ++ work.old) c) (binders_in base.now.names.now (base.now.words.now ++ work.old) binders.old 0 nd) (scheme_in base.now.names.now (base.now.words.now ++ work.old) old) (answer_from base.now.names.now (base.now.words.now ++ work.old) binders.old (sp - 2 * k) body.ty body.term body.pairs nd body.rows) (state_of base.now.names.now (base.now.words.now ++ work.old) env.old order.now fresh.tv fresh.dv) room.old.left) (2 * k + 2 * body.pairs + 4) 0 body.rows base.now.names.now (base.now.words.now ++ work.old) (base.now.words.now ++ work.new)
        env.new order.now binders.old binders.new room.old.top room.old.left sp fresh.tv fresh.dv (inferred_of result room.new.top room.new.left) }
{
    scope::put(env, r, old);
    let e = inferred::let_close(base, work, room, binders, sp, k, nd, r, c, body)?;
    Ok(e.with_state(body.rows, fresh))
}
