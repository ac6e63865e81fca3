// What `infer_abs` and `infer_app` of 000 do once their parts are inferred, over words.
#![tactic(auto)]

ghost use Rattle.std.specs.Prelude.{◌++◌, ◌+◌, ◌*◌, ◌-◌, ◌<◌, ◌≤◌, length};
ghost use Rattle.names.specs.Names.{name_of, tyvar_of, first_nullary};
ghost use Rattle.ast.specs.Table.{tree};
ghost use Rattle.pairs.specs.Pairs.{sub_at};
ghost use Rattle.cores.specs.Terms.{core};
ghost use Rattle.compose.specs.Answers.{GivesU};
ghost use Rattle.ends.specs.Ends.{abs_ended, ReadyAbs, GivesAbs, met, gathered, closed, joined, ReadyMeet, Raised, Seen, ReadyGather, ReadyApp, GivesJoin};
ghost use Rattle.apply.specs.Applied.{applied_of};
ghost use Rattle.ends.specs.Ended.{ended_of};
ghost use Rattle.ends.specs.Joined.{joined_of};

use ast::{Base, Room};
use compose::Beside;
use errors::{DEPTH, Refusal};
use pairs::Subst;

// What a function was inferred to be: its type, and its core term.
#[derive(Clone, Copy)]
pub struct Function {
    pub ty: usize,
    pub term: usize,
}

// The type of an application, and how many pairs its substitution has.
#[derive(Clone, Copy)]
pub struct Join {
    pub ty: usize,
    pub pairs: usize,
}

// The end of `infer_abs`: the k pairs that end at sp applied to the variable a, the arrow from that to t, and the
// function of x with the body e.
pub fn abs_end(
    base: &Base,
    work: &mut [u64],
    room: &mut Room,
    sp: usize,
    k: usize,
    a: usize,
    t: usize,
    x: usize,
    e: usize,
) -> Result<Function, Refusal>
    requires base_len_bound { length base.now.words.now ≤ 4 * room.old.top }
    requires ready_abs { ReadyAbs base.now.names.now (base.now.words.now ++ work.old) room.old.top room.old.left sp k a t e }
    ensures { GivesAbs base.now.names.now (base.now.words.now ++ work.old) (base.now.words.now ++ work.new) room.old.top room.old.left
        (abs_ended (sub_at base.now.names.now (base.now.words.now ++ work.old) (sp - 2 * k) k) (tyvar_of base.now.names.now a)
        (tree base.now.names.now (base.now.words.now ++ work.old) t) (name_of base.now.names.now x) (core base.now.names.now (base.now.words.now ++ work.old) e) room.old.left) (ended_of result room.new.top room.new.left) }
{
    let sub = Subst { at: sp - 2 * k, k };
    let u = apply::apply(base, work, room, DEPTH, sub, a)?;
    let ty = ast::add(base, work, room, ast::ARROW, u, t);
    let term = cores::push_abs(base, work, room, x, e);
    Ok(Function { ty, term })
}

// The type tf after the k2 pairs from lo, where the stack ends, unified with the arrow from tx to the variable a; the
// pairs that it gives end at lo.
fn meet(
    base: &Base,
    work: &mut [u64],
    room: &mut Room,
    lo: usize,
    k2: usize,
    a: usize,
    tf: usize,
    tx: usize,
) -> Result<usize, Refusal>
    requires base_len_bound { length base.now.words.now ≤ 4 * room.old.top }
    requires ready_meet { ReadyMeet base.now.names.now (base.now.words.now ++ work.old) room.old.top room.old.left lo k2 a tf tx }
    ensures { GivesU 1 0 base.now.names.now (base.now.words.now ++ work.old) (base.now.words.now ++ work.new) room.old.top room.old.left lo
        (met (sub_at base.now.names.now (base.now.words.now ++ work.old) lo k2) (tree base.now.names.now (base.now.words.now ++ work.old) tf)
        (tree base.now.names.now (base.now.words.now ++ work.old) tx) (tyvar_of base.now.names.now a) room.old.left) (applied_of result room.new.top room.new.left) }
{
    let sub = Subst { at: lo, k: k2 };
    let u = apply::apply(base, work, room, DEPTH, sub, tf)?;
    let arrow = ast::add(base, work, room, ast::ARROW, tx, a);
    unify::unify(base, work, room, DEPTH, lo, u, arrow)
}

// Moves the words from at up to end up, so that they end at to.
fn raise(base: &Base, work: &mut [u64], at: usize, end: usize, to: usize)
    requires base_len_bound { length base.now.words.now ≤ at }
    requires at_le_end { at ≤ end }
    requires end_le_to { end ≤ to }
    requires to_in_bounds { to ≤ length (base.now.words.now ++ work.old) }
    ensures { Raised (base.now.words.now ++ work.old) (base.now.words.now ++ work.new) at end (to - end) }
{
    let n = base.words.len();
    work.copy_within(at - n..end - n, at + (to - end) - n);
}

// What the pairs say of the variable a.
fn seen(base: &Base, work: &[u64], sub: Subst, a: usize) -> usize
    requires k_in_bounds { sub.at + 2 * sub.k ≤ length (base.now.words.now ++ work.now) }
    requires a_lt_first_nullary { a < first_nullary }
    ensures { Seen (base.now.words.now ++ work.now) sub.at sub.k a result }
{
    pairs::find(base, work, sub, a).unwrap_or(a)
}

// Three regions side by side that end at sp become one that ends there: k1 pairs, then the k2 below them, then the k3
// below those.
fn gather(
    base: &Base,
    work: &mut [u64],
    room: &mut Room,
    sp: usize,
    k3: usize,
    k2: usize,
    k1: usize,
) -> Result<usize, Refusal>
    requires base_len_bound { length base.now.words.now ≤ 4 * room.old.top }
    requires ready_gather { ReadyGather base.now.names.now (base.now.words.now ++ work.old) room.old.top room.old.left sp k3 k2 k1 }
    ensures { GivesU 0 (2 * k3 + 2 * k2 + 2 * k1) base.now.names.now (base.now.words.now ++ work.old) (base.now.words.now ++ work.new) room.old.top room.old.left sp
        (gathered (sub_at base.now.names.now (base.now.words.now ++ work.old) (sp - 2 * k1 - 2 * k2 - 2 * k3) k3)
        (sub_at base.now.names.now (base.now.words.now ++ work.old) (sp - 2 * k1 - 2 * k2) k2) (sub_at base.now.names.now (base.now.words.now ++ work.old) (sp - 2 * k1) k1) room.old.left) (applied_of result room.new.top room.new.left) }
{
    let lo = sp - 2 * k1 - 2 * k2;
    let c = compose::compose_in(base, work, room, Beside { lo, k2, k1 })?;
    let to = sp - 2 * c;
    raise(base, work, lo - 2 * k3, lo, to);
    let sides = Beside {
        lo: to - 2 * k3,
        k2: k3,
        k1: c,
    };
    compose::compose_in(base, work, room, sides)
}

// The three regions made one, and what the lowest of them says of the variable a, which takes a step.
fn close(
    base: &Base,
    work: &mut [u64],
    room: &mut Room,
    sp: usize,
    k3: usize,
    k2: usize,
    k1: usize,
    a: usize,
) -> Result<Join, Refusal>
    requires base_len_bound { length base.now.words.now ≤ 4 * room.old.top }
    requires a_lt_first_nullary { a < first_nullary }
    requires ready_gather { ReadyGather base.now.names.now (base.now.words.now ++ work.old) room.old.top room.old.left sp k3 k2 k1 }
    ensures { GivesJoin 8 1 (2 * k3 + 2 * k2 + 2 * k1) base.now.names.now (base.now.words.now ++ work.old) (base.now.words.now ++ work.new) room.old.top room.old.left sp
        (closed (sub_at base.now.names.now (base.now.words.now ++ work.old) (sp - 2 * k1 - 2 * k2 - 2 * k3) k3)
        (sub_at base.now.names.now (base.now.words.now ++ work.old) (sp - 2 * k1 - 2 * k2) k2) (sub_at base.now.names.now (base.now.words.now ++ work.old) (sp - 2 * k1) k1)
        (tyvar_of base.now.names.now a) room.old.left) (joined_of result room.new.top room.new.left) }
{
    let sub = Subst {
        at: sp - 2 * k1 - 2 * k2 - 2 * k3,
        k: k3,
    };
    let ty = seen(base, work, sub, a);
    let pairs = gather(base, work, room, sp, k3, k2, k1)?;
    if room.left == 0 {
        return Err(Refusal::Steps);
    }
    room.left -= 1;
    Ok(Join { ty, pairs })
}

// The end of `infer_app`: the type tf of the function, after the k2 pairs of the argument, unified with the arrow from
// tx to the variable a; all substitutions composed, the k1 pairs of the function first; and the type of a.
pub fn app_end(
    base: &Base,
    work: &mut [u64],
    room: &mut Room,
    sp: usize,
    k1: usize,
    k2: usize,
    a: usize,
    tf: usize,
    tx: usize,
) -> Result<Join, Refusal>
    requires base_len_bound { length base.now.words.now ≤ 4 * room.old.top }
    requires ready_app { ReadyApp base.now.names.now (base.now.words.now ++ work.old) room.old.top room.old.left sp k1 k2 a tf tx }
    ensures { GivesJoin 14 2 (2 * k1 + 2 * k2) base.now.names.now (base.now.words.now ++ work.old) (base.now.words.now ++ work.new) room.old.top room.old.left sp
        (joined (sub_at base.now.names.now (base.now.words.now ++ work.old) (sp - 2 * k1) k1) (tree base.now.names.now (base.now.words.now ++ work.old) tf)
        (sub_at base.now.names.now (base.now.words.now ++ work.old) (sp - 2 * k1 - 2 * k2) k2) (tree base.now.names.now (base.now.words.now ++ work.old) tx)
        (tyvar_of base.now.names.now a) room.old.left) (joined_of result room.new.top room.new.left) }
{
    let lo = sp - 2 * k1 - 2 * k2;
    let k3 = meet(base, work, room, lo, k2, a, tf, tx)?;
    close(base, work, room, sp, k3, k2, k1, a)
}
