// `instantiate` and `infer_var` of 000 over words: a scheme's type and predicates over made variables, a row for each
// predicate, and the term that uses them.
#![tactic(auto)]

mod term;

ghost use Rattle.std.specs.Prelude.{◌≡◌, ◌++◌, ◌+◌, ◌*◌, ◌<◌, ◌≤◌, length};
ghost use Rattle.instantiate.specs.Instance.{with_words, ReadyPreds, GivesTaken, ReadyInstance, GivesInstance};
ghost use Rattle.instantiate.specs.Looks.{ReadyLook, HasScheme, Same, GivesLooked};
ghost use Rattle.names.specs.Names.{name_of, first_fresh};
ghost use Rattle.subst.specs.Schemes.{scheme_of_word};
ghost use Rattle.scope.specs.Scope.{env_of};
ghost use Rattle.instantiate.specs.Taken.{taken_of};
ghost use Rattle.instantiate.specs.Opened.{instance_of};
ghost use Rattle.instantiate.specs.Looked.{looked_of};

use ast::{Base, Cell, Room};
use errors::{DEPTH, Refusal};
use scope::{Entry, Env, Fresh};
use subst::Scheme;

// An instance of a scheme: its type, how many rows its predicates have, and both counters after it.
#[derive(Clone, Copy)]
pub struct Opened {
    pub ty: usize,
    pub rows: usize,
    pub fresh: Fresh,
}

// What a name comes to: the type and the term of its instance, how many rows its predicates have, and both counters.
#[derive(Clone, Copy)]
pub struct Used {
    pub ty: usize,
    pub term: usize,
    pub rows: usize,
    pub fresh: Fresh,
}

// Writes row j: a dictionary's number, its class and its type.
fn put_row(binders: &mut [u64], j: usize, d: usize, c: usize, x: usize)
    requires { 3 * j + 3 ≤ length binders.old }
    ensures { binders.new ≡ with_words binders.old j d c x }
{
    let i = 3 * j;
    binders[i] = d as u64;
    binders[i + 1] = c as u64;
    binders[i + 2] = x as u64;
}

// A row for each predicate of the list ps, left to right: the next dictionary's number, the class, and the type with the
// variables of the list vs made anew.
fn take_preds(
    base: &Base,
    work: &mut [u64],
    room: &mut Room,
    binders: &mut [u64],
    fresh: Fresh,
    vs: usize,
    ps: usize,
) -> Result<usize, Refusal>
    requires base_len_bound { length base.now.words.now ≤ 4 * room.old.top }
    requires ready_preds { ReadyPreds base.now.names.now (base.now.words.now ++ work.old) binders.old room.old.top room.old.left fresh.tv fresh.dv vs ps }
    ensures { GivesTaken base.now.names.now (base.now.words.now ++ work.old) (base.now.words.now ++ work.new) binders.new room.old.top room.old.left fresh.tv fresh.dv vs ps (taken_of result room.new.top room.new.left) }
{
    let to = names::FRESH + fresh.tv;
    let mut l = ps;
    let mut m: usize = 0;
    // No heap: the list is cells of the table, which no iterator walks.
    while let Cell::Cons(a, b) = ast::cell_at(base, work, l) {
        let p = subst::class_at(base, work, l);
        let u = rename::rename(base, work, room, &base.words[0..0], DEPTH, vs, to, a)?;
        put_row(binders, m, fresh.dv + m, p, u);
        m += 1;
        l = b;
    }
    Ok(m)
}

// `instantiate`: the type first, then a row for each predicate.
pub fn instantiate(
    base: &Base,
    work: &mut [u64],
    room: &mut Room,
    binders: &mut [u64],
    sp: usize,
    fresh: Fresh,
    scheme: Scheme,
) -> Result<Opened, Refusal>
    requires base_len_bound { length base.now.words.now ≤ 4 * room.old.top }
    requires ready_instance { ReadyInstance base.now.names.now (base.now.words.now ++ work.old) binders.old room.old.top room.old.left sp fresh.tv fresh.dv scheme.vars scheme.preds scheme.ty }
    ensures { GivesInstance base.now.names.now (base.now.words.now ++ work.old) (base.now.words.now ++ work.new) binders.new room.old.top room.old.left sp fresh.tv fresh.dv scheme.vars scheme.preds scheme.ty (instance_of result room.new.top room.new.left) }
{
    let made = fresh.tv + ast::count_list(base, work, room.top, scheme.vars);
    let to = names::FRESH + fresh.tv;
    let ty = rename::rename(
        base,
        work,
        room,
        &base.words[0..0],
        DEPTH,
        scheme.vars,
        to,
        scheme.ty,
    )?;
    let rows = take_preds(base, work, room, binders, fresh, scheme.vars, scheme.preds)?;
    let fresh = Fresh {
        tv: made,
        dv: fresh.dv + rows,
    };
    Ok(Opened { ty, rows, fresh })
}

// The instance of the scheme of name x, and its term.
fn of_scheme(
    base: &Base,
    work: &mut [u64],
    room: &mut Room,
    methods: &[u64],
    binders: &mut [u64],
    sp: usize,
    fresh: Fresh,
    x: usize,
    scheme: Scheme,
) -> Result<Used, Refusal>
    requires base_len_bound { length base.now.words.now ≤ 4 * room.old.top }
    requires ready_instance { ReadyInstance base.now.names.now (base.now.words.now ++ work.old) binders.old room.old.top room.old.left sp fresh.tv fresh.dv scheme.vars scheme.preds scheme.ty }
    requires x_lt_first_fresh { x < first_fresh }
    ensures { GivesLooked (HasScheme (name_of base.now.names.now x) (scheme_of_word base.now.names.now (base.now.words.now ++ work.old) scheme.vars scheme.preds scheme.ty)) base.now.names.now
        (base.now.words.now ++ work.old) (base.now.words.now ++ work.new) binders.new methods.now room.old.top room.old.left sp fresh.tv fresh.dv x (looked_of result room.new.top room.new.left) }
{
    let o = instantiate(base, work, room, binders, sp, fresh, scheme)?;
    let q = term::var_core(base, work, room, methods, binders, fresh.dv, o.rows, x);
    match q {
        Some(term) => Ok(Used {
            ty: o.ty,
            term,
            rows: o.rows,
            fresh: o.fresh,
        }),
        None => Err(Refusal::UnknownMethod(x)),
    }
}

// `infer_var`: an instance of the scheme of name number x, and the term that uses it.
pub fn infer_var(
    base: &Base,
    work: &mut [u64],
    room: &mut Room,
    methods: &[u64],
    env: Env,
    binders: &mut [u64],
    sp: usize,
    fresh: Fresh,
    x: usize,
) -> Result<Used, Refusal>
    requires base_len_bound { length base.now.words.now ≤ 4 * room.old.top }
    requires ready_look { ReadyLook base.now.names.now (base.now.words.now ++ work.old) env.rows.now env.order.now binders.old room.old.top room.old.left sp fresh.tv fresh.dv x }
    ensures { GivesLooked (Same (env_of base.now.names.now (base.now.words.now ++ work.old) env.entry.rows.now env.entry.order.now)) base.now.names.now
        (base.now.words.now ++ work.old) (base.now.words.now ++ work.new) binders.new methods.now room.old.top room.old.left sp fresh.tv fresh.dv x (looked_of result room.new.top room.new.left) }
{
    let e = scope::row_at(env.rows, x);
    match e {
        Entry::Nothing => Err(Refusal::UnboundVariable(x)),
        Entry::Closed(scheme) | Entry::Local(scheme) => {
            of_scheme(base, work, room, methods, binders, sp, fresh, x, scheme)
        }
    }
}
