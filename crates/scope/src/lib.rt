// The environment of 000 as rows of a lent slice, a row for each name; a second slice has the names in byte order.
// No heap: a row is four words of that slice, its state the first of them.
#![tactic(auto)]

ghost use Rattle.std.specs.Prelude.{◌≡◌, [], ◌++◌, ◌+◌, ◌*◌, ◌≤◌, length};
ghost use Rattle.meaning.specs.Map.{tyvars, elem};
ghost use Rattle.meaning.specs.Subst.{ftv_preds, ftv_scheme};
ghost use Rattle.meaning.specs.Generalize.{env_ftv};
ghost use Rattle.meaning.specs.Infer.{apply_schemes};
ghost use Rattle.names.specs.Names.{Names, tyvar_of};
ghost use Rattle.ast.specs.Table.{Node};
ghost use Rattle.pairs.specs.Pairs.{sub_at};
ghost use Rattle.subst.specs.Preds.{preds_of_word};
ghost use Rattle.subst.specs.Schemes.{scheme_of_word};
ghost use Rattle.scope.specs.Scope.{entry_of, written, with_entry, scheme_in, env_of, EntryIn, Scope};
ghost use Rattle.scope.specs.Sweeps.{ReadyRow, applied, GivesRow, ReadyEnv, GivesEnv, ftv_in};
ghost use Rattle.scope.specs.Swept.{swept_of};

use ast::{Base, Cell, Room};
use errors::Refusal;
use pairs::Subst;
use subst::Scheme;

// The environment: a row for each name, and the names' numbers in byte order.
#[derive(Clone, Copy)]
pub struct Env<'a> {
    pub rows: &'a [u64],
    pub order: &'a [u64],
}

// The numbers of the next type variable and of the next dictionary.
#[derive(Clone, Copy)]
pub struct Fresh {
    pub tv: usize,
    pub dv: usize,
}

// A row: no scheme, one without free variables, or any other: three cases, and so no Option.
#[derive(Clone, Copy)]
pub enum Entry {
    Nothing,
    Closed(Scheme),
    Local(Scheme),
}

// The row of name number r: all reading of a row's words.
pub fn row_at(env: &[u64], r: usize) -> Entry
    requires { 4 * r + 4 ≤ length env.now }
    ensures { result ≡ entry_of env.now r }
{
    let i = 4 * r;
    let s = env[i];
    let scheme = Scheme {
        vars: env[i + 1] as usize,
        preds: env[i + 2] as usize,
        ty: env[i + 3] as usize,
    };
    if s == 0 {
        return Entry::Nothing;
    }
    if s == 1 {
        return Entry::Closed(scheme);
    }
    Entry::Local(scheme)
}

// Writes a state and a scheme as row r.
fn write(env: &mut [u64], r: usize, s: u64, scheme: Scheme)
    requires { 4 * r + 4 ≤ length env.old }
    ensures { env.new ≡ written env.old r s scheme.vars scheme.preds scheme.ty }
{
    let i = 4 * r;
    env[i] = s;
    env[i + 1] = scheme.vars as u64;
    env[i + 2] = scheme.preds as u64;
    env[i + 3] = scheme.ty as u64;
}

// Writes an entry as the row of name number r.
pub fn put(env: &mut [u64], r: usize, e: Entry)
    requires { 4 * r + 4 ≤ length env.old }
    ensures { env.new ≡ with_entry env.old r e }
{
    match e {
        Entry::Nothing => write(
            env,
            r,
            0,
            Scheme {
                vars: 0,
                preds: 0,
                ty: 0,
            },
        ),
        Entry::Closed(scheme) => write(env, r, 1, scheme),
        Entry::Local(scheme) => write(env, r, 2, scheme),
    }
}

// The pairs applied to the scheme of row r; one that is known to be closed stays, for no step.
fn apply_row(
    base: &Base,
    work: &mut [u64],
    room: &mut Room,
    env: &mut [u64],
    sub: Subst,
    r: usize,
) -> Result<(), Refusal>
    requires base_len_bound { length base.now.words.now ≤ 4 * room.old.top }
    requires ready_row { ReadyRow base.now.names.now (base.now.words.now ++ work.old) env.old room.old.top room.old.left sub.at sub.k r }
    ensures { GivesRow base.now.names.now (base.now.words.now ++ work.old) (base.now.words.now ++ work.new) env.old env.new room.old.top room.old.left r
        (applied (sub_at base.now.names.now (base.now.words.now ++ work.old) sub.at sub.k) (scheme_in base.now.names.now (base.now.words.now ++ work.old) (entry_of env.old r)) room.old.left) (swept_of result room.new.top room.new.left) }
{
    let e = row_at(env, r);
    match e {
        Entry::Nothing => Ok(()),
        Entry::Closed(_) => Ok(()),
        Entry::Local(scheme) => {
            let q = subst::apply_scheme(base, work, room, sub, scheme)?;
            put(
                env,
                r,
                Entry::Local(Scheme {
                    vars: scheme.vars,
                    preds: q.preds,
                    ty: q.ty,
                }),
            );
            Ok(())
        }
    }
}

// `apply_env`: the pairs applied to each scheme, in byte order of the names.
pub fn apply_env(
    base: &Base,
    work: &mut [u64],
    room: &mut Room,
    env: &mut [u64],
    order: &[u64],
    sub: Subst,
) -> Result<(), Refusal>
    requires base_len_bound { length base.now.words.now ≤ 4 * room.old.top }
    requires ready_env { ReadyEnv base.now.names.now (base.now.words.now ++ work.old) env.old order.now room.old.top room.old.left sub.at sub.k }
    ensures { GivesEnv base.now.names.now (base.now.words.now ++ work.old) (base.now.words.now ++ work.new) env.old env.new order.now room.old.top room.old.left
        (apply_schemes (sub_at base.now.names.now (base.now.words.now ++ work.old) sub.at sub.k) (env_of base.now.names.now (base.now.words.now ++ work.old) env.old order.now) room.old.left) (swept_of result room.new.top room.new.left) }
{
    for r in order {
        apply_row(base, work, room, env, sub, *r as usize)?;
    }
    Ok(())
}

// Whether the variable of word x stands in the type of a predicate of the list ps.
fn in_preds(base: &Base, work: &[u64], top: usize, ps: usize, x: usize) -> bool
    requires names { Names base.now.names.now }
    requires node { Node (base.now.words.now ++ work.now) top ps }
    ensures { result ≡ elem tyvars (tyvar_of base.now.names.now x) (ftv_preds (preds_of_word base.now.names.now (base.now.words.now ++ work.now) ps) []) }
{
    // No heap: the list is cells of the table, which no iterator walks.
    let mut l = ps;
    while let Cell::Cons(a, b) = ast::cell_at(base, work, l) {
        if ast::occurs_in(base, work, top, x, a) {
            return true;
        }
        l = b;
    }
    false
}

// Whether the variable of word x is free in a scheme.
fn in_scheme(base: &Base, work: &[u64], top: usize, scheme: Scheme, x: usize) -> bool
    requires names { Names base.now.names.now }
    requires node { Node (base.now.words.now ++ work.now) top scheme.vars }
    requires node_2 { Node (base.now.words.now ++ work.now) top scheme.preds }
    requires node_3 { Node (base.now.words.now ++ work.now) top scheme.ty }
    ensures { result ≡ elem tyvars (tyvar_of base.now.names.now x) (ftv_scheme (scheme_of_word base.now.names.now (base.now.words.now ++ work.now) scheme.vars scheme.preds scheme.ty)) }
{
    if vars::has_var(base, work, top, scheme.vars, x) {
        return false;
    }
    if ast::occurs_in(base, work, top, x, scheme.ty) {
        return true;
    }
    in_preds(base, work, top, scheme.preds, x)
}

// Whether the variable of word x is free in the scheme of row r.
fn in_row(base: &Base, work: &[u64], env: &[u64], top: usize, r: usize, x: usize) -> bool
    requires names { Names base.now.names.now }
    requires r_in_bounds { 4 * r + 4 ≤ length env.now }
    requires entry_in { EntryIn base.now.names.now (base.now.words.now ++ work.now) top (entry_of env.now r) }
    ensures { result ≡ elem tyvars (tyvar_of base.now.names.now x) (ftv_in (scheme_in base.now.names.now (base.now.words.now ++ work.now) (entry_of env.now r))) }
{
    let e = row_at(env, r);
    match e {
        Entry::Nothing => false,
        Entry::Closed(_) => false,
        Entry::Local(scheme) => in_scheme(base, work, top, scheme, x),
    }
}

// Whether the variable of word x is free in the environment: whether `env_ftv` has it.
pub fn is_free(base: &Base, work: &[u64], env: Env, top: usize, x: usize) -> bool
    requires names { Names base.now.names.now }
    requires scope { Scope base.now.names.now (base.now.words.now ++ work.now) env.rows.now env.order.now top }
    ensures { result ≡ elem tyvars (tyvar_of base.now.names.now x) (env_ftv (env_of base.now.names.now (base.now.words.now ++ work.now) env.entry.rows.now env.entry.order.now)) }
{
    for r in env.order {
        if in_row(base, work, env.rows, top, *r as usize, x) {
            return true;
        }
    }
    false
}
