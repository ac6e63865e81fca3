// Canonical names: of predicates and a type, of the scheme that they make, and of the term over the rows.
ghost use Rattle.std.specs.Prelude.{◌++◌, ◌*◌, ◌≤◌, length};
ghost use Rattle.ast.specs.Table.{Node};
ghost use Rattle.scope.specs.Scope.{env_of};
ghost use Rattle.canonical.specs.Named.{rows_qual};
ghost use Rattle.generalize.specs.Naming.{ReadyNames, ReadyLetters, GivesLettered, Chosen, GivesNames};
ghost use Rattle.subst.specs.AppliedQual.{qual_of};
ghost use Rattle.generalize.specs.Named.{named_of};

use ast::{Base, Room};
use errors::{DEPTH, Refusal};
use scope::Env;
use subst::{Qual, Scheme};

// A scheme and a term.
#[derive(Clone, Copy)]
pub struct Naming {
    pub scheme: Scheme,
    pub term: usize,
}

// The predicates of the first n rows and the type t, where the words of `letters` become letters.
fn name_qual(
    base: &Base,
    work: &mut [u64],
    room: &mut Room,
    letters: &[u64],
    binders: &mut [u64],
    sp: usize,
    n: usize,
    t: usize,
) -> Result<Qual, Refusal>
    requires base_len_bound { length base.now.words.now ≤ 4 * room.old.top }
    requires ready_letters { ReadyLetters base.now.names.now (base.now.words.now ++ work.old) letters.now binders.old room.old.top room.old.left sp n t }
    ensures { GivesLettered base.now.names.now (base.now.words.now ++ work.old) (base.now.words.now ++ work.new) letters.now
        binders.old binders.new room.old.top room.old.left sp n t (qual_of result room.new.top room.new.left) }
{
    let preds = canonical::renamed::rename_rows(base, work, room, letters, binders, n)?;
    let ty = rename::rename(base, work, room, letters, DEPTH, ast::NIL, 0, t)?;
    Ok(Qual { preds, ty })
}

// The same with the list of the scheme's variables, and then the term e over the rows; `letters` are the words that get the
// letters.
fn name_rest(
    base: &Base,
    work: &mut [u64],
    room: &mut Room,
    env: Env,
    letters: &[u64],
    binders: &mut [u64],
    sp: usize,
    n: usize,
    t: usize,
    e: usize,
) -> Result<Naming, Refusal>
    requires base_len_bound { length base.now.words.now ≤ 4 * room.old.top }
    requires ready_names { ReadyNames base.now.names.now (base.now.words.now ++ work.old) env.rows.now env.order.now binders.old room.old.top room.old.left sp n t }
    requires node { Node (base.now.words.now ++ work.old) room.old.top e }
    requires chosen { Chosen base.now.names.now (base.now.words.now ++ work.old) letters.now (rows_qual base.now.names.now (base.now.words.now ++ work.old) binders.old n t)
        (env_of base.now.names.now (base.now.words.now ++ work.old) env.rows.now env.order.now) }
    ensures { GivesNames base.now.names.now (base.now.words.now ++ work.old) (base.now.words.now ++ work.new) env.entry.rows.now env.entry.order.now
        binders.old room.old.top room.old.left sp n t e (named_of result room.new.top room.new.left) }
{
    let q = name_qual(base, work, room, letters, binders, sp, n, t)?;
    let vars = canonical::sorted::sorted_vars(base, work, room, env, q.preds, q.ty);
    let term = canoncore::rows::rename_abstracted(base, work, room, letters, binders, n, e)?;
    Ok(Naming {
        scheme: Scheme {
            vars,
            preds: q.preds,
            ty: q.ty,
        },
        term,
    })
}

// All of it; `letters` has room for 26 words.
fn name_with(
    base: &Base,
    work: &mut [u64],
    room: &mut Room,
    env: Env,
    letters: &mut [u64],
    binders: &mut [u64],
    sp: usize,
    n: usize,
    t: usize,
    e: usize,
) -> Result<Naming, Refusal>
    requires base_len_bound { length base.now.words.now ≤ 4 * room.old.top }
    requires ready_names { ReadyNames base.now.names.now (base.now.words.now ++ work.old) env.rows.now env.order.now binders.old room.old.top room.old.left sp n t }
    requires node { Node (base.now.words.now ++ work.old) room.old.top e }
    requires in_bounds { 26 ≤ length letters.old }
    ensures { GivesNames base.now.names.now (base.now.words.now ++ work.old) (base.now.words.now ++ work.new) env.entry.rows.now env.entry.order.now
        binders.old room.old.top room.old.left sp n t e (named_of result room.new.top room.new.left) }
{
    let k = canonical::letters(base, work, env, binders, letters, room.top, n, t);
    name_rest(base, work, room, env, &letters[..k], binders, sp, n, t, e)
}

// `canonical_scheme_and_core` of the type t under the predicates of the first n rows, and of the term e over these rows.
pub fn name_all(
    base: &Base,
    work: &mut [u64],
    room: &mut Room,
    env: Env,
    binders: &mut [u64],
    sp: usize,
    n: usize,
    t: usize,
    e: usize,
) -> Result<Naming, Refusal>
    requires base_len_bound { length base.now.words.now ≤ 4 * room.old.top }
    requires ready_names { ReadyNames base.now.names.now (base.now.words.now ++ work.old) env.rows.now env.order.now binders.old room.old.top room.old.left sp n t }
    requires node { Node (base.now.words.now ++ work.old) room.old.top e }
    ensures { GivesNames base.now.names.now (base.now.words.now ++ work.old) (base.now.words.now ++ work.new) env.entry.rows.now env.entry.order.now
        binders.old room.old.top room.old.left sp n t e (named_of result room.new.top room.new.left) }
{
    let mut letters: [u64; 26] = [0; 26];
    name_with(base, work, room, env, &mut letters, binders, sp, n, t, e)
}
