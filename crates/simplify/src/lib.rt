// `simplify_context` of 001 over binders in rows: a binder that the others prove by their superclasses is replaced in place.
#![tactic(auto)]

ghost use Rattle.std.specs.Prelude.{◌++◌, ◌*◌, ◌<◌, ◌≤◌, length};
ghost use Rattle.simplify.specs.Simplified.{ReadySimplify, Turn, GivesSimplified};
ghost use Rattle.simplify.specs.Simplified.{simplified_of};

use ast::{Base, Room};
use errors::Refusal;
use supers::rows::Row;

// Row i is looked for in the others: it is marked meanwhile, so that the search passes over it. It is replaced where they
// prove it, else it gets its class back.
fn sift(
    base: &Base,
    work: &mut [u64],
    room: &mut Room,
    classes: &[u64],
    binders: &mut [u64],
    sp: usize,
    n: usize,
    i: usize,
) -> Result<(), Refusal>
    requires base_len_bound { length base.now.words.now ≤ 4 * room.old.top }
    requires ready_simplify { ReadySimplify base.now.names.now (base.now.words.now ++ work.old) binders.old room.old.top room.old.left sp n }
    requires i_lt_n { i < n }
    ensures { Turn base.now.names.now classes.now (base.now.words.now ++ work.old) (base.now.words.now ++ work.new)
        binders.old binders.new room.old.top room.old.left sp n i (simplified_of result room.new.top room.new.left) }
{
    let q = supers::rows::row_at(binders, i);
    let Row::Pending(_, c, t) = q else {
        return Ok(());
    };
    let at = 3 * i;
    binders[at + 1] = supers::rows::MARK;
    let s = supers::rows::find_super_row(base, work, room, classes, binders, sp, n, c, t);
    match s {
        Ok(Some(e)) => {
            binders[at + 2] = e as u64;
            Ok(())
        }
        Ok(None) => {
            binders[at + 1] = c as u64;
            Ok(())
        }
        Err(e) => {
            binders[at + 1] = c as u64;
            Err(e)
        }
    }
}

// `simplify_context`: the first n rows, one after the other.
pub fn simplify_context(
    base: &Base,
    work: &mut [u64],
    room: &mut Room,
    classes: &[u64],
    binders: &mut [u64],
    sp: usize,
    n: usize,
) -> Result<(), Refusal>
    requires base_len_bound { length base.now.words.now ≤ 4 * room.old.top }
    requires ready_simplify { ReadySimplify base.now.names.now (base.now.words.now ++ work.old) binders.old room.old.top room.old.left sp n }
    ensures { GivesSimplified base.now.names.now classes.now (base.now.words.now ++ work.old) (base.now.words.now ++ work.new)
        binders.old binders.new room.old.top room.old.left sp n (simplified_of result room.new.top room.new.left) }
{
    for i in 0..n {
        sift(base, work, room, classes, binders, sp, n, i)?;
    }
    Ok(())
}
