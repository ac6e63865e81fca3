// The types in a core term: that of a record, and those of binders.
ghost use Rattle.std.specs.Prelude.{◌++◌, ◌+◌, ◌*◌, ◌≤◌, length};
ghost use Rattle.meaning.specs.Ast.{dict_rec};
ghost use Rattle.meaning.specs.Subst.{apply_preds_pending};
ghost use Rattle.names.specs.Names.{name_of};
ghost use Rattle.ast.specs.Table.{tree};
ghost use Rattle.cores.specs.Binders.{binders_of_word};
ghost use Rattle.cores.specs.Terms.{core};
ghost use Rattle.canoncore.specs.Lettered.{ReadyLetters, GivesLettered, node_out};
ghost use Rattle.apply.specs.Applied.{applied_of};

use ast::{Base, Cell, Room};
use errors::{DEPTH, Refusal};

// The record of instance i, of the class c at the type u: the type is renamed.
pub fn in_rec(
    base: &Base,
    work: &mut [u64],
    room: &mut Room,
    letters: &[u64],
    c: usize,
    u: usize,
    i: usize,
) -> Result<usize, Refusal>
    requires base_len_bound { length base.now.words.now ≤ 4 * room.old.top }
    requires ready_letters { ReadyLetters base.now.names.now (base.now.words.now ++ work.old) letters.now room.old.top room.old.left u }
    ensures { GivesLettered core 0 base.now.names.now letters.now (base.now.words.now ++ work.old) (base.now.words.now ++ work.new) room.old.top room.old.left
        (λ s. node_out 0 room.old.left s (dict_rec (name_of base.now.names.now c) (tree base.now.names.now (base.now.words.now ++ work.old) u) i)) (applied_of result room.new.top room.new.left) }
{
    let m = rename::rename(base, work, room, letters, DEPTH, ast::NIL, 0, u)?;
    Ok(cores::push_rec(base, work, room, c, m, i))
}

// The types of the binders of the list v are renamed, left to right.
pub fn rename_binders(
    base: &Base,
    work: &mut [u64],
    room: &mut Room,
    letters: &[u64],
    v: usize,
) -> Result<usize, Refusal>
    requires base_len_bound { length base.now.words.now ≤ 4 * room.old.top }
    requires ready_letters { ReadyLetters base.now.names.now (base.now.words.now ++ work.old) letters.now room.old.top room.old.left v }
    ensures { GivesLettered binders_of_word 0 base.now.names.now letters.now (base.now.words.now ++ work.old) (base.now.words.now ++ work.new) room.old.top room.old.left
        (λ s. apply_preds_pending s (binders_of_word base.now.names.now (base.now.words.now ++ work.old) v) room.old.left) (applied_of result room.new.top room.new.left) }
{
    let c = ast::cell_at(base, work, v);
    match c {
        Cell::Nil => Ok(v),
        Cell::Cons(a, b) => {
            let x = subst::class_at(base, work, v);
            let m = rename::rename(base, work, room, letters, DEPTH, ast::NIL, 0, a)?;
            let m2 = rename_binders(base, work, room, letters, b)?;
            Ok(subst::add_pred(base, work, room, x, m, m2))
        }
    }
}
