// The types of pending rows with letters for variables, and the list of their predicates.
ghost use Rattle.std.specs.Prelude.{◌≡◌, ◌++◌, ◌*◌, ◌<◌, ◌≤◌, length, set};
ghost use Rattle.canonical.specs.Rows.{ReadyRename, RenamesRow, GivesRows, ReadyList, Preds, GivesRenamed};
ghost use Rattle.apply.specs.Applied.{applied_of};
ghost use Rattle.canonical.specs.Rows.{rows_of};

use ast::{Base, Room};
use errors::{DEPTH, Refusal};
use supers::rows::Row;

// Writes a word of the rows.
fn put(binders: &mut [u64], i: usize, v: u64)
    requires { i < length binders.old }
    ensures { binders.new ≡ set binders.old i v }
{
    binders[i] = v;
}

// The type of row i with its variables renamed, if the row is pending.
fn rename_row(
    base: &Base,
    work: &mut [u64],
    room: &mut Room,
    letters: &[u64],
    binders: &mut [u64],
    n: usize,
    i: usize,
) -> Result<(), Refusal>
    requires base_len_bound { length base.now.words.now ≤ 4 * room.old.top }
    requires ready_rename { ReadyRename base.now.names.now (base.now.words.now ++ work.old) letters.now binders.old room.old.top room.old.left n }
    requires i_lt_n { i < n }
    ensures { RenamesRow base.now.names.now (base.now.words.now ++ work.old) (base.now.words.now ++ work.new) letters.now
        binders.old binders.new room.old.top room.old.left i (rows_of result room.new.top room.new.left) }
{
    let q = supers::rows::row_at(binders, i);
    let Row::Pending(_, _, t) = q else {
        return Ok(());
    };
    let u = rename::rename(base, work, room, letters, DEPTH, ast::NIL, 0, t)?;
    put(binders, 3 * i + 2, u as u64);
    Ok(())
}

// The type of each pending one of the first n rows with its variables renamed, one row after the other.
pub fn rename_types(
    base: &Base,
    work: &mut [u64],
    room: &mut Room,
    letters: &[u64],
    binders: &mut [u64],
    n: usize,
) -> Result<(), Refusal>
    requires base_len_bound { length base.now.words.now ≤ 4 * room.old.top }
    requires ready_rename { ReadyRename base.now.names.now (base.now.words.now ++ work.old) letters.now binders.old room.old.top room.old.left n }
    ensures { GivesRows base.now.names.now (base.now.words.now ++ work.old) (base.now.words.now ++ work.new) letters.now
        binders.old binders.new room.old.top room.old.left n (rows_of result room.new.top room.new.left) }
{
    for i in 0..n {
        rename_row(base, work, room, letters, binders, n, i)?;
    }
    Ok(())
}

// The predicates of the pending ones of the first n rows as a list, made from the last row on.
pub fn list_preds(
    base: &Base,
    work: &mut [u64],
    room: &mut Room,
    binders: &[u64],
    n: usize,
) -> usize
    requires base_len_bound { length base.now.words.now ≤ 4 * room.old.top }
    requires ready_list { ReadyList base.now.names.now (base.now.words.now ++ work.old) binders.now room.old.top n }
    ensures preds { Preds base.now.names.now (base.now.words.now ++ work.old) (base.now.words.now ++ work.new) binders.now room.old.top n result room.new.top }
    ensures left { room.new.left ≡ room.old.left }
{
    let mut l = ast::NIL;
    for i in (0..n).rev() {
        let q = supers::rows::row_at(binders, i);
        match q {
            Row::Pending(_, c, t) => {
                l = subst::add_pred(base, work, room, c, t, l);
            }
            Row::Replaced(_, _) => {}
        }
    }
    l
}

// `apply_preds` of the canonical renaming to the pending ones of the first n rows: the rows are renamed in place, and the
// list of their predicates is made.
pub fn rename_rows(
    base: &Base,
    work: &mut [u64],
    room: &mut Room,
    letters: &[u64],
    binders: &mut [u64],
    n: usize,
) -> Result<usize, Refusal>
    requires base_len_bound { length base.now.words.now ≤ 4 * room.old.top }
    requires ready_rename { ReadyRename base.now.names.now (base.now.words.now ++ work.old) letters.now binders.old room.old.top room.old.left n }
    ensures { GivesRenamed base.now.names.now (base.now.words.now ++ work.old) (base.now.words.now ++ work.new) letters.now
        binders.old binders.new room.old.top room.old.left n (applied_of result room.new.top room.new.left) }
{
    rename_types(base, work, room, letters, binders, n)?;
    Ok(list_preds(base, work, room, binders, n))
}
