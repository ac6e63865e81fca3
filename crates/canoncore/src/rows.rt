// A core term under the binders of rows that are pending, its type variables renamed.
ghost use Rattle.std.specs.Prelude.{◌++◌, ◌+◌, ◌*◌, ◌≤◌, length};
ghost use Rattle.meaning.specs.Ast.{dict_abs};
ghost use Rattle.meaning.specs.Subst.{apply_preds_pending};
ghost use Rattle.meaning.specs.Cores.{apply_core_in};
ghost use Rattle.meaning.specs.Generalize.{abstracted};
ghost use Rattle.ast.specs.Table.{Node};
ghost use Rattle.cores.specs.Binders.{binders_of_word};
ghost use Rattle.cores.specs.Terms.{core};
ghost use Rattle.supers.specs.Rows.{binders_in};
ghost use Rattle.canoncore.specs.Lettered.{GivesLettered, node_out};
ghost use Rattle.canoncore.specs.RowsReady.{ReadyRows};
ghost use Rattle.apply.specs.Applied.{applied_of};

use ast::{Base, Room};
use errors::{DEPTH, Refusal};
use supers::rows::Row;

// The pending rows from number j up to number n as a list of binders, their types renamed.
fn rows_from(
    base: &Base,
    work: &mut [u64],
    room: &mut Room,
    letters: &[u64],
    binders: &[u64],
    j: usize,
    n: usize,
) -> Result<usize, Refusal>
    requires base_len_bound { length base.now.words.now ≤ 4 * room.old.top }
    requires ready_rows { ReadyRows base.now.names.now (base.now.words.now ++ work.old) binders.now letters.now room.old.top room.old.left n }
    requires j_le_n { j ≤ n }
    ensures { GivesLettered binders_of_word 0 base.now.names.now letters.now (base.now.words.now ++ work.old) (base.now.words.now ++ work.new) room.old.top room.old.left
        (λ s. apply_preds_pending s (binders_in base.now.names.now (base.now.words.now ++ work.old) binders.now j n) room.old.left) (applied_of result room.new.top room.new.left) }
{
    if j == n {
        return Ok(ast::NIL);
    }
    let w = supers::rows::row_at(binders, j);
    match w {
        Row::Replaced(_, _) => rows_from(base, work, room, letters, binders, j + 1, n),
        Row::Pending(d, c, t) => {
            let m = rename::rename(base, work, room, letters, DEPTH, ast::NIL, 0, t)?;
            let m2 = rows_from(base, work, room, letters, binders, j + 1, n)?;
            Ok(subst::add_pred(base, work, room, 65536 * d + c, m, m2))
        }
    }
}

// The term e under the binders of the first n rows, after its own step.
fn in_rows(
    base: &Base,
    work: &mut [u64],
    room: &mut Room,
    letters: &[u64],
    binders: &[u64],
    n: usize,
    e: usize,
) -> Result<usize, Refusal>
    requires base_len_bound { length base.now.words.now ≤ 4 * room.old.top }
    requires ready_rows { ReadyRows base.now.names.now (base.now.words.now ++ work.old) binders.now letters.now room.old.top room.old.left n }
    requires node { Node (base.now.words.now ++ work.old) room.old.top e }
    ensures { GivesLettered core 0 base.now.names.now letters.now (base.now.words.now ++ work.old) (base.now.words.now ++ work.new) room.old.top room.old.left
        (λ s. node_out 255 room.old.left s (dict_abs (binders_in base.now.names.now (base.now.words.now ++ work.old) binders.now 0 n) (core base.now.names.now (base.now.words.now ++ work.old) e))) (applied_of result room.new.top room.new.left) }
{
    let m = rows_from(base, work, room, letters, binders, 0, n)?;
    let m2 = crate::rename_core(base, work, room, letters, DEPTH - 1, e)?;
    Ok(cores::push_dict_abs(base, work, room, m, m2))
}

// The same with its step.
fn under_rows(
    base: &Base,
    work: &mut [u64],
    room: &mut Room,
    letters: &[u64],
    binders: &[u64],
    n: usize,
    e: usize,
) -> Result<usize, Refusal>
    requires base_len_bound { length base.now.words.now ≤ 4 * room.old.top }
    requires ready_rows { ReadyRows base.now.names.now (base.now.words.now ++ work.old) binders.now letters.now room.old.top room.old.left n }
    requires node { Node (base.now.words.now ++ work.old) room.old.top e }
    ensures { GivesLettered core 4 base.now.names.now letters.now (base.now.words.now ++ work.old) (base.now.words.now ++ work.new) room.old.top room.old.left
        (λ s. apply_core_in 256 s (dict_abs (binders_in base.now.names.now (base.now.words.now ++ work.old) binders.now 0 n) (core base.now.names.now (base.now.words.now ++ work.old) e)) room.old.left) (applied_of result room.new.top room.new.left) }
{
    if room.left == 0 {
        return Err(Refusal::Steps);
    }
    room.left -= 1;
    in_rows(base, work, room, letters, binders, n, e)
}

// `apply_subst_to_core` of the term e under the binders of the first n rows, for every substitution that makes words letters.
pub fn rename_abstracted(
    base: &Base,
    work: &mut [u64],
    room: &mut Room,
    letters: &[u64],
    binders: &[u64],
    n: usize,
    e: usize,
) -> Result<usize, Refusal>
    requires base_len_bound { length base.now.words.now ≤ 4 * room.old.top }
    requires ready_rows { ReadyRows base.now.names.now (base.now.words.now ++ work.old) binders.now letters.now room.old.top room.old.left n }
    requires node { Node (base.now.words.now ++ work.old) room.old.top e }
    ensures { GivesLettered core 4 base.now.names.now letters.now (base.now.words.now ++ work.old) (base.now.words.now ++ work.new) room.old.top room.old.left
        (λ s. apply_core_in 256 s (abstracted (binders_in base.now.names.now (base.now.words.now ++ work.old) binders.now 0 n) (core base.now.names.now (base.now.words.now ++ work.old) e)) room.old.left) (applied_of result room.new.top room.new.left) }
{
    let g = supers::rows::next_row(binders, 0, n);
    match g {
        Some(_) => under_rows(base, work, room, letters, binders, n, e),
        None => crate::rename_core(base, work, room, letters, DEPTH, e),
    }
}
