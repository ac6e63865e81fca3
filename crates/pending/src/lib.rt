// Pending predicates of inference, as rows of a lent slice: `apply_preds_pending`, and what `generalize_binding` does with those that
// `reduce` left.
#![tactic(auto)]

ghost use Rattle.std.specs.Prelude.{◌≡◌, ◌++◌, ◌+◌, ◌*◌, ◌≤◌, length};
ghost use Rattle.pending.specs.Rows.{put_row};
ghost use Rattle.pending.specs.Swept.{ReadySweep, GivesSwept, GivesRows};
ghost use Rattle.pending.specs.Swept.{swept_of};

use ast::{Base, Room};
use errors::{DEPTH, Refusal};
use pairs::Subst;
use supers::rows::Row;

pub mod order;
pub mod own;

// Writes the words of row i.
// No heap: a row is three words of a lent slice, and the number of rows stands beside it.
pub fn put_row(binders: &mut [u64], i: usize, d: u64, c: u64, x: u64)
    requires { 3 * i + 3 ≤ length binders.old }
    ensures { binders.new ≡ put_row binders.old i d c x }
{
    let j = 3 * i;
    binders[j] = d;
    binders[j + 1] = c;
    binders[j + 2] = x;
}

// The pairs applied to the type of row i.
fn apply_row(
    base: &Base,
    work: &mut [u64],
    room: &mut Room,
    binders: &mut [u64],
    sub: Subst,
    i: usize,
) -> Result<(), Refusal>
    requires base_len_bound { length base.now.words.now ≤ 4 * room.old.top }
    requires ready_sweep { ReadySweep base.now.names.now (base.now.words.now ++ work.old) binders.old room.old.top room.old.left sub.at sub.k i (i + 1) }
    ensures { GivesSwept base.now.names.now (base.now.words.now ++ work.old) (base.now.words.now ++ work.new)
        binders.old binders.new room.old.top room.old.left sub.at sub.k i (i + 1) (swept_of result room.new.top room.new.left) }
{
    let q = supers::rows::row_at(binders, i);
    let Row::Pending(d, c, t) = q else {
        return Ok(());
    };
    let u = apply::apply(base, work, room, DEPTH, sub, t)?;
    put_row(binders, i, d as u64, c as u64, u as u64);
    Ok(())
}

// `apply_preds_pending`: the pairs applied to the types of the first n rows, in order.
pub fn apply_rows(
    base: &Base,
    work: &mut [u64],
    room: &mut Room,
    binders: &mut [u64],
    sub: Subst,
    n: usize,
) -> Result<(), Refusal>
    requires base_len_bound { length base.now.words.now ≤ 4 * room.old.top }
    requires ready_sweep { ReadySweep base.now.names.now (base.now.words.now ++ work.old) binders.old room.old.top room.old.left sub.at sub.k 0 n }
    ensures { GivesRows base.now.names.now (base.now.words.now ++ work.old) (base.now.words.now ++ work.new)
        binders.old binders.new room.old.top room.old.left sub.at sub.k n (swept_of result room.new.top room.new.left) }
{
    for i in 0..n {
        apply_row(base, work, room, binders, sub, i)?;
    }
    Ok(())
}
