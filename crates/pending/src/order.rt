// Rows that change places.
ghost use Rattle.std.specs.Prelude.{◌+◌, ◌*◌, ◌≤◌, length};
ghost use Rattle.pending.specs.Rows.{Swapped, Rotated};

// Rows k and k + 1 change places.
fn swap_rows(binders: &mut [u64], k: usize)
    requires { 3 * k + 6 ≤ length binders.old }
    ensures { Swapped binders.old binders.new k }
{
    let i = 3 * k;
    let d = binders[i];
    let c = binders[i + 1];
    let x = binders[i + 2];
    let e = binders[i + 3];
    let b = binders[i + 4];
    let y = binders[i + 5];
    crate::put_row(binders, k, e, b, y);
    crate::put_row(binders, k + 1, d, c, x);
}

// Row i moves to number a, and the rows from a up to i one up.
pub fn rotate(binders: &mut [u64], a: usize, i: usize)
    requires a_le_i { a ≤ i }
    requires i_in_bounds { 3 * i + 3 ≤ length binders.old }
    ensures { Rotated binders.old binders.new a i }
{
    for k in (a..i).rev() {
        swap_rows(binders, k);
    }
}
