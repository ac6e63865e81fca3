// What rows replace: the word that the first row for a dictionary has.
ghost use Rattle.std.specs.Prelude.{◌≡◌, ◌+◌, ◌*◌, ◌≤◌, length};
ghost use Rattle.supers.specs.Rows.{row_at};
ghost use Rattle.terms.specs.Rows.{row_for, replacement_in};

use supers::rows::Row;

// The word by which row j replaces the dictionary of number d.
fn row_for(binders: &[u64], j: usize, d: usize) -> Option<usize>
    requires { 3 * j + 3 ≤ length binders.now }
    ensures { result ≡ row_for (row_at binders.now j) d }
{
    let q = supers::rows::row_at(binders, j);
    match q {
        Row::Pending(_, _, _) => None,
        Row::Replaced(c, x) => {
            if c == d {
                return Some(x);
            }
            None
        }
    }
}

// The word by which the first of n rows replaces the dictionary of number d; e if none does.
pub fn replacement(binders: &[u64], n: usize, d: usize, e: usize) -> usize
    requires { 3 * n ≤ length binders.now }
    ensures { result ≡ replacement_in binders.now 0 n d e }
{
    for j in 0..n {
        if let Some(x) = row_for(binders, j, d) {
            return x;
        }
    }
    e
}
