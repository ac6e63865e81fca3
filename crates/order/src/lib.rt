// The numbers of the names of a session in the byte order of the names. A row whose first word is zero holds no name, only its
// own number; such rows come first and in rising order, so only the others are moved about.
#![tactic(auto)]

ghost use Rattle.std.specs.Prelude.{◌≡◌, ◌+◌, ◌<◌, length};
ghost use Rattle.meaning.specs.Ast.{name_before};
ghost use Rattle.names.specs.Names.{Names, name_of};
ghost use Rattle.order.specs.Sorting.{due, chosen, Low, Gathered, Room, Inserted, Passed, Ordered};

// How many rows the table of names has.
const ROWS: usize = 1059;

// Whether the name of row i lies before that of row j.
pub fn name_less(names: &[u64], i: usize, j: usize) -> bool
    requires i_bound { i < 1059 }
    requires j_bound { j < 1059 }
    ensures { result ≡ name_before (name_of names.now i) (name_of names.now j) }
{
    names::before(names, i, j)
}

// Moves numbers up from the end of the first k, as long as their names do not lie before that of r; the gap's place.
// No heap: the library's sorts ask for memory, so each number is inserted by hand.
fn make_room(names: &[u64], order: &mut [u64], k: usize, r: usize) -> usize
    requires r_bound { r < 1059 }
    requires k_in_bounds { k < length order.old }
    requires low { Low order.old k }
    ensures { Room names.now order.old order.new k r result }
{
    for i in (0..k).rev() {
        let x = order[i];
        if name_less(names, x as usize, r) {
            return i + 1;
        }
        order[i + 1] = x;
    }
    0
}

// Puts r among the first k numbers, which are in order.
fn insert(names: &[u64], order: &mut [u64], k: usize, r: usize)
    requires r_bound { r < 1059 }
    requires k_in_bounds { k < length order.old }
    requires low { Low order.old k }
    ensures { Inserted names.now order.old order.new k r }
{
    let i = make_room(names, order, k, r);
    order[i] = r as u64;
}

// Whether a pass takes row r: that over the idle rows, or that over the others.
fn is_due(names: &[u64], low: bool, r: usize) -> bool
    requires names_len { length names.now ≡ 4236 }
    requires r_bound { r < 1059 }
    ensures { result ≡ due names.now low r }
{
    let w = names[4 * r];
    if w == 0 {
        return low;
    }
    !low
}

// Inserts row r among the first k numbers, if the pass takes it; how many numbers there are then.
fn step(names: &[u64], order: &mut [u64], k: usize, low: bool, r: usize) -> usize
    requires names { Names names.now }
    requires names_len { length names.now ≡ 4236 }
    requires order_len { length order.old ≡ 1059 }
    requires r_bound { r < 1059 }
    requires gathered { Gathered names.now order.old k (chosen names.now low r) }
    ensures { Passed names.now order.old order.new low (r + 1) result }
{
    if is_due(names, low, r) {
        insert(names, order, k, r);
        return k + 1;
    }
    k
}

// Inserts all rows that the pass takes among the first k numbers; how many numbers there are then.
fn pass(names: &[u64], order: &mut [u64], k: usize, low: bool) -> usize
    requires names { Names names.now }
    requires names_len { length names.now ≡ 4236 }
    requires order_len { length order.old ≡ 1059 }
    requires gathered { Gathered names.now order.old k (chosen names.now low 0) }
    ensures { Passed names.now order.old order.new low 1059 result }
{
    let mut m = k;
    for r in 0..ROWS {
        m = step(names, order, m, low, r);
    }
    m
}

// Writes the numbers of all names in the byte order of the names.
pub fn sort_names(names: &[u64], order: &mut [u64])
    requires names { Names names.now }
    requires names_len { length names.now ≡ 4236 }
    requires order_len { length order.old ≡ 1059 }
    ensures { Ordered names.now order.old order.new }
{
    let m = pass(names, order, 0, true);
    pass(names, order, m, false);
}
