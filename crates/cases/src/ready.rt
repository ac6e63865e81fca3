// What every case asks of the words, tested: a table, two words of it, and room for the steps.
ghost use Rattle.std.specs.Prelude.{◌≡◌, true, false, ◌++◌, ◌+◌, ◌*◌, ◌≤◌, length};
ghost use Rattle.ast.specs.Table.{ShapeBelow, CellBelow, Table};
ghost use Rattle.cases.specs.Tested.{Falls, Fits};

use ast::{Base, Cell, Room, Shape};

// Whether a type refers to a word that is not below t.
fn shape_rises(s: Shape, t: usize) -> bool
    ensures { result ≡ false → ShapeBelow t s }
{
    match s {
        Shape::Var(_) => false,
        Shape::Con(_, l) => l >= t,
        Shape::Arrow(a, b) => {
            if a >= t {
                return true;
            }
            b >= t
        }
    }
}

// Whether a list refers to a word that is not below t.
fn cell_rises(l: Cell, t: usize) -> bool
    ensures { result ≡ false → CellBelow t l }
{
    match l {
        Cell::Nil => false,
        Cell::Cons(a, b) => {
            if a >= t {
                return true;
            }
            b >= t
        }
    }
}

// Whether node n refers to a word that is not below its own.
fn rises(base: &Base, work: &[u64], n: usize) -> bool
    requires { 4 * n + 4 ≤ length work.now }
    ensures { result ≡ false → Falls (base.now.words.now ++ work.now) n }
{
    let t = names::NODE + n;
    let s = ast::shape_at(base, work, t);
    let l = ast::cell_at(base, work, t);
    if shape_rises(s, t) {
        return true;
    }
    cell_rises(l, t)
}

// Whether the first top nodes are a table.
fn is_table(base: &Base, work: &[u64], top: usize) -> bool
    requires { 4 * top ≤ length work.now }
    ensures { result ≡ true → Table (base.now.words.now ++ work.now) top }
{
    for n in 0..top {
        if rises(base, work, n) {
            return false;
        }
    }
    true
}

// Whether s and t are types of a table, and there is room for the steps.
pub fn is_ready(base: &Base, work: &[u64], room: Room, s: usize, t: usize) -> bool
    ensures { result ≡ true → Fits (base.now.words.now ++ work.now) (length work.now) room.top room.left s t }
{
    let n = work.len();
    if room.top > n / 4 {
        return false;
    }
    if room.left > (n - 4 * room.top) / 8 {
        return false;
    }
    let end = names::NODE + room.top;
    if s >= end {
        return false;
    }
    if t >= end {
        return false;
    }
    is_table(base, work, room.top)
}
