// Binders as rows of a lent slice, of which some were replaced. No heap: a row is three words of that slice.
ghost use Rattle.std.specs.Prelude.{◌≡◌, Ok, None, ◌++◌, ◌+◌, ◌*◌, ◌≤◌, length};
ghost use Rattle.meaning.specs.Ast.{pred};
ghost use Rattle.meaning.specs.Reduce.{find_super_proof};
ghost use Rattle.names.specs.Names.{name_of};
ghost use Rattle.ast.specs.Table.{tree};
ghost use Rattle.supers.specs.Givens.{GivensReady, GivenAt};
ghost use Rattle.supers.specs.Rows.{row_at, binders_in, RowsFit, NextRow};
ghost use Rattle.supers.specs.Searched.{searched_of};
ghost use Rattle.supers.specs.Search.{ReadyIn, GivesFound};

use crate::{Given, Source};
use ast::{Base, Room};
use errors::Refusal;

// The class of a row that was replaced.
pub const MARK: u64 = 18446744073709551615;

// A row: a dictionary's number, its class and its type; or the number and what replaces it.
#[derive(Clone, Copy)]
pub enum Row {
    Pending(usize, usize, usize),
    Replaced(usize, usize),
}

// Row number j: all reading of a row's words.
pub fn row_at(binders: &[u64], j: usize) -> Row
    requires { 3 * j + 3 ≤ length binders.now }
    ensures { result ≡ row_at binders.now j }
{
    let i = 3 * j;
    let d = binders[i] as usize;
    let c = binders[i + 1];
    let x = binders[i + 2] as usize;
    if c == MARK {
        return Row::Replaced(d, x);
    }
    Row::Pending(d, c as usize, x)
}

// The first row from number j up to number n that was not replaced.
pub fn next_row(binders: &[u64], j: usize, n: usize) -> Option<Given>
    requires { RowsFit binders.now n }
    ensures { NextRow binders.now j n result }
{
    for k in j..n {
        let q = row_at(binders, k);
        if let Row::Pending(d, c, t) = q {
            return Some(Given {
                dict: names::FRESH + d,
                class: c,
                ty: t,
                rest: k + 1,
            });
        }
    }
    None
}

// The first given from l on, which is the i-th.
pub fn given_in(
    base: &Base,
    work: &[u64],
    binders: &[u64],
    top: usize,
    source: Source,
    l: usize,
    i: usize,
) -> Option<Given>
    requires { GivensReady base.now.names.now (base.now.words.now ++ work.now) binders.now top source i l }
    ensures { GivenAt base.now.names.now (base.now.words.now ++ work.now) binders.now top source i l result }
{
    match source {
        Source::Listed(root) => crate::listed_at(base, work, top, root, l, i),
        Source::Rows(n) => next_row(binders, l, n),
    }
}

// `find_super_proof` over the first n rows: the first projection of a pending one that is the goal.
pub fn find_super_row(
    base: &Base,
    work: &mut [u64],
    room: &mut Room,
    classes: &[u64],
    binders: &[u64],
    sp: usize,
    n: usize,
    goal: usize,
    t: usize,
) -> Result<Option<usize>, Refusal>
    requires base_len_bound { length base.now.words.now ≤ 4 * room.old.top }
    requires ready_in { ReadyIn base.now.names.now (base.now.words.now ++ work.old) binders.now room.old.top room.old.left sp (Source.Rows n) 0 0 t }
    ensures gives { GivesFound base.now.names.now classes.now (base.now.words.now ++ work.old) (base.now.words.now ++ work.new) room.old.top room.old.left sp
        (λ ce. find_super_proof ce (binders_in base.now.names.now (base.now.words.now ++ work.old) binders.now 0 n)
        (pred (name_of base.now.names.now goal) (tree base.now.names.now (base.now.words.now ++ work.old) t)) room.old.left) (searched_of result room.new.top room.new.left) }
    ensures stays { result ≡ Ok None → room.new.top ≡ room.old.top }
{
    crate::search_in(
        base,
        work,
        room,
        classes,
        binders,
        sp,
        Source::Rows(n),
        0,
        true,
        goal,
        t,
    )
}
