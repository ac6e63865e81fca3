// `reduce` of 001 over words: the dictionaries of binders, which are rows of a lent slice.
#![tactic(auto)]

ghost use Rattle.std.specs.Prelude.{◌≡◌, Ok, None, ◌++◌, ◌+◌, ◌*◌, ◌≤◌, length};
ghost use Rattle.meaning.specs.Ast.{pred};
ghost use Rattle.meaning.specs.Reduce as M;
ghost use Rattle.names.specs.Names.{name_of, first_node};
ghost use Rattle.ast.specs.Table.{tree};
ghost use Rattle.supers.specs.Givens.{givens_of};
ghost use Rattle.supers.specs.Rows.{row_at};
ghost use Rattle.resolve.specs.Resolves.{Declared, ReadyResolve};
ghost use Rattle.supers.specs.Searched.{searched_of};
ghost use Rattle.reduce.specs.Reduced.{reduced_of};
ghost use Rattle.reduce.specs.Reduces.{preds_in, marked, row_out, must, ReadyReduce, HeadNormal, GivesOne, GivesRow, GivesReduced};

use ast::{Base, Room, Shape};
use errors::{DEPTH, Refusal};
use resolve::Rules;
use supers::Root;
use supers::rows::Row;

// `is_head_normal`: whether the type t is a variable.
fn is_head_normal(base: &Base, work: &[u64], t: usize) -> bool
    requires { 4 * t + 4 ≤ 4 * first_node + length (base.now.words.now ++ work.now) }
    ensures { HeadNormal (base.now.words.now ++ work.now) t result }
{
    let s = ast::shape_at(base, work, t);
    match s {
        Shape::Var(_) => true,
        Shape::Con(_, _) => false,
        Shape::Arrow(_, _) => false,
    }
}

// The dictionary of class c at t, which there must be.
fn must_resolve(
    base: &Base,
    work: &mut [u64],
    room: &mut Room,
    rules: Rules,
    sp: usize,
    root: Root,
    l: usize,
    c: usize,
    t: usize,
) -> Result<Option<usize>, Refusal>
    requires base_len_bound { length base.now.words.now ≤ 4 * room.old.top }
    requires ready_resolve { ReadyResolve base.now.names.now (base.now.words.now ++ work.old) rules.insts.now room.old.top room.old.left sp root l t }
    ensures gives { GivesOne (Declared base.now.names.now rules.entry.classes.now (base.now.words.now ++ work.old) room.old.top rules.entry.insts.now)
        base.now.names.now (base.now.words.now ++ work.old) (base.now.words.now ++ work.new) room.old.top room.old.left sp
        (λ ce. must ce (givens_of base.now.names.now (base.now.words.now ++ work.old) root 0 l)
        (pred (name_of base.now.names.now c) (tree base.now.names.now (base.now.words.now ++ work.old) t)) room.old.left) (searched_of result room.new.top room.new.left) }
    ensures stays { result ≡ Ok None → room.new.top ≡ room.old.top }
{
    let e = resolve::resolve(base, work, room, rules, DEPTH, sp, root, l, c, t)?;
    Ok(Some(e))
}

// One predicate, of class c at t: where t is a variable it is looked for in the givens alone.
fn reduce_one(
    base: &Base,
    work: &mut [u64],
    room: &mut Room,
    rules: Rules,
    sp: usize,
    root: Root,
    l: usize,
    c: usize,
    t: usize,
) -> Result<Option<usize>, Refusal>
    requires base_len_bound { length base.now.words.now ≤ 4 * room.old.top }
    requires ready_resolve { ReadyResolve base.now.names.now (base.now.words.now ++ work.old) rules.insts.now room.old.top room.old.left sp root l t }
    ensures gives { GivesOne (Declared base.now.names.now rules.entry.classes.now (base.now.words.now ++ work.old) room.old.top rules.entry.insts.now)
        base.now.names.now (base.now.words.now ++ work.old) (base.now.words.now ++ work.new) room.old.top room.old.left sp
        (λ ce. M.reduce_one ce (givens_of base.now.names.now (base.now.words.now ++ work.old) root 0 l)
        (pred (name_of base.now.names.now c) (tree base.now.names.now (base.now.words.now ++ work.old) t)) room.old.left) (searched_of result room.new.top room.new.left) }
    ensures stays { result ≡ Ok None → room.new.top ≡ room.old.top }
{
    if is_head_normal(base, work, t) {
        return supers::resolve_from_givens(base, work, room, rules.classes, sp, root, l, c, t);
    }
    must_resolve(base, work, room, rules, sp, root, l, c, t)
}

// Row j is replaced by the dictionary e.
fn mark_row(binders: &mut [u64], j: usize, e: usize)
    requires { 3 * j + 3 ≤ length binders.old }
    ensures { binders.new ≡ marked binders.old j e }
{
    let i = 3 * j;
    binders[i + 1] = supers::rows::MARK;
    binders[i + 2] = e as u64;
}

// Row j: where it is pending and a dictionary is found, that replaces it.
fn reduce_row(
    base: &Base,
    work: &mut [u64],
    room: &mut Room,
    rules: Rules,
    binders: &mut [u64],
    sp: usize,
    root: Root,
    l: usize,
    j: usize,
) -> Result<(), Refusal>
    requires base_len_bound { length base.now.words.now ≤ 4 * room.old.top }
    requires ready_reduce { ReadyReduce base.now.names.now (base.now.words.now ++ work.old) rules.insts.now binders.old room.old.top room.old.left sp root l j (j + 1) }
    ensures { GivesRow (Declared base.now.names.now rules.entry.classes.now (base.now.words.now ++ work.old) room.old.top rules.entry.insts.now)
        base.now.names.now (base.now.words.now ++ work.old) (base.now.words.now ++ work.new) binders.old binders.new room.old.top room.old.left sp j
        (λ ce. row_out base.now.names.now (base.now.words.now ++ work.old) ce
        (givens_of base.now.names.now (base.now.words.now ++ work.old) root 0 l) (row_at binders.old j) room.old.left) (reduced_of result room.new.top room.new.left) }
{
    let q = supers::rows::row_at(binders, j);
    let Row::Pending(_, c, t) = q else {
        return Ok(());
    };
    let r = reduce_one(base, work, room, rules, sp, root, l, c, t)?;
    if let Some(e) = r {
        mark_row(binders, j, e);
    }
    Ok(())
}

// `reduce`: the first n rows one after the other. Those for which a dictionary is found are replaced, the others stay.
pub fn reduce(
    base: &Base,
    work: &mut [u64],
    room: &mut Room,
    rules: Rules,
    binders: &mut [u64],
    sp: usize,
    root: Root,
    l: usize,
    n: usize,
) -> Result<(), Refusal>
    requires base_len_bound { length base.now.words.now ≤ 4 * room.old.top }
    requires ready_reduce { ReadyReduce base.now.names.now (base.now.words.now ++ work.old) rules.insts.now binders.old room.old.top room.old.left sp root l 0 n }
    ensures { GivesReduced (Declared base.now.names.now rules.entry.classes.now (base.now.words.now ++ work.old) room.old.top rules.entry.insts.now)
        base.now.names.now (base.now.words.now ++ work.old) (base.now.words.now ++ work.new) binders.old binders.new room.old.top room.old.left sp n
        (λ ce. M.reduce ce (givens_of base.now.names.now (base.now.words.now ++ work.old) root 0 l)
        (preds_in base.now.names.now (base.now.words.now ++ work.old) binders.old 0 n) room.old.left) (reduced_of result room.new.top room.new.left) }
{
    for j in 0..n {
        reduce_row(base, work, room, rules, binders, sp, root, l, j)?;
    }
    Ok(())
}
