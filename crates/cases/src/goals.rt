// What resolution, reduction and the test of overlap ask of the words, tested.
ghost use Rattle.std.specs.Prelude.{◌≡◌, true, ◌++◌, ◌*◌, ◌<◌, ◌≤◌, length, get_or};
ghost use Rattle.ast.specs.Table.{Table, Node};
ghost use Rattle.instances.specs.Accepted.{Heads};
ghost use Rattle.cases.specs.Posed.{Short, Headed, Posed};

use crate::ready;
use ast::{Base, Cell, Room};

// Whether a list has at most so many predicates.
fn is_short(base: &Base, work: &[u64], top: usize, l: usize, most: usize) -> bool
    requires { Node (base.now.words.now ++ work.now) top l }
    ensures { result ≡ true → Short (base.now.words.now ++ work.now) l most }
{
    let c = ast::cell_at(base, work, l);
    match c {
        Cell::Nil => true,
        Cell::Cons(_, b) => {
            if most == 0 {
                return false;
            }
            is_short(base, work, top, b, most - 1)
        }
    }
}

// Whether the word of instance i is a list of the table with a first predicate.
fn has_head(base: &Base, work: &[u64], insts: &[u64], top: usize, i: usize) -> bool
    requires top_in_bounds { 4 * top ≤ length work.now }
    requires i_in_bounds { i < length insts.now }
    ensures { result ≡ true → Headed (base.now.words.now ++ work.now) top (get_or insts.now i 0) }
{
    let l = insts[i] as usize;
    if l >= names::NODE + top {
        return false;
    }
    let c = ast::cell_at(base, work, l);
    match c {
        Cell::Nil => false,
        Cell::Cons(_, _) => true,
    }
}

// Whether all instances are such lists.
fn have_heads(base: &Base, work: &[u64], insts: &[u64], top: usize) -> bool
    requires top_in_bounds { 4 * top ≤ length work.now }
    requires table { Table (base.now.words.now ++ work.now) top }
    ensures { result ≡ true → Heads (base.now.words.now ++ work.now) top insts.now }
{
    for i in 0..insts.len() {
        if !has_head(base, work, insts, top, i) {
            return false;
        }
    }
    true
}

// Whether the words are a case: instances, the context l of a head of class h, and a type t.
pub fn is_posed(
    base: &Base,
    work: &[u64],
    insts: &[u64],
    room: Room,
    h: usize,
    l: usize,
    t: usize,
) -> bool
    ensures { result ≡ true → Posed (base.now.words.now ++ work.now) (length work.now) insts.now room.top room.left h l t }
{
    if h >= 65536 {
        return false;
    }
    if ready::is_ready(base, work, room, l, t) {
        if is_short(base, work, room.top, l, 64) {
            return have_heads(base, work, insts, room.top);
        }
    }
    false
}
