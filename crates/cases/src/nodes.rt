// The nodes of a case, read into the words as a table of types. Nothing is asked of the file: `ready` tests what came of it.
ghost use Rattle.std.specs.Prelude.{◌≡◌, ◌+◌, ◌*◌, ◌≤◌, ◌↔◌, length, drop, IsTrue};

use crate::input::Reader;
use ast::{Base, Room};

// The word of the node whose number stands next, if it is one of those that were read; otherwise a variable's.
pub fn id(reader: &mut Reader, ids: &[u64]) -> usize {
    match ids.get(reader.two()) {
        Some(word) => *word as usize,
        None => 0,
    }
}

// Whether there is room for one more node.
pub fn has_room(work: &[u64], room: Room) -> bool
    ensures { IsTrue result ↔ (4 * room.top + 4 ≤ length work.now) }
{
    room.top < work.len() / 4
}

// Pushes a node, if there is room for one; its word, or a variable's. No type of a case lies in a closed table.
fn push(work: &mut [u64], room: &mut Room, tag: u64, a: usize, b: usize) -> usize {
    if !has_room(work, *room) {
        return 0;
    }
    let none = Base {
        words: &[],
        names: &[],
    };
    ast::add(&none, work, room, tag, a, b)
}

// Makes the list of the n items that stand next, of so many bytes each, from the last one on: `cons` reads an item and puts
// it before a list.
pub fn list<F: FnMut(&mut Reader, usize) -> usize>(
    reader: &mut Reader,
    n: u8,
    size: usize,
    mut cons: F,
) -> usize
    requires size_bound { size ≤ 4 }
    requires callable { (state : F) (item : _) (l : _) → F.pre state item l }
    ensures { reader.new.rest.now ≡ drop (size * n) reader.old.rest.now }
{
    let n = usize::from(n);
    let mut l = ast::NIL;
    for j in (0..n).rev() {
        let mut item = *reader;
        item.bytes(size * j);
        l = cons(&mut item, l);
    }
    reader.bytes(size * n);
    l
}

// A constructor: its name, how many arguments, their numbers.
fn con(reader: &mut Reader, work: &mut [u64], room: &mut Room, ids: &[u64]) -> usize {
    let c = reader.two();
    let n = reader.byte();
    if n == 0 {
        return names::NULLARY + c;
    }
    let l = list(reader, n, 2, |item, l| {
        let a = id(item, ids);
        push(work, room, ast::CONS, a, l)
    });
    push(work, room, ast::CON, c, l)
}

// An arrow: two numbers.
fn arrow(reader: &mut Reader, work: &mut [u64], room: &mut Room, ids: &[u64]) -> usize {
    let a = id(reader, ids);
    let b = id(reader, ids);
    push(work, room, ast::ARROW, a, b)
}

// A node of a case: a named variable, a made one, a constructor or an arrow.
fn node(reader: &mut Reader, work: &mut [u64], room: &mut Room, ids: &[u64]) -> usize {
    match reader.byte() {
        0 => reader.two(),
        1 => names::FRESH + reader.four(),
        2 => con(reader, work, room, ids),
        _ => arrow(reader, work, room, ids),
    }
}

// Reads how many nodes a case has, and the nodes; their words, by their numbers.
pub fn read<'a>(
    reader: &mut Reader,
    work: &mut [u64],
    room: &mut Room,
    ids: &'a mut [u64],
) -> &'a [u64] {
    let n = reader.two().min(ids.len());
    for k in 0..n {
        let word = node(reader, work, room, &ids[..k]);
        ids[k] = word as u64;
    }
    &ids[..n]
}
