// The predicates of a case, read into the words as lists: contexts, and instances with their heads first. Nothing is asked
// of the file: `ready` tests what came of it.
use ast::{Base, Room};
use cases::input::Reader;
use cases::nodes;

// Pushes a predicate before a list, if there is room for a node; its word, or a variable's. No type of a case lies in a closed table.
fn push(work: &mut [u64], room: &mut Room, class: usize, t: usize, next: usize) -> usize {
    if !nodes::has_room(work, *room) {
        return 0;
    }
    let none = Base {
        words: &[],
        names: &[],
    };
    subst::add_pred(&none, work, room, class, t, next)
}

// Reads a list of predicates: how many, and each one's class and type.
pub fn list(reader: &mut Reader, work: &mut [u64], room: &mut Room, ids: &[u64]) -> usize {
    let n = reader.byte();
    nodes::list(reader, n, 4, |item, l| {
        let class = item.two();
        let t = nodes::id(item, ids);
        push(work, room, class, t, l)
    })
}

// Reads how many instances a case has, and the instances; the words of their lists.
pub fn instances<'a>(
    reader: &mut Reader,
    work: &mut [u64],
    room: &mut Room,
    ids: &[u64],
    insts: &'a mut [u64],
) -> &'a [u64] {
    let n = usize::from(reader.byte()).min(insts.len());
    for word in insts[..n].iter_mut() {
        *word = list(reader, work, room, ids) as u64;
    }
    &insts[..n]
}
