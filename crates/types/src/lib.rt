// Types of a session file: counted as trees, and taken into the table of nodes. The file shares nodes, so that a tree
// may be far larger than the file: counting stops at a limit.
#![tactic(auto)]

ghost use Rattle.std.specs.Prelude.{◌≡◌, List, ◌++◌, ℕ, ◌+◌, ◌*◌, ◌≤◌, length};
ghost use Rattle.meaning.specs.Ast.{size, sizes};
ghost use Rattle.ast.specs.Table.{tree, list};
ghost use Rattle.types.specs.Types.{row_of, type_of, part_of, parts_of};
ghost use Rattle.types.specs.Sizes.{Measured};
ghost use Rattle.types.specs.Taking.{Fits, Takes, taken};

use ast::{Base, Room};
use views::{File, TypeNode};

// The number in the table of names of the file's name v.
fn row_of(index: &[u64], v: usize) -> usize
    ensures { result ≡ row_of index.now v }
{
    let n = file::name_number(index, v);
    if n < 1059 {
        return n;
    }
    0
}

// How many nodes type i is as a tree; none where they are more than the limit.
#[cycle(part_within_parts_within_size_within)]
pub fn size_within(file: &File, i: usize, limit: usize) -> Option<usize>
    ensures { Measured (λ (ns : List ℕ). size (type_of file.now.src.now ns file.now.index.now i)) limit result }
{
    let left = limit.checked_sub(1)?;
    let Some(node) = views::type_at(*file, i) else {
        return Some(1);
    };
    match node {
        TypeNode::Var(_) => Some(1),
        TypeNode::Con(_, p, k) => {
            let n = parts_within(file, i, p, k, left)?;
            Some(n + 1)
        }
        TypeNode::Arrow(a, b) => {
            let m = part_within(file, i, a, left)?;
            let n = part_within(file, i, b, left - m)?;
            Some(m + n + 1)
        }
    }
}

// The same for the type of number j in type i.
#[cycle(part_within_parts_within_size_within)]
fn part_within(file: &File, i: usize, j: usize, limit: usize) -> Option<usize>
    ensures { Measured (λ (ns : List ℕ). size (part_of file.now.src.now ns file.now.index.now i j)) limit result }
{
    if j < i {
        return size_within(file, j, limit);
    }
    if limit == 0 {
        return None;
    }
    Some(1)
}

// The same for the k arguments from the place p on in type i, all together.
#[cycle(part_within_parts_within_size_within)]
fn parts_within(file: &File, i: usize, p: usize, k: usize, limit: usize) -> Option<usize>
    requires { p + 2 * k ≤ length file.now.src.now + 132 }
    ensures { Measured (λ (ns : List ℕ). sizes (parts_of file.now.src.now ns file.now.index.now i p k)) limit result }
{
    let mut count = 0;
    for j in 0..k {
        let n = part_within(
            file,
            i,
            views::number_at(file.src, p + 2 * j),
            limit - count,
        )?;
        count += n;
    }
    Some(count)
}

// Takes type i into the table, as a tree, and answers its word.
#[cycle(take_part_take_parts_take_type)]
pub fn take_type(base: &Base, work: &mut [u64], file: &File, room: &mut Room, i: usize) -> usize
    requires base_len_bound { length base.now.words.now ≤ 4 * room.old.top }
    requires fits { Fits (base.now.words.now ++ work.old) room.old.top (λ (ns : List ℕ). size (type_of file.now.src.now ns file.now.index.now i)) }
    ensures takes { Takes tree size 4 (base.now.words.now ++ work.old) (base.now.words.now ++ work.new) room.old.top
        (λ (ns : List ℕ). type_of file.now.src.now ns file.now.index.now i) (taken result room.new.top) }
    ensures left { room.new.left ≡ room.old.left }
{
    let Some(node) = views::type_at(*file, i) else {
        return 0;
    };
    match node {
        TypeNode::Var(x) => row_of(file.index, x),
        TypeNode::Con(c, p, k) => {
            let n = row_of(file.index, c);
            if k == 0 {
                return names::NULLARY + n;
            }
            let arguments = take_parts(base, work, file, room, i, p, k);
            ast::add(base, work, room, ast::CON, n, arguments)
        }
        TypeNode::Arrow(a, b) => {
            let from = take_part(base, work, file, room, i, a);
            let to = take_part(base, work, file, room, i, b);
            ast::add(base, work, room, ast::ARROW, from, to)
        }
    }
}

// Takes the type of number j in type i.
#[cycle(take_part_take_parts_take_type)]
fn take_part(
    base: &Base,
    work: &mut [u64],
    file: &File,
    room: &mut Room,
    i: usize,
    j: usize,
) -> usize
    requires base_len_bound { length base.now.words.now ≤ 4 * room.old.top }
    requires fits { Fits (base.now.words.now ++ work.old) room.old.top (λ (ns : List ℕ). size (part_of file.now.src.now ns file.now.index.now i j)) }
    ensures takes { Takes tree size 4 (base.now.words.now ++ work.old) (base.now.words.now ++ work.new) room.old.top
        (λ (ns : List ℕ). part_of file.now.src.now ns file.now.index.now i j) (taken result room.new.top) }
    ensures left { room.new.left ≡ room.old.left }
{
    if j < i {
        return take_type(base, work, file, room, j);
    }
    0
}

// Takes the k arguments from the place p on in type i, as a list. (By recursion: a list's cells are written from its end,
// after all arguments.)
#[cycle(take_part_take_parts_take_type)]
fn take_parts(
    base: &Base,
    work: &mut [u64],
    file: &File,
    room: &mut Room,
    i: usize,
    p: usize,
    k: usize,
) -> usize
    requires base_len_bound { length base.now.words.now ≤ 4 * room.old.top }
    requires k_in_bounds { p + 2 * k ≤ length file.now.src.now + 132 }
    requires fits { Fits (base.now.words.now ++ work.old) room.old.top (λ (ns : List ℕ). sizes (parts_of file.now.src.now ns file.now.index.now i p k)) }
    ensures takes { Takes list sizes 0 (base.now.words.now ++ work.old) (base.now.words.now ++ work.new) room.old.top
        (λ (ns : List ℕ). parts_of file.now.src.now ns file.now.index.now i p k) (taken result room.new.top) }
    ensures left { room.new.left ≡ room.old.left }
{
    if k == 0 {
        return ast::NIL;
    }
    let j = views::number_at(file.src, p);
    let first = take_part(base, work, file, room, i, j);
    let rest = take_parts(base, work, file, room, i, p + 2, k - 1);
    ast::add(base, work, room, ast::CONS, first, rest)
}
