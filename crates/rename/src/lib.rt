// Types whose variables become other variables: `apply_type` of a substitution that only renames, of which no pair is written.
#![tactic(auto)]

ghost use Rattle.std.specs.Prelude.{◌≡◌, ◌++◌, ◌+◌, ◌*◌, ◌<◌, ◌≤◌, length};
ghost use Rattle.rename.specs.Renaming.{first_letter, or_word, pos_at, renamed_word};
ghost use Rattle.rename.specs.Renamed.{Renaming, ReadyRename, TypeRenamed, ListRenamed};
ghost use Rattle.apply.specs.Applied.{applied_of};

use ast::{Base, Cell, Room, Shape};
use errors::Refusal;

// The number of the name of the letter `a`; the other letters follow.
const LETTER: usize = 9;

// The k-th letter where x is the k-th of the words, else x.
fn letter_of(letters: &[u64], x: usize) -> usize
    requires { length letters.now ≤ 26 }
    ensures { result ≡ or_word first_letter x (pos_at letters.now x) }
{
    for (k, y) in letters.iter().enumerate() {
        if *y as usize == x {
            return LETTER + k;
        }
    }
    x
}

// What the variable's word x becomes: the i-th of the list vs becomes to + i, the i-th of the words the i-th letter.
pub fn renamed(
    base: &Base,
    work: &[u64],
    letters: &[u64],
    top: usize,
    vs: usize,
    to: usize,
    x: usize,
) -> usize
    requires { Renaming (base.now.words.now ++ work.now) letters.now top vs to }
    ensures { result ≡ renamed_word (base.now.words.now ++ work.now) vs to letters.now x }
{
    let mut l = vs;
    let mut i: usize = 0;
    // No heap: the list is cells of the table, which no iterator walks.
    while let Cell::Cons(a, b) = ast::cell_at(base, work, l) {
        if a == x {
            return to + i;
        }
        l = b;
        i += 1;
    }
    letter_of(letters, x)
}

// The type t with each variable's word renamed: `apply_type` of every substitution that does the same, with so much depth left.
#[cycle(rename_rename_list)]
pub fn rename(
    base: &Base,
    work: &mut [u64],
    room: &mut Room,
    letters: &[u64],
    depth: usize,
    vs: usize,
    to: usize,
    t: usize,
) -> Result<usize, Refusal>
    requires base_len_bound { length base.now.words.now ≤ 4 * room.old.top }
    requires ready_rename { ReadyRename base.now.names.now (base.now.words.now ++ work.old) letters.now room.old.top room.old.left vs to t }
    ensures { TypeRenamed base.now.names.now (base.now.words.now ++ work.old) (base.now.words.now ++ work.new) letters.now room.old.top room.old.left depth vs to t (applied_of result room.new.top room.new.left) }
{
    if depth == 0 {
        return Err(Refusal::Depth);
    }
    if room.left == 0 {
        return Err(Refusal::Steps);
    }
    let d = depth - 1;
    room.left -= 1;
    let s = ast::shape_at(base, work, t);
    match s {
        Shape::Var(x) => Ok(renamed(base, work, letters, room.top, vs, to, x)),
        Shape::Con(c, b) => {
            if b == ast::NIL {
                return Ok(t);
            }
            let m = rename_list(base, work, room, letters, d, vs, to, b)?;
            Ok(ast::add(base, work, room, ast::CON, c, m))
        }
        Shape::Arrow(a, b) => {
            let m = rename(base, work, room, letters, d, vs, to, a)?;
            let n = rename(base, work, room, letters, d, vs, to, b)?;
            Ok(ast::add(base, work, room, ast::ARROW, m, n))
        }
    }
}

// Each type of the list n with its variables renamed, left to right.
#[cycle(rename_rename_list)]
pub fn rename_list(
    base: &Base,
    work: &mut [u64],
    room: &mut Room,
    letters: &[u64],
    depth: usize,
    vs: usize,
    to: usize,
    n: usize,
) -> Result<usize, Refusal>
    requires base_len_bound { length base.now.words.now ≤ 4 * room.old.top }
    requires ready_rename { ReadyRename base.now.names.now (base.now.words.now ++ work.old) letters.now room.old.top room.old.left vs to n }
    ensures { ListRenamed base.now.names.now (base.now.words.now ++ work.old) (base.now.words.now ++ work.new) letters.now room.old.top room.old.left depth vs to n (applied_of result room.new.top room.new.left) }
{
    let c = ast::cell_at(base, work, n);
    match c {
        Cell::Nil => Ok(n),
        Cell::Cons(a, b) => {
            let m = rename(base, work, room, letters, depth, vs, to, a)?;
            let l = rename_list(base, work, room, letters, depth, vs, to, b)?;
            Ok(ast::add(base, work, room, ast::CONS, m, l))
        }
    }
}
