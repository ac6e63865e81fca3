// Two substitutions side by side on the stack become one, in place: `compose` and `merge` of 002.
#![tactic(auto)]

ghost use Rattle.std.specs.Prelude.{◌≡◌, ◌++◌, ℕ, ◌+◌, ◌*◌, ◌-◌, ◌<◌, ◌≤◌, length};
ghost use Rattle.meaning.specs.Subst.{apply_values, compose, merge};
ghost use Rattle.names.specs.Names.{Names};
ghost use Rattle.pairs.specs.Pairs.{sub_at};
ghost use Rattle.compose.specs.Compose.{Place, Shifted, Opened, Added, Both, Merged, Swept, GivesSub, Regions, Agrees};
ghost use Rattle.apply.specs.Applied.{applied_of};

use ast::{Base, Room};
use errors::Refusal;
use pairs::Subst;

// Two substitutions side by side on the stack: k2 pairs from word lo, and k1 pairs after them.
#[derive(Clone, Copy)]
pub struct Beside {
    pub lo: usize,
    pub k2: usize,
    pub k1: usize,
}

// The k pairs that end at word hi.
#[derive(Clone, Copy)]
pub struct Ending {
    pub hi: usize,
    pub k: usize,
}

// How many of the pairs come before a new pair of the variable x.
fn place(base: &Base, work: &[u64], sub: Subst, x: usize) -> usize
    requires names { Names base.now.names.now }
    requires k_in_bounds { sub.at + 2 * sub.k ≤ length (base.now.words.now ++ work.now) }
    ensures { Place base.now.names.now (base.now.words.now ++ work.now) sub.at sub.k x result }
{
    for j in 0..sub.k {
        let y = ast::index(base, work, sub.at + 2 * j);
        if names::before(base.names, x, y) {
            return j;
        }
    }
    sub.k
}

// Moves the words from to + 2 up to end down by two.
fn shift(base: &Base, work: &mut [u64], to: usize, end: usize)
    requires base_len_bound { length base.now.words.now ≤ to }
    requires to_bound { to + 2 ≤ end }
    requires end_in_bounds { end ≤ length (base.now.words.now ++ work.old) }
    ensures { Shifted (base.now.words.now ++ work.old) (base.now.words.now ++ work.new) to end }
{
    for i in to..end - 2 {
        let v = ast::index(base, work, i + 2);
        pairs::put(base, work, i, v);
    }
}

// Writes the pair x, t at its place among the k pairs from to + 2, of which those before it move down.
fn insert(base: &Base, work: &mut [u64], to: usize, k: usize, x: usize, t: usize)
    requires names { Names base.now.names.now }
    requires base_len_bound { length base.now.words.now ≤ to }
    requires k_in_bounds { to + 2 + 2 * k ≤ length (base.now.words.now ++ work.old) }
    ensures { Opened base.now.names.now (base.now.words.now ++ work.old) (base.now.words.now ++ work.new) to k x t }
{
    let j = place(base, work, Subst { at: to + 2, k }, x);
    let i = to + 2 * j;
    shift(base, work, to, i + 2);
    pairs::put(base, work, i, x);
    pairs::put(base, work, i + 1, t);
}

// Adds the pair x, t to the pairs, if they have not the variable x; how many there are then.
fn add(base: &Base, work: &mut [u64], end: Ending, x: usize, t: usize) -> usize
    requires names { Names base.now.names.now }
    requires c_len_bound { length base.now.words.now + 2 * end.k + 2 ≤ end.hi }
    requires hi_in_bounds { end.hi ≤ length (base.now.words.now ++ work.old) }
    ensures { Added base.now.names.now (base.now.words.now ++ work.old) (base.now.words.now ++ work.new) end.hi end.k x t result }
{
    let at = end.hi - 2 * end.k;
    let f = pairs::find(base, work, Subst { at, k: end.k }, x);
    match f {
        Some(_) => end.k,
        None => {
            insert(base, work, at - 2, end.k, x, t);
            end.k + 1
        }
    }
}

// Adds the first pairs to those after them; how many there are then, up to where those ended.
fn merge_in(base: &Base, work: &mut [u64], sides: Beside) -> usize
    requires names { Names base.now.names.now }
    requires base_len_bound { length base.now.words.now ≤ sides.lo }
    requires k1_in_bounds { sides.lo + 2 * sides.k2 + 2 * sides.k1 ≤ length (base.now.words.now ++ work.old) }
    ensures { Merged base.now.names.now (base.now.words.now ++ work.old) (base.now.words.now ++ work.new) sides.lo sides.k2 sides.k1 result }
{
    let hi = sides.lo + 2 * sides.k2 + 2 * sides.k1;
    let mut c = sides.k1;
    for j in (0..sides.k2).rev() {
        let i = sides.lo + 2 * j;
        let x = ast::index(base, work, i);
        let t = ast::index(base, work, i + 1);
        c = add(base, work, Ending { hi, k: c }, x, t);
    }
    c
}

// Applies the first pairs to the types of those after them.
fn sweep(base: &Base, work: &mut [u64], room: &mut Room, sides: Beside) -> Result<(), Refusal>
    requires base_len_bound { length base.now.words.now ≤ 4 * room.old.top }
    requires both { Both base.now.names.now (base.now.words.now ++ work.old) room.old.top room.old.left sides.lo sides.k2 sides.k1 }
    ensures { Swept base.now.names.now (base.now.words.now ++ work.old) (base.now.words.now ++ work.new) room.old.top room.old.left sides.lo sides.k2 sides.k1
        (apply_values (sub_at base.now.names.now (base.now.words.now ++ work.old) sides.lo sides.k2) (sub_at base.now.names.now (base.now.words.now ++ work.old) (sides.lo + 2 * sides.k2) sides.k1) room.old.left) result room.new.top room.new.left }
{
    let sub = Subst {
        at: sides.lo,
        k: sides.k2,
    };
    let at = sides.lo + 2 * sides.k2;
    for i in 0..sides.k1 {
        let p = at + 2 * i + 1;
        let n = ast::index(base, work, p);
        let m = apply::apply(base, work, room, errors::DEPTH, sub, n)?;
        pairs::put(base, work, p, m);
    }
    Ok(())
}

// `self.compose(other)`: self is the first pairs, other those after them; in their place.
pub fn compose_in(
    base: &Base,
    work: &mut [u64],
    room: &mut Room,
    sides: Beside,
) -> Result<usize, Refusal>
    requires base_len_bound { length base.now.words.now ≤ 4 * room.old.top }
    requires both { Both base.now.names.now (base.now.words.now ++ work.old) room.old.top room.old.left sides.lo sides.k2 sides.k1 }
    ensures { GivesSub (4 * room.old.top + 8 * room.old.left + 2 * sides.k2 + 2 * sides.k1) base.now.names.now (base.now.words.now ++ work.old) (base.now.words.now ++ work.new) room.old.top room.old.left (sides.lo + 2 * sides.k2 + 2 * sides.k1)
        (compose (sub_at base.now.names.now (base.now.words.now ++ work.old) sides.lo sides.k2) (sub_at base.now.names.now (base.now.words.now ++ work.old) (sides.lo + 2 * sides.k2) sides.k1) room.old.left) (applied_of result room.new.top room.new.left) }
{
    sweep(base, work, room, sides)?;
    Ok(merge_in(base, work, sides))
}

// The pairs after the first ones against these, in their order: whether they agree, or two types of one variable that
// differ.
fn agree(base: &Base, work: &[u64], top: usize, sides: Beside) -> Result<(), Refusal>
    requires { Regions base.now.names.now (base.now.words.now ++ work.now) top sides.lo sides.k2 sides.k1 }
    ensures { Agrees base.now.names.now (base.now.words.now ++ work.now) top sides.lo sides.k2 sides.k1 result }
{
    let at = sides.lo + 2 * sides.k2;
    for i in 0..sides.k1 {
        let x = ast::index(base, work, at + 2 * i);
        let v = ast::index(base, work, at + 2 * i + 1);
        let f = pairs::find(
            base,
            work,
            Subst {
                at: sides.lo,
                k: sides.k2,
            },
            x,
        );
        if let Some(u) = f {
            if !ast::same(base, work, top, v, u) {
                return Err(Refusal::UnificationFailure(v, u));
            }
        }
    }
    Ok(())
}

// `self.merge(other)`: other is the first pairs, self those after them; in their place.
pub fn merge_pairs(
    base: &Base,
    work: &mut [u64],
    room: &mut Room,
    sides: Beside,
) -> Result<usize, Refusal>
    requires base_len_bound { length base.now.words.now ≤ 4 * room.old.top }
    requires both { Both base.now.names.now (base.now.words.now ++ work.old) room.old.top room.old.left sides.lo sides.k2 sides.k1 }
    ensures { GivesSub (4 * room.old.top + 8 * room.old.left + 2 * sides.k2 + 2 * sides.k1) base.now.names.now (base.now.words.now ++ work.old) (base.now.words.now ++ work.new) room.old.top room.old.left (sides.lo + 2 * sides.k2 + 2 * sides.k1)
        (merge (sub_at base.now.names.now (base.now.words.now ++ work.old) (sides.lo + 2 * sides.k2) sides.k1) (sub_at base.now.names.now (base.now.words.now ++ work.old) sides.lo sides.k2) room.old.left) (applied_of result room.new.top room.new.left) }
{
    agree(base, work, room.top, sides)?;
    Ok(merge_in(base, work, sides))
}
