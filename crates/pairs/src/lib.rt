// Substitutions as pairs on the stack: a variable's word and a type's word each.
#![tactic(auto)]

ghost use Rattle.std.specs.Prelude.{◌≡◌, ◌++◌, ℕ, ◌+◌, ◌*◌, ◌-◌, ◌<◌, ◌≤◌, length, set};
ghost use Rattle.pairs.specs.Pairs.{find_at};
ghost use Rattle.pairs.specs.Made.{Empty, Single};

use ast::Base;

// A substitution: k pairs of the stack from word at.
#[derive(Clone, Copy)]
pub struct Subst {
    pub at: usize,
    pub k: usize,
}

impl Subst {
    // No pairs, where the stack ends at sp.
    pub fn empty(sp: usize) -> Subst
        ensures { Empty sp result.at result.k }
    {
        Subst { at: sp, k: 0 }
    }

    // One pair, written just below where the stack ends: the variable of word v becomes the type t.
    pub fn singleton(base: &Base, work: &mut [u64], sp: usize, v: usize, t: usize) -> Subst
        requires base_len_bound { length base.now.words.now + 2 ≤ sp }
        requires sp_in_bounds { sp ≤ length (base.now.words.now ++ work.old) }
        ensures { Single (base.now.words.now ++ work.old) (base.now.words.now ++ work.new) sp v t result.at result.k }
    {
        put(base, work, sp - 2, v);
        put(base, work, sp - 1, t);
        Subst { at: sp - 2, k: 1 }
    }
}

// The type that the pairs have for the variable of word x.
pub fn find(base: &Base, work: &[u64], sub: Subst, x: usize) -> Option<usize>
    requires { sub.at + 2 * sub.k ≤ length (base.now.words.now ++ work.now) }
    ensures { result ≡ find_at (base.now.words.now ++ work.now) sub.at sub.k x }
{
    for j in 0..sub.k {
        let i = sub.at + 2 * j;
        if ast::index(base, work, i) == x {
            return Some(ast::index(base, work, i + 1));
        }
    }
    None
}

// Writes a word of the lent buffer, by its place among all words.
pub fn put(base: &Base, work: &mut [u64], i: usize, v: usize)
    requires base_len_bound { length base.now.words.now ≤ i }
    requires i_in_bounds { i < length (base.now.words.now ++ work.old) }
    ensures { base.now.words.now ++ work.new ≡ set (base.now.words.now ++ work.old) i v }
{
    let j = i - base.words.len();
    work[j] = v as u64;
}
