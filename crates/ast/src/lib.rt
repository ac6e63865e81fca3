// Types as words over a closed table and the lent buffer behind it, in which a table of nodes grows from below.
// No heap: a node is words of the buffer, and names others by their words.
#![tactic(auto)]

ghost use Rattle.std.specs.Prelude.{◌≡◌, List, ◌++◌, ℕ, ◌+◌, ◌*◌, ◌<◌, ◌≤◌, length, get_or};
ghost use Rattle.meaning.specs.Base.{is_yes};
ghost use Rattle.meaning.specs.Ast.{same_ty, int, bool};
ghost use Rattle.meaning.specs.Subst.{occurs, occurs_in};
ghost use Rattle.names.specs.Names.{Names, tyvar_of, first_node};
ghost use Rattle.ast.specs.Table.{shape, cell, shape_of, cell_of, tree, list, Node, pushed, Counted, SameTys, Stands};

use names::Kind;

// What a type is: a variable by its word, a constructor's name with the list of its arguments, an arrow.
#[derive(Clone, Copy)]
pub enum Shape {
    Var(usize),
    Con(usize, usize),
    Arrow(usize, usize),
}

// What a list of types is.
#[derive(Clone, Copy)]
pub enum Cell {
    Nil,
    Cons(usize, usize),
}

// The empty list of types.
pub const NIL: usize = 0;

// The tags of nodes: a constructor and its arguments, an arrow, a first type and the rest of a list.
pub const CON: u64 = 1;

pub const ARROW: u64 = 2;

pub const CONS: u64 = 3;

// The numbers of the names of the two built-in types.
pub const INT: usize = 0;

pub const BOOL: usize = 1;

// A type by its word.
#[derive(Clone, Copy)]
pub struct Type {
    pub word: usize,
}

impl Type {
    // The built-in type of whole numbers.
    pub fn int() -> Type
        ensures { Stands result.word int }
    {
        Type {
            word: names::NULLARY + INT,
        }
    }

    // The built-in type of truth values.
    pub fn bool() -> Type
        ensures { Stands result.word bool }
    {
        Type {
            word: names::NULLARY + BOOL,
        }
    }
}

// What is lent and never written: the words of the closed table, and the table of names.
// The buffer stays beside it, and with it the clause `base_len_bound` in each contract: a struct with a `&mut` in it makes
// each function promise that it keeps that reference, which is no plainer.
#[derive(Clone, Copy)]
pub struct Base<'a> {
    pub words: &'a [u64],
    pub names: &'a [u64],
}

// The first free node, and the steps left.
#[derive(Clone, Copy)]
pub struct Room {
    pub top: usize,
    pub left: usize,
}

// A word of the two tables.
pub fn get(base: &Base, work: &[u64], i: usize) -> u64
    requires { i < length (base.now.words.now ++ work.now) }
    ensures { result ≡ get_or (base.now.words.now ++ work.now) i 0 }
{
    let n = base.words.len();
    if i < n {
        return base.words[i];
    }
    let j = i - n;
    work[j]
}

// A word of the two tables, as a type's word or an index.
pub fn index(base: &Base, work: &[u64], i: usize) -> usize
    requires { i < length (base.now.words.now ++ work.now) }
    ensures { result ≡ get_or (base.now.words.now ++ work.now) i 0 }
{
    get(base, work, i) as usize
}

// The words of a node: its tag and two more.
#[derive(Clone, Copy)]
struct Words {
    tag: u64,
    a: u64,
    b: u64,
}

// The words of node n, each wherever it lies. (Never inlined: the walks below then have one short way for nodes of the buffer.)
#[inline(never)]
fn words_anywhere(base: &Base, work: &[u64], n: usize) -> Words
    requires { 4 * n + 4 ≤ length (base.now.words.now ++ work.now) }
    ensures tag { result.tag ≡ get_or (base.now.words.now ++ work.now) (4 * n) 0 }
    ensures a { result.a ≡ get_or (base.now.words.now ++ work.now) (4 * n + 1) 0 }
    ensures b { result.b ≡ get_or (base.now.words.now ++ work.now) (4 * n + 2) 0 }
{
    let i = 4 * n;
    Words {
        tag: get(base, work, i),
        a: get(base, work, i + 1),
        b: get(base, work, i + 2),
    }
}

// The words of node n. (One test of where it lies: with a test for each word a walk took half as long again.)
fn words_at(base: &Base, work: &[u64], n: usize) -> Words
    requires { 4 * n + 4 ≤ length (base.now.words.now ++ work.now) }
    ensures tag { result.tag ≡ get_or (base.now.words.now ++ work.now) (4 * n) 0 }
    ensures a { result.a ≡ get_or (base.now.words.now ++ work.now) (4 * n + 1) 0 }
    ensures b { result.b ≡ get_or (base.now.words.now ++ work.now) (4 * n + 2) 0 }
{
    let i = 4 * n;
    let count = base.words.len();
    if i < count {
        return words_anywhere(base, work, n);
    }
    let j = i - count;
    Words {
        tag: work[j],
        a: work[j + 1],
        b: work[j + 2],
    }
}

// The shape that node n says, whose word is t.
fn node_shape(base: &Base, work: &[u64], t: usize, n: usize) -> Shape
    requires { 4 * n + 4 ≤ length (base.now.words.now ++ work.now) }
    ensures { result ≡ shape t (get_or (base.now.words.now ++ work.now) (4 * n) 0) (get_or (base.now.words.now ++ work.now) (4 * n + 1) 0)
        (get_or (base.now.words.now ++ work.now) (4 * n + 2) 0) }
{
    let words = words_at(base, work, n);
    if words.tag == CON {
        return Shape::Con(words.a as usize, words.b as usize);
    }
    if words.tag == ARROW {
        return Shape::Arrow(words.a as usize, words.b as usize);
    }
    Shape::Var(t)
}

// The shape of the type t.
pub fn shape_at(base: &Base, work: &[u64], t: usize) -> Shape
    requires { 4 * t + 4 ≤ 4 * first_node + length (base.now.words.now ++ work.now) }
    ensures { result ≡ shape_of (base.now.words.now ++ work.now) t }
{
    let k = names::kind_of(t);
    match k {
        Kind::Node(n) => node_shape(base, work, t, n),
        Kind::Named(_) => Shape::Var(t),
        Kind::Fresh(_) => Shape::Var(t),
        Kind::Nullary(c) => Shape::Con(c, NIL),
    }
}

// The list that node n says.
fn node_cell(base: &Base, work: &[u64], n: usize) -> Cell
    requires { 4 * n + 4 ≤ length (base.now.words.now ++ work.now) }
    ensures { result ≡ cell (get_or (base.now.words.now ++ work.now) (4 * n) 0) (get_or (base.now.words.now ++ work.now) (4 * n + 1) 0)
        (get_or (base.now.words.now ++ work.now) (4 * n + 2) 0) }
{
    let words = words_at(base, work, n);
    if words.tag == CONS {
        return Cell::Cons(words.a as usize, words.b as usize);
    }
    Cell::Nil
}

// What the list l is.
pub fn cell_at(base: &Base, work: &[u64], l: usize) -> Cell
    requires { 4 * l + 4 ≤ 4 * first_node + length (base.now.words.now ++ work.now) }
    ensures { result ≡ cell_of (base.now.words.now ++ work.now) l }
{
    let k = names::kind_of(l);
    match k {
        Kind::Node(n) => node_cell(base, work, n),
        Kind::Named(_) => Cell::Nil,
        Kind::Fresh(_) => Cell::Nil,
        Kind::Nullary(_) => Cell::Nil,
    }
}

// Writes the node top: a tag and two words.
pub fn push(base: &Base, work: &mut [u64], top: usize, tag: u64, a: usize, b: usize)
    requires base_len_bound { length base.now.words.now ≤ 4 * top }
    requires top_in_bounds { 4 * top + 4 ≤ length (base.now.words.now ++ work.old) }
    ensures { base.now.words.now ++ work.new ≡ pushed (base.now.words.now ++ work.old) top tag a b }
{
    let i = 4 * top - base.words.len();
    work[i] = tag;
    work[i + 1] = a as u64;
    work[i + 2] = b as u64;
}

// Writes the next node, and answers its word.
pub fn add(base: &Base, work: &mut [u64], room: &mut Room, tag: u64, a: usize, b: usize) -> usize
    requires base_len_bound { length base.now.words.now ≤ 4 * room.old.top }
    requires top_in_bounds { 4 * room.old.top + 4 ≤ length (base.now.words.now ++ work.old) }
    ensures is { base.now.words.now ++ work.new ≡ pushed (base.now.words.now ++ work.old) room.old.top tag a b }
    ensures word { result ≡ first_node + room.old.top }
    ensures top { room.new.top ≡ room.old.top + 1 }
    ensures left { room.new.left ≡ room.old.left }
{
    push(base, work, room.top, tag, a, b);
    let word = names::NODE + room.top;
    room.top += 1;
    word
}

// How many types the list l has.
pub fn count_list(base: &Base, work: &[u64], top: usize, l: usize) -> usize
    requires { Node (base.now.words.now ++ work.now) top l }
    ensures { (ns : List ℕ) → Counted ns (base.now.words.now ++ work.now) l result }
{
    let c = cell_at(base, work, l);
    match c {
        Cell::Nil => 0,
        Cell::Cons(_, b) => count_list(base, work, top, b) + 1,
    }
}

// Whether the variable of word v stands in the type t. A shared node is walked once for each place where it stands.
// (Inlined always, so that a leaf costs no call: a word that names no node is a variable or a constructor without arguments.)
#[cycle(occurs_in_occurs_list)]
#[inline(always)]
pub fn occurs_in(base: &Base, work: &[u64], top: usize, v: usize, t: usize) -> bool
    requires names { Names base.now.names.now }
    requires node { Node (base.now.words.now ++ work.now) top t }
    ensures { result ≡ occurs (tyvar_of base.now.names.now v) (tree base.now.names.now (base.now.words.now ++ work.now) t) }
{
    if t < names::NULLARY {
        return v == t;
    }
    if t < names::NODE {
        return false;
    }
    occurs_below(base, work, top, v, t)
}

// The same of a type by its shape.
#[cycle(occurs_in_occurs_list)]
fn occurs_below(base: &Base, work: &[u64], top: usize, v: usize, t: usize) -> bool
    requires names { Names base.now.names.now }
    requires node { Node (base.now.words.now ++ work.now) top t }
    ensures { result ≡ occurs (tyvar_of base.now.names.now v) (tree base.now.names.now (base.now.words.now ++ work.now) t) }
{
    let s = shape_at(base, work, t);
    match s {
        Shape::Var(x) => v == x,
        Shape::Con(_, l) => occurs_list(base, work, top, v, l),
        Shape::Arrow(a, b) => {
            if occurs_in(base, work, top, v, a) {
                return true;
            }
            occurs_in(base, work, top, v, b)
        }
    }
}

// Whether the variable of word v stands in a type of the list l.
#[cycle(occurs_in_occurs_list)]
fn occurs_list(base: &Base, work: &[u64], top: usize, v: usize, l: usize) -> bool
    requires names { Names base.now.names.now }
    requires node { Node (base.now.words.now ++ work.now) top l }
    ensures { result ≡ occurs_in (tyvar_of base.now.names.now v) (list base.now.names.now (base.now.words.now ++ work.now) l) }
{
    let s = cell_at(base, work, l);
    match s {
        Cell::Nil => false,
        Cell::Cons(a, b) => {
            if occurs_in(base, work, top, v, a) {
                return true;
            }
            occurs_list(base, work, top, v, b)
        }
    }
}

// Whether the words s and t are the same type, as trees. Equal words are, with no walk. (Inlined always, so that these cost no call.)
#[cycle(same_same_list)]
#[inline(always)]
pub fn same(base: &Base, work: &[u64], top: usize, s: usize, t: usize) -> bool
    requires names { Names base.now.names.now }
    requires node { Node (base.now.words.now ++ work.now) top s }
    requires node_2 { Node (base.now.words.now ++ work.now) top t }
    ensures { result ≡ is_yes (same_ty (tree base.now.names.now (base.now.words.now ++ work.now) s) (tree base.now.names.now (base.now.words.now ++ work.now) t)) }
{
    if s == t {
        return true;
    }
    same_below(base, work, top, s, t)
}

// The same by their shapes.
#[cycle(same_same_list)]
fn same_below(base: &Base, work: &[u64], top: usize, s: usize, t: usize) -> bool
    requires names { Names base.now.names.now }
    requires node { Node (base.now.words.now ++ work.now) top s }
    requires node_2 { Node (base.now.words.now ++ work.now) top t }
    ensures { result ≡ is_yes (same_ty (tree base.now.names.now (base.now.words.now ++ work.now) s) (tree base.now.names.now (base.now.words.now ++ work.now) t)) }
{
    let p = shape_at(base, work, s);
    let q = shape_at(base, work, t);
    match p {
        Shape::Var(x) => match q {
            Shape::Var(y) => x == y,
            Shape::Con(_, _) => false,
            Shape::Arrow(_, _) => false,
        },
        Shape::Con(c, k) => match q {
            Shape::Var(_) => false,
            Shape::Con(d, l) => {
                if c != d {
                    return false;
                }
                same_list(base, work, top, k, l)
            }
            Shape::Arrow(_, _) => false,
        },
        Shape::Arrow(a, b) => match q {
            Shape::Var(_) => false,
            Shape::Con(_, _) => false,
            Shape::Arrow(c, d) => {
                if same(base, work, top, a, c) {
                    return same(base, work, top, b, d);
                }
                false
            }
        },
    }
}

// Whether two lists are the same types.
#[cycle(same_same_list)]
fn same_list(base: &Base, work: &[u64], top: usize, k: usize, l: usize) -> bool
    requires names { Names base.now.names.now }
    requires node { Node (base.now.words.now ++ work.now) top k }
    requires node_2 { Node (base.now.words.now ++ work.now) top l }
    ensures { SameTys (list base.now.names.now (base.now.words.now ++ work.now) k) (list base.now.names.now (base.now.words.now ++ work.now) l) result }
{
    if k == l {
        return true;
    }
    let p = cell_at(base, work, k);
    let q = cell_at(base, work, l);
    match p {
        Cell::Nil => match q {
            Cell::Nil => true,
            Cell::Cons(_, _) => false,
        },
        Cell::Cons(a, b) => match q {
            Cell::Nil => false,
            Cell::Cons(c, d) => {
                if same(base, work, top, a, c) {
                    return same_list(base, work, top, b, d);
                }
                false
            }
        },
    }
}
