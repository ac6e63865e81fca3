// Core terms as words over the same tables as types: what a word says, and the nodes that inference and resolution make.
#![tactic(auto)]

ghost use Rattle.std.specs.Prelude.{◌≡◌, ◌++◌, ◌+◌, ◌*◌, ◌<◌, ◌≤◌, length};
ghost use Rattle.names.specs.Names.{first_node};
ghost use Rattle.cores.specs.Parts.{constant_part, node_part, read_part, is_below, part_of, pushed_four};

use ast::{Base, Room};
use names::Kind;

// What a core term is: a name of the script; a dictionary's name, `Own` being `self`; a literal; and the terms that are
// nodes. A name is its number, a term, a type and a list their words.
#[derive(Clone, Copy)]
pub enum Part {
    Var(usize),
    Dict(usize),
    Context(usize, usize),
    Own,
    Bool(bool),
    Int(usize),
    Abs(usize, usize),
    App(usize, usize),
    Let(usize, usize, usize),
    DictAbs(usize, usize),
    DictApp(usize, usize),
    Method(usize, usize),
    Super(usize, usize, usize),
    Rec(usize, usize, usize),
}

// The tags of the nodes that inference and resolution make. No heap: a tag is a word of the lent buffer.
const ABS: u64 = 4;

const CALL: u64 = 5;

const LET: u64 = 6;

const DICT_ABS: u64 = 7;

const APP: u64 = 8;

const METHOD: u64 = 9;

const SUPER: u64 = 10;

const REC: u64 = 11;

const INT: u64 = 12;

// What the o-th word after the made variables says.
fn constant_part(o: usize) -> Part
    ensures { result ≡ constant_part o }
{
    if o == 0 {
        return Part::Bool(false);
    }
    if o == 1 {
        return Part::Bool(true);
    }
    if o < 64 {
        return Part::Own;
    }
    Part::Context(o / 64 - 1, o % 64)
}

// What the words of a node say.
fn node_part(tag: u64, a: usize, b: usize, d: usize) -> Part
    ensures { result ≡ node_part tag a b d }
{
    match tag {
        ABS => Part::Abs(a, b),
        CALL => Part::App(a, b),
        LET => Part::Let(a, b, d),
        DICT_ABS => Part::DictAbs(a, b),
        APP => Part::DictApp(a, b),
        METHOD => Part::Method(a, b),
        SUPER => Part::Super(a, b, d),
        REC => Part::Rec(a, b, d),
        INT => Part::Int(a),
        _ => Part::Own,
    }
}

// What node n says.
fn read_part(base: &Base, work: &[u64], n: usize) -> Part
    requires { 4 * n + 4 ≤ length (base.now.words.now ++ work.now) }
    ensures { result ≡ read_part (base.now.words.now ++ work.now) n }
{
    let i = 4 * n;
    let tag = ast::get(base, work, i);
    let a = ast::index(base, work, i + 1);
    let b = ast::index(base, work, i + 2);
    let d = ast::index(base, work, i + 3);
    node_part(tag, a, b, d)
}

// Whether all that a part refers to lies below the word t.
fn is_below(t: usize, p: Part) -> bool
    ensures { result ≡ is_below t p }
{
    match p {
        Part::Var(_)
        | Part::Dict(_)
        | Part::Context(_, _)
        | Part::Own
        | Part::Bool(_)
        | Part::Int(_) => true,
        Part::Abs(_, e) => e < t,
        Part::App(f, e) => f < t && e < t,
        Part::Let(_, e, f) => e < t && f < t,
        Part::DictAbs(l, e) => l < t && e < t,
        Part::DictApp(f, l) => f < t && l < t,
        Part::Method(e, _) => e < t,
        Part::Super(e, _, _) => e < t,
        Part::Rec(_, u, _) => u < t,
    }
}

// What the core term t says.
pub fn part_at(base: &Base, work: &[u64], t: usize) -> Part
    requires { 4 * t + 4 ≤ 4 * first_node + length (base.now.words.now ++ work.now) }
    ensures { result ≡ part_of (base.now.words.now ++ work.now) t }
{
    let k = names::kind_of(t);
    match k {
        Kind::Node(n) => {
            let p = read_part(base, work, n);
            if is_below(t, p) {
                return p;
            }
            Part::Own
        }
        Kind::Named(i) => Part::Var(i),
        Kind::Fresh(n) => Part::Dict(n),
        Kind::Nullary(o) => constant_part(o),
    }
}

// Writes the next node, a tag and three fields, and answers its word.
fn push_four(
    base: &Base,
    work: &mut [u64],
    room: &mut Room,
    tag: u64,
    a: usize,
    b: usize,
    d: usize,
) -> usize
    requires base_len_bound { length base.now.words.now ≤ 4 * room.old.top }
    requires top_in_bounds { 4 * room.old.top + 4 ≤ length (base.now.words.now ++ work.old) }
    ensures is { base.now.words.now ++ work.new ≡ pushed_four (base.now.words.now ++ work.old) room.old.top tag a b d }
    ensures word { result ≡ first_node + room.old.top }
    ensures top { room.new.top ≡ room.old.top + 1 }
    ensures left { room.new.left ≡ room.old.left }
{
    pairs::put(base, work, 4 * room.top + 3, d);
    ast::add(base, work, room, tag, a, b)
}

// Writes the next node: the number v.
pub fn push_int(base: &Base, work: &mut [u64], room: &mut Room, v: usize) -> usize
    requires base_len_bound { length base.now.words.now ≤ 4 * room.old.top }
    requires top_in_bounds { 4 * room.old.top + 4 ≤ length (base.now.words.now ++ work.old) }
    ensures is { base.now.words.now ++ work.new ≡ pushed_four (base.now.words.now ++ work.old) room.old.top 12 v 0 0 }
    ensures word { result ≡ first_node + room.old.top }
    ensures top { room.new.top ≡ room.old.top + 1 }
    ensures left { room.new.left ≡ room.old.left }
{
    push_four(base, work, room, INT, v, 0, 0)
}

// Writes the next node: the dictionary of the superclass s in the dictionary e of the class c.
pub fn push_proj(
    base: &Base,
    work: &mut [u64],
    room: &mut Room,
    e: usize,
    c: usize,
    s: usize,
) -> usize
    requires base_len_bound { length base.now.words.now ≤ 4 * room.old.top }
    requires top_in_bounds { 4 * room.old.top + 4 ≤ length (base.now.words.now ++ work.old) }
    ensures is { base.now.words.now ++ work.new ≡ pushed_four (base.now.words.now ++ work.old) room.old.top 10 e c s }
    ensures word { result ≡ first_node + room.old.top }
    ensures top { room.new.top ≡ room.old.top + 1 }
    ensures left { room.new.left ≡ room.old.left }
{
    push_four(base, work, room, SUPER, e, c, s)
}

// Writes the next node: the record of instance i, of the class c at the type t.
pub fn push_rec(
    base: &Base,
    work: &mut [u64],
    room: &mut Room,
    c: usize,
    t: usize,
    i: usize,
) -> usize
    requires base_len_bound { length base.now.words.now ≤ 4 * room.old.top }
    requires top_in_bounds { 4 * room.old.top + 4 ≤ length (base.now.words.now ++ work.old) }
    ensures is { base.now.words.now ++ work.new ≡ pushed_four (base.now.words.now ++ work.old) room.old.top 11 c t i }
    ensures word { result ≡ first_node + room.old.top }
    ensures top { room.new.top ≡ room.old.top + 1 }
    ensures left { room.new.left ≡ room.old.left }
{
    push_four(base, work, room, REC, c, t, i)
}

// Writes the next node: the dictionary f applied to the dictionaries of the list l.
pub fn push_app(base: &Base, work: &mut [u64], room: &mut Room, f: usize, l: usize) -> usize
    requires base_len_bound { length base.now.words.now ≤ 4 * room.old.top }
    requires top_in_bounds { 4 * room.old.top + 4 ≤ length (base.now.words.now ++ work.old) }
    ensures is { base.now.words.now ++ work.new ≡ pushed_four (base.now.words.now ++ work.old) room.old.top 8 f l 0 }
    ensures word { result ≡ first_node + room.old.top }
    ensures top { room.new.top ≡ room.old.top + 1 }
    ensures left { room.new.left ≡ room.old.left }
{
    push_four(base, work, room, APP, f, l, 0)
}

// Writes the next node: the function from the name x to the term e.
pub fn push_abs(base: &Base, work: &mut [u64], room: &mut Room, x: usize, e: usize) -> usize
    requires base_len_bound { length base.now.words.now ≤ 4 * room.old.top }
    requires top_in_bounds { 4 * room.old.top + 4 ≤ length (base.now.words.now ++ work.old) }
    ensures is { base.now.words.now ++ work.new ≡ pushed_four (base.now.words.now ++ work.old) room.old.top 4 x e 0 }
    ensures word { result ≡ first_node + room.old.top }
    ensures top { room.new.top ≡ room.old.top + 1 }
    ensures left { room.new.left ≡ room.old.left }
{
    push_four(base, work, room, ABS, x, e, 0)
}

// Writes the next node: the term f applied to the term e.
pub fn push_call(base: &Base, work: &mut [u64], room: &mut Room, f: usize, e: usize) -> usize
    requires base_len_bound { length base.now.words.now ≤ 4 * room.old.top }
    requires top_in_bounds { 4 * room.old.top + 4 ≤ length (base.now.words.now ++ work.old) }
    ensures is { base.now.words.now ++ work.new ≡ pushed_four (base.now.words.now ++ work.old) room.old.top 5 f e 0 }
    ensures word { result ≡ first_node + room.old.top }
    ensures top { room.new.top ≡ room.old.top + 1 }
    ensures left { room.new.left ≡ room.old.left }
{
    push_four(base, work, room, CALL, f, e, 0)
}

// Writes the next node: the term f, in which the name x stands for the term e.
pub fn push_let(
    base: &Base,
    work: &mut [u64],
    room: &mut Room,
    x: usize,
    e: usize,
    f: usize,
) -> usize
    requires base_len_bound { length base.now.words.now ≤ 4 * room.old.top }
    requires top_in_bounds { 4 * room.old.top + 4 ≤ length (base.now.words.now ++ work.old) }
    ensures is { base.now.words.now ++ work.new ≡ pushed_four (base.now.words.now ++ work.old) room.old.top 6 x e f }
    ensures word { result ≡ first_node + room.old.top }
    ensures top { room.new.top ≡ room.old.top + 1 }
    ensures left { room.new.left ≡ room.old.left }
{
    push_four(base, work, room, LET, x, e, f)
}

// Writes the next node: the term e under the binders of the list l.
pub fn push_dict_abs(base: &Base, work: &mut [u64], room: &mut Room, l: usize, e: usize) -> usize
    requires base_len_bound { length base.now.words.now ≤ 4 * room.old.top }
    requires top_in_bounds { 4 * room.old.top + 4 ≤ length (base.now.words.now ++ work.old) }
    ensures is { base.now.words.now ++ work.new ≡ pushed_four (base.now.words.now ++ work.old) room.old.top 7 l e 0 }
    ensures word { result ≡ first_node + room.old.top }
    ensures top { room.new.top ≡ room.old.top + 1 }
    ensures left { room.new.left ≡ room.old.left }
{
    push_four(base, work, room, DICT_ABS, l, e, 0)
}

// Writes the next node: the method m of the dictionary e.
pub fn push_method(base: &Base, work: &mut [u64], room: &mut Room, e: usize, m: usize) -> usize
    requires base_len_bound { length base.now.words.now ≤ 4 * room.old.top }
    requires top_in_bounds { 4 * room.old.top + 4 ≤ length (base.now.words.now ++ work.old) }
    ensures is { base.now.words.now ++ work.new ≡ pushed_four (base.now.words.now ++ work.old) room.old.top 9 e m 0 }
    ensures word { result ≡ first_node + room.old.top }
    ensures top { room.new.top ≡ room.old.top + 1 }
    ensures left { room.new.left ≡ room.old.left }
{
    push_four(base, work, room, METHOD, e, m, 0)
}
