// Free variables of 002, collected into lists of the table of nodes: each once, the last one found in front.
#![tactic(auto)]

ghost use Rattle.std.specs.Prelude.{◌≡◌, List, [], ◌++◌, ◌*◌, ◌≤◌, length};
ghost use Rattle.meaning.specs.Ast.{qual};
ghost use Rattle.meaning.specs.Subst.{ftv_type, ftv_preds, ftv_qual, ftv_scheme};
ghost use Rattle.names.specs.Names.{tyvar_of};
ghost use Rattle.ast.specs.Table.{tree, list, Node};
ghost use Rattle.vars.specs.Vars.{vars_of_word};
ghost use Rattle.subst.specs.Preds.{preds_of_word};
ghost use Rattle.subst.specs.Schemes.{scheme_of_word};
ghost use Rattle.free.specs.Free.{add_but, free_type, free_types, Wants, Collects};

use ast::{Base, Cell, Room, Shape};
use subst::Scheme;

// The variable of word x before those of the list out, unless it is there or one of the list vs.
fn add_but(base: &Base, work: &mut [u64], room: &mut Room, vs: usize, out: usize, x: usize) -> usize
    requires base_len_bound { length base.now.words.now ≤ 4 * room.old.top }
    requires node { Node (base.now.words.now ++ work.old) room.old.top vs }
    requires node_2 { Node (base.now.words.now ++ work.old) room.old.top out }
    requires node_3 { Node (base.now.words.now ++ work.old) room.old.top x }
    requires wants { Wants base.now.names.now (base.now.words.now ++ work.old) room.old.top (vars_of_word base.now.names.now (base.now.words.now ++ work.old) out)
        (add_but (vars_of_word base.now.names.now (base.now.words.now ++ work.old) vs) (tyvar_of base.now.names.now x) (vars_of_word base.now.names.now (base.now.words.now ++ work.old) out)) }
    ensures collects { Collects base.now.names.now (base.now.words.now ++ work.old) (base.now.words.now ++ work.new) room.old.top
        (vars_of_word base.now.names.now (base.now.words.now ++ work.old) out)
        (add_but (vars_of_word base.now.names.now (base.now.words.now ++ work.old) vs) (tyvar_of base.now.names.now x) (vars_of_word base.now.names.now (base.now.words.now ++ work.old) out)) result room.new.top }
    ensures left { room.new.left ≡ room.old.left }
{
    if vars::has_var(base, work, room.top, vs, x) {
        return out;
    }
    if vars::has_var(base, work, room.top, out, x) {
        return out;
    }
    ast::add(base, work, room, ast::CONS, x, out)
}

// The variables of the type t before those of the list out; those of the list vs are passed over.
#[cycle(free_type_free_types)]
fn free_type(
    base: &Base,
    work: &mut [u64],
    room: &mut Room,
    vs: usize,
    out: usize,
    t: usize,
) -> usize
    requires base_len_bound { length base.now.words.now ≤ 4 * room.old.top }
    requires node { Node (base.now.words.now ++ work.old) room.old.top vs }
    requires node_2 { Node (base.now.words.now ++ work.old) room.old.top out }
    requires node_3 { Node (base.now.words.now ++ work.old) room.old.top t }
    requires wants { Wants base.now.names.now (base.now.words.now ++ work.old) room.old.top (vars_of_word base.now.names.now (base.now.words.now ++ work.old) out)
        (free_type (vars_of_word base.now.names.now (base.now.words.now ++ work.old) vs) (tree base.now.names.now (base.now.words.now ++ work.old) t) (vars_of_word base.now.names.now (base.now.words.now ++ work.old) out)) }
    ensures collects { Collects base.now.names.now (base.now.words.now ++ work.old) (base.now.words.now ++ work.new) room.old.top
        (vars_of_word base.now.names.now (base.now.words.now ++ work.old) out)
        (free_type (vars_of_word base.now.names.now (base.now.words.now ++ work.old) vs) (tree base.now.names.now (base.now.words.now ++ work.old) t) (vars_of_word base.now.names.now (base.now.words.now ++ work.old) out)) result room.new.top }
    ensures left { room.new.left ≡ room.old.left }
{
    let s = ast::shape_at(base, work, t);
    match s {
        Shape::Var(x) => add_but(base, work, room, vs, out, x),
        Shape::Con(_, l) => free_types(base, work, room, vs, out, l),
        Shape::Arrow(a, b) => {
            let r = free_type(base, work, room, vs, out, a);
            free_type(base, work, room, vs, r, b)
        }
    }
}

// The variables of the types of the list l before those of the list out; those of the list vs are passed over.
#[cycle(free_type_free_types)]
fn free_types(
    base: &Base,
    work: &mut [u64],
    room: &mut Room,
    vs: usize,
    out: usize,
    l: usize,
) -> usize
    requires base_len_bound { length base.now.words.now ≤ 4 * room.old.top }
    requires node { Node (base.now.words.now ++ work.old) room.old.top vs }
    requires node_2 { Node (base.now.words.now ++ work.old) room.old.top out }
    requires node_3 { Node (base.now.words.now ++ work.old) room.old.top l }
    requires wants { Wants base.now.names.now (base.now.words.now ++ work.old) room.old.top (vars_of_word base.now.names.now (base.now.words.now ++ work.old) out)
        (free_types (vars_of_word base.now.names.now (base.now.words.now ++ work.old) vs) (list base.now.names.now (base.now.words.now ++ work.old) l) (vars_of_word base.now.names.now (base.now.words.now ++ work.old) out)) }
    ensures collects { Collects base.now.names.now (base.now.words.now ++ work.old) (base.now.words.now ++ work.new) room.old.top
        (vars_of_word base.now.names.now (base.now.words.now ++ work.old) out)
        (free_types (vars_of_word base.now.names.now (base.now.words.now ++ work.old) vs) (list base.now.names.now (base.now.words.now ++ work.old) l) (vars_of_word base.now.names.now (base.now.words.now ++ work.old) out)) result room.new.top }
    ensures left { room.new.left ≡ room.old.left }
{
    let c = ast::cell_at(base, work, l);
    match c {
        Cell::Nil => out,
        Cell::Cons(a, b) => {
            let r = free_type(base, work, room, vs, out, a);
            free_types(base, work, room, vs, r, b)
        }
    }
}

// `ftv_type`: the variables of the type t before those of the list out.
pub fn ftv_type(base: &Base, work: &mut [u64], room: &mut Room, out: usize, t: usize) -> usize
    requires base_len_bound { length base.now.words.now ≤ 4 * room.old.top }
    requires node { Node (base.now.words.now ++ work.old) room.old.top out }
    requires node_2 { Node (base.now.words.now ++ work.old) room.old.top t }
    requires wants { Wants base.now.names.now (base.now.words.now ++ work.old) room.old.top (vars_of_word base.now.names.now (base.now.words.now ++ work.old) out)
        (ftv_type (tree base.now.names.now (base.now.words.now ++ work.old) t) (vars_of_word base.now.names.now (base.now.words.now ++ work.old) out)) }
    ensures collects { Collects base.now.names.now (base.now.words.now ++ work.old) (base.now.words.now ++ work.new) room.old.top
        (vars_of_word base.now.names.now (base.now.words.now ++ work.old) out)
        (ftv_type (tree base.now.names.now (base.now.words.now ++ work.old) t) (vars_of_word base.now.names.now (base.now.words.now ++ work.old) out)) result room.new.top }
    ensures left { room.new.left ≡ room.old.left }
{
    free_type(base, work, room, ast::NIL, out, t)
}

// `ftv_pred` of each predicate of the list l, before the variables of the list out. Its cells are those of a list of types.
pub fn ftv_preds(base: &Base, work: &mut [u64], room: &mut Room, out: usize, l: usize) -> usize
    requires base_len_bound { length base.now.words.now ≤ 4 * room.old.top }
    requires node { Node (base.now.words.now ++ work.old) room.old.top out }
    requires node_2 { Node (base.now.words.now ++ work.old) room.old.top l }
    requires wants { Wants base.now.names.now (base.now.words.now ++ work.old) room.old.top (vars_of_word base.now.names.now (base.now.words.now ++ work.old) out)
        (ftv_preds (preds_of_word base.now.names.now (base.now.words.now ++ work.old) l) (vars_of_word base.now.names.now (base.now.words.now ++ work.old) out)) }
    ensures collects { Collects base.now.names.now (base.now.words.now ++ work.old) (base.now.words.now ++ work.new) room.old.top
        (vars_of_word base.now.names.now (base.now.words.now ++ work.old) out)
        (ftv_preds (preds_of_word base.now.names.now (base.now.words.now ++ work.old) l) (vars_of_word base.now.names.now (base.now.words.now ++ work.old) out)) result room.new.top }
    ensures left { room.new.left ≡ room.old.left }
{
    free_types(base, work, room, ast::NIL, out, l)
}

// `ftv_scheme`: the variables of a type and of predicates that are none of the list vs.
pub fn ftv_scheme(base: &Base, work: &mut [u64], room: &mut Room, scheme: Scheme) -> usize
    requires base_len_bound { length base.now.words.now ≤ 4 * room.old.top }
    requires node { Node (base.now.words.now ++ work.old) room.old.top scheme.vars }
    requires node_2 { Node (base.now.words.now ++ work.old) room.old.top scheme.preds }
    requires node_3 { Node (base.now.words.now ++ work.old) room.old.top scheme.ty }
    requires wants { Wants base.now.names.now (base.now.words.now ++ work.old) room.old.top [] (ftv_scheme (scheme_of_word base.now.names.now (base.now.words.now ++ work.old) scheme.vars scheme.preds scheme.ty)) }
    ensures collects { Collects base.now.names.now (base.now.words.now ++ work.old) (base.now.words.now ++ work.new) room.old.top
        [] (ftv_scheme (scheme_of_word base.now.names.now (base.now.words.now ++ work.old) scheme.vars scheme.preds scheme.ty)) result room.new.top }
    ensures left { room.new.left ≡ room.old.left }
{
    let r = free_type(base, work, room, scheme.vars, ast::NIL, scheme.ty);
    free_types(base, work, room, scheme.vars, r, scheme.preds)
}

// `ftv_qual`: the variables of a type and of predicates.
pub fn ftv_qual(base: &Base, work: &mut [u64], room: &mut Room, preds: usize, t: usize) -> usize
    requires base_len_bound { length base.now.words.now ≤ 4 * room.old.top }
    requires node { Node (base.now.words.now ++ work.old) room.old.top preds }
    requires node_2 { Node (base.now.words.now ++ work.old) room.old.top t }
    requires wants { Wants base.now.names.now (base.now.words.now ++ work.old) room.old.top [] (ftv_qual (qual (preds_of_word base.now.names.now (base.now.words.now ++ work.old) preds) (tree base.now.names.now (base.now.words.now ++ work.old) t))) }
    ensures collects { Collects base.now.names.now (base.now.words.now ++ work.old) (base.now.words.now ++ work.new) room.old.top
        [] (ftv_qual (qual (preds_of_word base.now.names.now (base.now.words.now ++ work.old) preds) (tree base.now.names.now (base.now.words.now ++ work.old) t))) result room.new.top }
    ensures left { room.new.left ≡ room.old.left }
{
    let scheme = Scheme {
        vars: ast::NIL,
        preds,
        ty: t,
    };
    ftv_scheme(base, work, room, scheme)
}
