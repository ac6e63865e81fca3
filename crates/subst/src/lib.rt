// Substitutions of 002 beside types: applied to predicates, qualified types and schemes.
#![tactic(auto)]

ghost use Rattle.std.specs.Prelude.{◌≡◌, ◌++◌, ◌+◌, ◌*◌, ◌-◌, ◌≤◌, length};
ghost use Rattle.meaning.specs.Base.{null};
ghost use Rattle.meaning.specs.Ast.{pred, qual};
ghost use Rattle.meaning.specs.Subst.{apply_pred, apply_preds, apply_qual, apply_scheme, ftv_scheme};
ghost use Rattle.names.specs.Names.{Names, first_node, name_of};
ghost use Rattle.ast.specs.Table.{tree, Node};
ghost use Rattle.pairs.specs.Pairs.{sub_at};
ghost use Rattle.apply.specs.Region.{sub_but, Ready, ReadyBut, Gives};
ghost use Rattle.subst.specs.Preds.{class_at, preds_of_word, pushed_pred};
ghost use Rattle.subst.specs.Quals.{ReadyQual, GivesQual};
ghost use Rattle.subst.specs.Schemes.{scheme_of_word, ReadyScheme, GivesScheme};
ghost use Rattle.apply.specs.Applied.{applied_of};
ghost use Rattle.subst.specs.AppliedQual.{qual_of};

use ast::{Base, Cell, Room};
use errors::Refusal;
pub use pairs::Subst;

// A scheme: the list of its variables, the list of its predicates, its type.
#[derive(Clone, Copy)]
pub struct Scheme {
    pub vars: usize,
    pub preds: usize,
    pub ty: usize,
}

// A qualified type: the list of its predicates, the type under them.
#[derive(Clone, Copy)]
pub struct Qual {
    pub preds: usize,
    pub ty: usize,
}

// The class of the predicate at the head of the list l.
pub fn class_at(base: &Base, work: &[u64], l: usize) -> usize
    requires first_node_le_l { first_node ≤ l }
    requires l_bound { 4 * l + 4 ≤ 4 * first_node + length (base.now.words.now ++ work.now) }
    ensures { result ≡ class_at (base.now.words.now ++ work.now) l }
{
    let i = 4 * (l - names::NODE);
    ast::index(base, work, i + 3)
}

// Writes the node top: a predicate of a class and a type, and the rest of the list.
pub fn push_pred(base: &Base, work: &mut [u64], top: usize, class: usize, t: usize, next: usize)
    requires base_len_bound { length base.now.words.now ≤ 4 * top }
    requires top_in_bounds { 4 * top + 4 ≤ length (base.now.words.now ++ work.old) }
    ensures { base.now.words.now ++ work.new ≡ pushed_pred (base.now.words.now ++ work.old) top class t next }
{
    pairs::put(base, work, 4 * top + 3, class);
    ast::push(base, work, top, ast::CONS, t, next);
}

// Writes the next node, a predicate and the rest of the list, and answers its word.
pub fn add_pred(
    base: &Base,
    work: &mut [u64],
    room: &mut Room,
    class: usize,
    t: usize,
    next: usize,
) -> usize
    requires base_len_bound { length base.now.words.now ≤ 4 * room.old.top }
    requires top_in_bounds { 4 * room.old.top + 4 ≤ length (base.now.words.now ++ work.old) }
    ensures is { base.now.words.now ++ work.new ≡ pushed_pred (base.now.words.now ++ work.old) room.old.top class t next }
    ensures word { result ≡ first_node + room.old.top }
    ensures top { room.new.top ≡ room.old.top + 1 }
    ensures left { room.new.left ≡ room.old.left }
{
    pairs::put(base, work, 4 * room.top + 3, class);
    ast::add(base, work, room, ast::CONS, t, next)
}

// The pairs applied to the type of a predicate; the class stays, and so do the variables of the list vs.
pub fn apply_pred_but(
    base: &Base,
    work: &mut [u64],
    room: &mut Room,
    sub: Subst,
    vs: usize,
    class: usize,
    t: usize,
) -> Result<usize, Refusal>
    requires base_len_bound { length base.now.words.now ≤ 4 * room.old.top }
    requires ready_but { ReadyBut base.now.names.now (base.now.words.now ++ work.old) room.old.top room.old.left sub.at sub.k vs t }
    ensures { Gives (λ u. pred (name_of base.now.names.now class) (tree base.now.names.now (base.now.words.now ++ work.new) u)) (4 * room.old.top + 8 * room.old.left - 4) base.now.names.now
        (base.now.words.now ++ work.old) (base.now.words.now ++ work.new) room.old.top room.old.left
        (apply_pred (sub_but base.now.names.now (base.now.words.now ++ work.old) vs sub.at sub.k) (pred (name_of base.now.names.now class) (tree base.now.names.now (base.now.words.now ++ work.old) t)) room.old.left) (applied_of result room.new.top room.new.left) }
{
    apply::apply_but(base, work, room, errors::DEPTH, sub, vs, t)
}

// The pairs applied to each predicate of the list l, left to right; the variables of the list vs stay.
pub fn apply_preds_but(
    base: &Base,
    work: &mut [u64],
    room: &mut Room,
    sub: Subst,
    vs: usize,
    l: usize,
) -> Result<usize, Refusal>
    requires base_len_bound { length base.now.words.now ≤ 4 * room.old.top }
    requires ready_but { ReadyBut base.now.names.now (base.now.words.now ++ work.old) room.old.top room.old.left sub.at sub.k vs l }
    ensures { Gives (preds_of_word base.now.names.now (base.now.words.now ++ work.new)) (4 * room.old.top + 8 * room.old.left) base.now.names.now
        (base.now.words.now ++ work.old) (base.now.words.now ++ work.new) room.old.top room.old.left
        (apply_preds (sub_but base.now.names.now (base.now.words.now ++ work.old) vs sub.at sub.k) (preds_of_word base.now.names.now (base.now.words.now ++ work.old) l) room.old.left) (applied_of result room.new.top room.new.left) }
{
    let c = ast::cell_at(base, work, l);
    match c {
        Cell::Nil => Ok(l),
        Cell::Cons(a, b) => {
            let p = class_at(base, work, l);
            let m = apply_pred_but(base, work, room, sub, vs, p, a)?;
            let n = apply_preds_but(base, work, room, sub, vs, b)?;
            Ok(add_pred(base, work, room, p, m, n))
        }
    }
}

// The pairs applied to predicates, then to the type under them; the variables of the list vs stay.
pub fn apply_qual_but(
    base: &Base,
    work: &mut [u64],
    room: &mut Room,
    sub: Subst,
    scheme: Scheme,
) -> Result<Qual, Refusal>
    requires base_len_bound { length base.now.words.now ≤ 4 * room.old.top }
    requires ready_scheme { ReadyScheme base.now.names.now (base.now.words.now ++ work.old) room.old.top room.old.left sub.at sub.k scheme.vars scheme.preds scheme.ty }
    ensures { GivesQual base.now.names.now (base.now.words.now ++ work.old) (base.now.words.now ++ work.new) room.old.top room.old.left
        (apply_qual (sub_but base.now.names.now (base.now.words.now ++ work.old) scheme.vars sub.at sub.k) (qual (preds_of_word base.now.names.now (base.now.words.now ++ work.old) scheme.preds) (tree base.now.names.now (base.now.words.now ++ work.old) scheme.ty)) room.old.left) (qual_of result room.new.top room.new.left) }
{
    let preds = apply_preds_but(base, work, room, sub, scheme.vars, scheme.preds)?;
    let ty = apply::apply_but(base, work, room, errors::DEPTH, sub, scheme.vars, scheme.ty)?;
    Ok(Qual { preds, ty })
}

// `apply_pred`: the pairs applied to the type of a predicate; the class stays.
pub fn apply_pred(
    base: &Base,
    work: &mut [u64],
    room: &mut Room,
    sub: Subst,
    class: usize,
    t: usize,
) -> Result<usize, Refusal>
    requires base_len_bound { length base.now.words.now ≤ 4 * room.old.top }
    requires ready { Ready base.now.names.now (base.now.words.now ++ work.old) room.old.top room.old.left sub.at sub.k t }
    ensures { Gives (λ u. pred (name_of base.now.names.now class) (tree base.now.names.now (base.now.words.now ++ work.new) u)) (4 * room.old.top + 8 * room.old.left - 4) base.now.names.now
        (base.now.words.now ++ work.old) (base.now.words.now ++ work.new) room.old.top room.old.left
        (apply_pred (sub_at base.now.names.now (base.now.words.now ++ work.old) sub.at sub.k) (pred (name_of base.now.names.now class) (tree base.now.names.now (base.now.words.now ++ work.old) t)) room.old.left) (applied_of result room.new.top room.new.left) }
{
    apply_pred_but(base, work, room, sub, ast::NIL, class, t)
}

// `apply_preds`: the pairs applied to each predicate of the list l, left to right.
pub fn apply_preds(
    base: &Base,
    work: &mut [u64],
    room: &mut Room,
    sub: Subst,
    l: usize,
) -> Result<usize, Refusal>
    requires base_len_bound { length base.now.words.now ≤ 4 * room.old.top }
    requires ready { Ready base.now.names.now (base.now.words.now ++ work.old) room.old.top room.old.left sub.at sub.k l }
    ensures { Gives (preds_of_word base.now.names.now (base.now.words.now ++ work.new)) (4 * room.old.top + 8 * room.old.left) base.now.names.now
        (base.now.words.now ++ work.old) (base.now.words.now ++ work.new) room.old.top room.old.left
        (apply_preds (sub_at base.now.names.now (base.now.words.now ++ work.old) sub.at sub.k) (preds_of_word base.now.names.now (base.now.words.now ++ work.old) l) room.old.left) (applied_of result room.new.top room.new.left) }
{
    apply_preds_but(base, work, room, sub, ast::NIL, l)
}

// `apply_qual`: the pairs applied to predicates, then to the type under them.
pub fn apply_qual(
    base: &Base,
    work: &mut [u64],
    room: &mut Room,
    sub: Subst,
    q: Qual,
) -> Result<Qual, Refusal>
    requires base_len_bound { length base.now.words.now ≤ 4 * room.old.top }
    requires ready_qual { ReadyQual base.now.names.now (base.now.words.now ++ work.old) room.old.top room.old.left sub.at sub.k q.preds q.ty }
    ensures { GivesQual base.now.names.now (base.now.words.now ++ work.old) (base.now.words.now ++ work.new) room.old.top room.old.left
        (apply_qual (sub_at base.now.names.now (base.now.words.now ++ work.old) sub.at sub.k) (qual (preds_of_word base.now.names.now (base.now.words.now ++ work.old) q.preds) (tree base.now.names.now (base.now.words.now ++ work.old) q.ty)) room.old.left) (qual_of result room.new.top room.new.left) }
{
    apply_qual_but(
        base,
        work,
        room,
        sub,
        Scheme {
            vars: ast::NIL,
            preds: q.preds,
            ty: q.ty,
        },
    )
}

// Whether the scheme of the variables vs over predicates and a type has no free variables. The cells of predicates are
// those of a list of types.
pub fn is_closed(base: &Base, work: &[u64], top: usize, scheme: Scheme) -> bool
    requires names { Names base.now.names.now }
    requires node { Node (base.now.words.now ++ work.now) top scheme.vars }
    requires node_2 { Node (base.now.words.now ++ work.now) top scheme.preds }
    requires node_3 { Node (base.now.words.now ++ work.now) top scheme.ty }
    ensures { result ≡ null (ftv_scheme (scheme_of_word base.now.names.now (base.now.words.now ++ work.now) scheme.vars scheme.preds scheme.ty)) }
{
    if vars::all_bound(base, work, top, scheme.vars, scheme.ty) {
        return vars::all_bound_list(base, work, top, scheme.vars, scheme.preds);
    }
    false
}

// `apply_scheme`: the pairs applied to a scheme; one without free variables stays, for no step.
pub fn apply_scheme(
    base: &Base,
    work: &mut [u64],
    room: &mut Room,
    sub: Subst,
    scheme: Scheme,
) -> Result<Qual, Refusal>
    requires base_len_bound { length base.now.words.now ≤ 4 * room.old.top }
    requires ready_scheme { ReadyScheme base.now.names.now (base.now.words.now ++ work.old) room.old.top room.old.left sub.at sub.k scheme.vars scheme.preds scheme.ty }
    ensures { GivesScheme base.now.names.now (base.now.words.now ++ work.old) (base.now.words.now ++ work.new) room.old.top room.old.left scheme.vars scheme.preds scheme.ty
        (apply_scheme (sub_at base.now.names.now (base.now.words.now ++ work.old) sub.at sub.k) (scheme_of_word base.now.names.now (base.now.words.now ++ work.old) scheme.vars scheme.preds scheme.ty) room.old.left) (qual_of result room.new.top room.new.left) }
{
    if is_closed(base, work, room.top, scheme) {
        return Ok(Qual {
            preds: scheme.preds,
            ty: scheme.ty,
        });
    }
    apply_qual_but(base, work, room, sub, scheme)
}
