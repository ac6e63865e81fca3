// Lists of type variables in the table of nodes, and whether the variables of a type are among them.
#![tactic(auto)]

ghost use Rattle.std.specs.Prelude.{◌≡◌, [], ◌++◌};
ghost use Rattle.meaning.specs.Map.{tyvars, elem};
ghost use Rattle.meaning.specs.Subst.{ftv_type, ftv_types};
ghost use Rattle.names.specs.Names.{Names, tyvar_of};
ghost use Rattle.ast.specs.Table.{tree, list, Node};
ghost use Rattle.vars.specs.Vars.{vars_of_word, all_in};

use ast::{Base, Cell, Shape};

// Whether the variable of word x is one of the list vs.
pub fn has_var(base: &Base, work: &[u64], top: usize, vs: usize, x: usize) -> bool
    requires names { Names base.now.names.now }
    requires node { Node (base.now.words.now ++ work.now) top vs }
    ensures { result ≡ elem tyvars (tyvar_of base.now.names.now x) (vars_of_word base.now.names.now (base.now.words.now ++ work.now) vs) }
{
    // No heap: the list is cells of the table, which no iterator walks.
    let mut l = vs;
    loop {
        let c = ast::cell_at(base, work, l);
        match c {
            Cell::Nil => {
                return false;
            }
            Cell::Cons(a, b) => {
                if a == x {
                    return true;
                }
                l = b;
            }
        }
    }
}

// Whether each variable of the type t is one of the list vs. A shared node is walked once for each place where it stands.
#[cycle(all_bound_all_bound_list)]
pub fn all_bound(base: &Base, work: &[u64], top: usize, vs: usize, t: usize) -> bool
    requires names { Names base.now.names.now }
    requires node { Node (base.now.words.now ++ work.now) top vs }
    requires node_2 { Node (base.now.words.now ++ work.now) top t }
    ensures { result ≡ all_in (ftv_type (tree base.now.names.now (base.now.words.now ++ work.now) t) []) (vars_of_word base.now.names.now (base.now.words.now ++ work.now) vs) }
{
    let s = ast::shape_at(base, work, t);
    match s {
        Shape::Var(x) => has_var(base, work, top, vs, x),
        Shape::Con(_, l) => all_bound_list(base, work, top, vs, l),
        Shape::Arrow(a, b) => {
            if all_bound(base, work, top, vs, a) {
                return all_bound(base, work, top, vs, b);
            }
            false
        }
    }
}

// Whether each variable of a type of the list l is one of the list vs.
#[cycle(all_bound_all_bound_list)]
pub fn all_bound_list(base: &Base, work: &[u64], top: usize, vs: usize, l: usize) -> bool
    requires names { Names base.now.names.now }
    requires node { Node (base.now.words.now ++ work.now) top vs }
    requires node_2 { Node (base.now.words.now ++ work.now) top l }
    ensures { result ≡ all_in (ftv_types (list base.now.names.now (base.now.words.now ++ work.now) l) []) (vars_of_word base.now.names.now (base.now.words.now ++ work.now) vs) }
{
    let c = ast::cell_at(base, work, l);
    match c {
        Cell::Nil => true,
        Cell::Cons(a, b) => {
            if all_bound(base, work, top, vs, a) {
                return all_bound_list(base, work, top, vs, b);
            }
            false
        }
    }
}
