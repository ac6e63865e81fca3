// `subst_core` of 000 over words: dictionary names in a core term are replaced by what rows have for them.
// The Rust has a walk of its own for this and for `apply_subst_to_core` (crate canoncore), and so each has its place here.
#![tactic(auto)]

mod lists;
mod rows;

ghost use Rattle.std.specs.Prelude.{◌++◌, ◌+◌, ◌*◌, ◌-◌, ◌≤◌, length};
ghost use Rattle.meaning.specs.Ast.{method, super, cabs, capp, clet, dict_abs, dict_app, dict_proj};
ghost use Rattle.names.specs.Names.{name_of};
ghost use Rattle.ast.specs.Table.{Node};
ghost use Rattle.cores.specs.Binders.{binders_of_word};
ghost use Rattle.cores.specs.Terms.{core, cores};
ghost use Rattle.terms.specs.Plain.{plain_in};
ghost use Rattle.terms.specs.Rows.{replaced_in, ReadyTerm};
ghost use Rattle.terms.specs.Answers.{GivesTerm, node_out};
ghost use Rattle.apply.specs.Applied.{applied_of};

use ast::{Base, Room};
use cores::Part;
use errors::Refusal;

// `subst_core` of the term e with so much depth left, where the first n rows replace and nothing is hidden.
#[cycle(in_abs_in_call_in_dict_abs_in_dict_app_in_let_in_method_in_super_in_each_subst_core)]
pub fn subst_core(
    base: &Base,
    work: &mut [u64],
    room: &mut Room,
    binders: &[u64],
    depth: usize,
    n: usize,
    e: usize,
) -> Result<usize, Refusal>
    requires base_len_bound { length base.now.words.now ≤ 4 * room.old.top }
    requires ready_term { ReadyTerm (base.now.words.now ++ work.old) binders.now room.old.top room.old.left n e }
    ensures { GivesTerm core 4 (base.now.words.now ++ work.old) (base.now.words.now ++ work.new) room.old.top room.old.left
        (λ ns. plain_in depth (replaced_in ns (base.now.words.now ++ work.old) binders.now n) (core ns (base.now.words.now ++ work.old) e) room.old.left) (applied_of result room.new.top room.new.left) }
{
    if depth == 0 {
        return Err(Refusal::Depth);
    }
    if room.left == 0 {
        return Err(Refusal::Steps);
    }
    let d = depth - 1;
    room.left -= 1;
    let p = cores::part_at(base, work, e);
    match p {
        Part::Var(_) => Ok(e),
        Part::Dict(x) => Ok(rows::replacement(binders, n, x, e)),
        Part::Context(_, _) => Ok(e),
        Part::Own => Ok(e),
        Part::Bool(_) => Ok(e),
        Part::Int(_) => Ok(e),
        Part::Abs(x, b) => in_abs(base, work, room, binders, d, n, x, b),
        Part::App(f, a) => in_call(base, work, room, binders, d, n, f, a),
        Part::Let(x, a, b) => in_let(base, work, room, binders, d, n, x, a, b),
        Part::DictAbs(v, b) => in_dict_abs(base, work, room, binders, d, n, v, b),
        Part::DictApp(f, v) => in_dict_app(base, work, room, binders, d, n, f, v),
        Part::Method(a, m) => in_method(base, work, room, binders, d, n, a, m),
        Part::Super(a, c, s) => in_super(base, work, room, binders, d, n, a, c, s),
        Part::Rec(_, _, _) => Ok(e),
    }
}

// The same at the function from the name x to the term b.
#[cycle(in_abs_in_call_in_dict_abs_in_dict_app_in_let_in_method_in_super_in_each_subst_core)]
fn in_abs(
    base: &Base,
    work: &mut [u64],
    room: &mut Room,
    binders: &[u64],
    depth: usize,
    n: usize,
    x: usize,
    b: usize,
) -> Result<usize, Refusal>
    requires base_len_bound { length base.now.words.now ≤ 4 * room.old.top }
    requires ready_term { ReadyTerm (base.now.words.now ++ work.old) binders.now room.old.top room.old.left n b }
    ensures { GivesTerm core 0 (base.now.words.now ++ work.old) (base.now.words.now ++ work.new) room.old.top room.old.left
        (λ ns. node_out ns (base.now.words.now ++ work.old) binders.now n depth room.old.left (cabs (name_of ns x) (core ns (base.now.words.now ++ work.old) b))) (applied_of result room.new.top room.new.left) }
{
    let m = subst_core(base, work, room, binders, depth, n, b)?;
    Ok(cores::push_abs(base, work, room, x, m))
}

// The same at the term f applied to the term a.
#[cycle(in_abs_in_call_in_dict_abs_in_dict_app_in_let_in_method_in_super_in_each_subst_core)]
fn in_call(
    base: &Base,
    work: &mut [u64],
    room: &mut Room,
    binders: &[u64],
    depth: usize,
    n: usize,
    f: usize,
    a: usize,
) -> Result<usize, Refusal>
    requires base_len_bound { length base.now.words.now ≤ 4 * room.old.top }
    requires ready_term { ReadyTerm (base.now.words.now ++ work.old) binders.now room.old.top room.old.left n f }
    requires node { Node (base.now.words.now ++ work.old) room.old.top a }
    ensures { GivesTerm core 0 (base.now.words.now ++ work.old) (base.now.words.now ++ work.new) room.old.top room.old.left
        (λ ns. node_out ns (base.now.words.now ++ work.old) binders.now n depth room.old.left (capp (core ns (base.now.words.now ++ work.old) f) (core ns (base.now.words.now ++ work.old) a))) (applied_of result room.new.top room.new.left) }
{
    let m = subst_core(base, work, room, binders, depth, n, f)?;
    let m2 = subst_core(base, work, room, binders, depth, n, a)?;
    Ok(cores::push_call(base, work, room, m, m2))
}

// The same at the term b in which the name x stands for the term a.
#[cycle(in_abs_in_call_in_dict_abs_in_dict_app_in_let_in_method_in_super_in_each_subst_core)]
fn in_let(
    base: &Base,
    work: &mut [u64],
    room: &mut Room,
    binders: &[u64],
    depth: usize,
    n: usize,
    x: usize,
    a: usize,
    b: usize,
) -> Result<usize, Refusal>
    requires base_len_bound { length base.now.words.now ≤ 4 * room.old.top }
    requires ready_term { ReadyTerm (base.now.words.now ++ work.old) binders.now room.old.top room.old.left n a }
    requires node { Node (base.now.words.now ++ work.old) room.old.top b }
    ensures { GivesTerm core 0 (base.now.words.now ++ work.old) (base.now.words.now ++ work.new) room.old.top room.old.left
        (λ ns. node_out ns (base.now.words.now ++ work.old) binders.now n depth room.old.left (clet (name_of ns x) (core ns (base.now.words.now ++ work.old) a) (core ns (base.now.words.now ++ work.old) b))) (applied_of result room.new.top room.new.left) }
{
    let m = subst_core(base, work, room, binders, depth, n, a)?;
    let m2 = subst_core(base, work, room, binders, depth, n, b)?;
    Ok(cores::push_let(base, work, room, x, m, m2))
}

// The same at the term b under the binders of the list v, which stays.
#[cycle(in_abs_in_call_in_dict_abs_in_dict_app_in_let_in_method_in_super_in_each_subst_core)]
fn in_dict_abs(
    base: &Base,
    work: &mut [u64],
    room: &mut Room,
    binders: &[u64],
    depth: usize,
    n: usize,
    v: usize,
    b: usize,
) -> Result<usize, Refusal>
    requires base_len_bound { length base.now.words.now ≤ 4 * room.old.top }
    requires ready_term { ReadyTerm (base.now.words.now ++ work.old) binders.now room.old.top room.old.left n b }
    requires node { Node (base.now.words.now ++ work.old) room.old.top v }
    ensures { GivesTerm core 0 (base.now.words.now ++ work.old) (base.now.words.now ++ work.new) room.old.top room.old.left
        (λ ns. node_out ns (base.now.words.now ++ work.old) binders.now n depth room.old.left (dict_abs (binders_of_word ns (base.now.words.now ++ work.old) v) (core ns (base.now.words.now ++ work.old) b))) (applied_of result room.new.top room.new.left) }
{
    let m = subst_core(base, work, room, binders, depth, n, b)?;
    Ok(cores::push_dict_abs(base, work, room, v, m))
}

// The same at the term f applied to the dictionaries of the list v.
#[cycle(in_abs_in_call_in_dict_abs_in_dict_app_in_let_in_method_in_super_in_each_subst_core)]
fn in_dict_app(
    base: &Base,
    work: &mut [u64],
    room: &mut Room,
    binders: &[u64],
    depth: usize,
    n: usize,
    f: usize,
    v: usize,
) -> Result<usize, Refusal>
    requires base_len_bound { length base.now.words.now ≤ 4 * room.old.top }
    requires ready_term { ReadyTerm (base.now.words.now ++ work.old) binders.now room.old.top room.old.left n f }
    requires node { Node (base.now.words.now ++ work.old) room.old.top v }
    ensures { GivesTerm core 0 (base.now.words.now ++ work.old) (base.now.words.now ++ work.new) room.old.top room.old.left
        (λ ns. node_out ns (base.now.words.now ++ work.old) binders.now n depth room.old.left (dict_app (core ns (base.now.words.now ++ work.old) f) (cores ns (base.now.words.now ++ work.old) v))) (applied_of result room.new.top room.new.left) }
{
    let m = subst_core(base, work, room, binders, depth, n, f)?;
    let m2 = lists::in_each(base, work, room, binders, depth, n, v)?;
    Ok(cores::push_app(base, work, room, m, m2))
}

// The same at the method x of the dictionary a.
#[cycle(in_abs_in_call_in_dict_abs_in_dict_app_in_let_in_method_in_super_in_each_subst_core)]
fn in_method(
    base: &Base,
    work: &mut [u64],
    room: &mut Room,
    binders: &[u64],
    depth: usize,
    n: usize,
    a: usize,
    x: usize,
) -> Result<usize, Refusal>
    requires base_len_bound { length base.now.words.now ≤ 4 * room.old.top }
    requires ready_term { ReadyTerm (base.now.words.now ++ work.old) binders.now room.old.top room.old.left n a }
    ensures { GivesTerm core 0 (base.now.words.now ++ work.old) (base.now.words.now ++ work.new) room.old.top room.old.left
        (λ ns. node_out ns (base.now.words.now ++ work.old) binders.now n depth room.old.left (dict_proj (core ns (base.now.words.now ++ work.old) a) (method (name_of ns x)))) (applied_of result room.new.top room.new.left) }
{
    let m = subst_core(base, work, room, binders, depth, n, a)?;
    Ok(cores::push_method(base, work, room, m, x))
}

// The same at the dictionary of the superclass s in the dictionary a of the class c.
#[cycle(in_abs_in_call_in_dict_abs_in_dict_app_in_let_in_method_in_super_in_each_subst_core)]
fn in_super(
    base: &Base,
    work: &mut [u64],
    room: &mut Room,
    binders: &[u64],
    depth: usize,
    n: usize,
    a: usize,
    c: usize,
    s: usize,
) -> Result<usize, Refusal>
    requires base_len_bound { length base.now.words.now ≤ 4 * room.old.top }
    requires ready_term { ReadyTerm (base.now.words.now ++ work.old) binders.now room.old.top room.old.left n a }
    ensures { GivesTerm core 0 (base.now.words.now ++ work.old) (base.now.words.now ++ work.new) room.old.top room.old.left
        (λ ns. node_out ns (base.now.words.now ++ work.old) binders.now n depth room.old.left (dict_proj (core ns (base.now.words.now ++ work.old) a) (super (name_of ns c) (name_of ns s)))) (applied_of result room.new.top room.new.left) }
{
    let m = subst_core(base, work, room, binders, depth, n, a)?;
    Ok(cores::push_proj(base, work, room, m, c, s))
}
