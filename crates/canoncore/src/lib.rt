// `apply_subst_to_core` of 000 over words, for substitutions that make type variables letters.
// The Rust has a walk of its own for this and for `subst_core` (crate terms), and so each has its place here.
#![tactic(auto)]

mod lists;
pub mod rows;
mod types;

ghost use Rattle.std.specs.Prelude.{◌++◌, ◌+◌, ◌*◌, ◌≤◌, length};
ghost use Rattle.meaning.specs.Ast.{method, super, cabs, capp, clet, dict_abs, dict_app, dict_proj};
ghost use Rattle.meaning.specs.Cores.{apply_core_in};
ghost use Rattle.names.specs.Names.{name_of};
ghost use Rattle.apply.specs.Applied.{applied_of};
ghost use Rattle.ast.specs.Table.{Node};
ghost use Rattle.cores.specs.Binders.{binders_of_word};
ghost use Rattle.cores.specs.Terms.{core, cores};
ghost use Rattle.canoncore.specs.Lettered.{ReadyLetters, GivesLettered, node_out};

use ast::{Base, Room};
use cores::Part;
use errors::Refusal;

// `apply_subst_to_core` of the term e with so much depth left, for every substitution that makes words letters.
#[cycle(in_abs_in_call_in_dict_abs_in_dict_app_in_let_in_method_in_super_in_each_rename_core)]
pub fn rename_core(
    base: &Base,
    work: &mut [u64],
    room: &mut Room,
    letters: &[u64],
    depth: usize,
    e: usize,
) -> Result<usize, Refusal>
    requires base_len_bound { length base.now.words.now ≤ 4 * room.old.top }
    requires ready_letters { ReadyLetters base.now.names.now (base.now.words.now ++ work.old) letters.now room.old.top room.old.left e }
    ensures { GivesLettered core 4 base.now.names.now letters.now (base.now.words.now ++ work.old) (base.now.words.now ++ work.new) room.old.top room.old.left
        (λ s. apply_core_in depth s (core base.now.names.now (base.now.words.now ++ work.old) e) room.old.left) (applied_of result room.new.top room.new.left) }
{
    if depth == 0 {
        return Err(Refusal::Depth);
    }
    if room.left == 0 {
        return Err(Refusal::Steps);
    }
    let d = depth - 1;
    room.left -= 1;
    let p = cores::part_at(base, work, e);
    match p {
        Part::Var(_) => Ok(e),
        Part::Dict(_) => Ok(e),
        Part::Context(_, _) => Ok(e),
        Part::Own => Ok(e),
        Part::Bool(_) => Ok(e),
        Part::Int(_) => Ok(e),
        Part::Abs(x, b) => in_abs(base, work, room, letters, d, x, b),
        Part::App(f, a) => in_call(base, work, room, letters, d, f, a),
        Part::Let(x, a, b) => in_let(base, work, room, letters, d, x, a, b),
        Part::DictAbs(v, b) => in_dict_abs(base, work, room, letters, d, v, b),
        Part::DictApp(f, v) => in_dict_app(base, work, room, letters, d, f, v),
        Part::Method(a, x) => in_method(base, work, room, letters, d, a, x),
        Part::Super(a, c, s) => in_super(base, work, room, letters, d, a, c, s),
        Part::Rec(c, u, i) => types::in_rec(base, work, room, letters, c, u, i),
    }
}

// The same at the function from the name x to the term b.
#[cycle(in_abs_in_call_in_dict_abs_in_dict_app_in_let_in_method_in_super_in_each_rename_core)]
fn in_abs(
    base: &Base,
    work: &mut [u64],
    room: &mut Room,
    letters: &[u64],
    depth: usize,
    x: usize,
    b: usize,
) -> Result<usize, Refusal>
    requires base_len_bound { length base.now.words.now ≤ 4 * room.old.top }
    requires ready_letters { ReadyLetters base.now.names.now (base.now.words.now ++ work.old) letters.now room.old.top room.old.left b }
    ensures { GivesLettered core 0 base.now.names.now letters.now (base.now.words.now ++ work.old) (base.now.words.now ++ work.new) room.old.top room.old.left
        (λ s. node_out depth room.old.left s (cabs (name_of base.now.names.now x) (core base.now.names.now (base.now.words.now ++ work.old) b))) (applied_of result room.new.top room.new.left) }
{
    let m = rename_core(base, work, room, letters, depth, b)?;
    Ok(cores::push_abs(base, work, room, x, m))
}

// The same at the term f applied to the term a.
#[cycle(in_abs_in_call_in_dict_abs_in_dict_app_in_let_in_method_in_super_in_each_rename_core)]
fn in_call(
    base: &Base,
    work: &mut [u64],
    room: &mut Room,
    letters: &[u64],
    depth: usize,
    f: usize,
    a: usize,
) -> Result<usize, Refusal>
    requires base_len_bound { length base.now.words.now ≤ 4 * room.old.top }
    requires ready_letters { ReadyLetters base.now.names.now (base.now.words.now ++ work.old) letters.now room.old.top room.old.left f }
    requires node { Node (base.now.words.now ++ work.old) room.old.top a }
    ensures { GivesLettered core 0 base.now.names.now letters.now (base.now.words.now ++ work.old) (base.now.words.now ++ work.new) room.old.top room.old.left
        (λ s. node_out depth room.old.left s (capp (core base.now.names.now (base.now.words.now ++ work.old) f) (core base.now.names.now (base.now.words.now ++ work.old) a))) (applied_of result room.new.top room.new.left) }
{
    let m = rename_core(base, work, room, letters, depth, f)?;
    let m2 = rename_core(base, work, room, letters, depth, a)?;
    Ok(cores::push_call(base, work, room, m, m2))
}

// The same at the term b in which the name x stands for the term a.
#[cycle(in_abs_in_call_in_dict_abs_in_dict_app_in_let_in_method_in_super_in_each_rename_core)]
fn in_let(
    base: &Base,
    work: &mut [u64],
    room: &mut Room,
    letters: &[u64],
    depth: usize,
    x: usize,
    a: usize,
    b: usize,
) -> Result<usize, Refusal>
    requires base_len_bound { length base.now.words.now ≤ 4 * room.old.top }
    requires ready_letters { ReadyLetters base.now.names.now (base.now.words.now ++ work.old) letters.now room.old.top room.old.left a }
    requires node { Node (base.now.words.now ++ work.old) room.old.top b }
    ensures { GivesLettered core 0 base.now.names.now letters.now (base.now.words.now ++ work.old) (base.now.words.now ++ work.new) room.old.top room.old.left
        (λ s. node_out depth room.old.left s (clet (name_of base.now.names.now x) (core base.now.names.now (base.now.words.now ++ work.old) a) (core base.now.names.now (base.now.words.now ++ work.old) b))) (applied_of result room.new.top room.new.left) }
{
    let m = rename_core(base, work, room, letters, depth, a)?;
    let m2 = rename_core(base, work, room, letters, depth, b)?;
    Ok(cores::push_let(base, work, room, x, m, m2))
}

// The same at the term b under the binders of the list v.
#[cycle(in_abs_in_call_in_dict_abs_in_dict_app_in_let_in_method_in_super_in_each_rename_core)]
fn in_dict_abs(
    base: &Base,
    work: &mut [u64],
    room: &mut Room,
    letters: &[u64],
    depth: usize,
    v: usize,
    b: usize,
) -> Result<usize, Refusal>
    requires base_len_bound { length base.now.words.now ≤ 4 * room.old.top }
    requires ready_letters { ReadyLetters base.now.names.now (base.now.words.now ++ work.old) letters.now room.old.top room.old.left v }
    requires node { Node (base.now.words.now ++ work.old) room.old.top b }
    ensures { GivesLettered core 0 base.now.names.now letters.now (base.now.words.now ++ work.old) (base.now.words.now ++ work.new) room.old.top room.old.left
        (λ s. node_out depth room.old.left s (dict_abs (binders_of_word base.now.names.now (base.now.words.now ++ work.old) v) (core base.now.names.now (base.now.words.now ++ work.old) b))) (applied_of result room.new.top room.new.left) }
{
    let m = types::rename_binders(base, work, room, letters, v)?;
    let m2 = rename_core(base, work, room, letters, depth, b)?;
    Ok(cores::push_dict_abs(base, work, room, m, m2))
}

// The same at the term f applied to the dictionaries of the list v.
#[cycle(in_abs_in_call_in_dict_abs_in_dict_app_in_let_in_method_in_super_in_each_rename_core)]
fn in_dict_app(
    base: &Base,
    work: &mut [u64],
    room: &mut Room,
    letters: &[u64],
    depth: usize,
    f: usize,
    v: usize,
) -> Result<usize, Refusal>
    requires base_len_bound { length base.now.words.now ≤ 4 * room.old.top }
    requires ready_letters { ReadyLetters base.now.names.now (base.now.words.now ++ work.old) letters.now room.old.top room.old.left f }
    requires node { Node (base.now.words.now ++ work.old) room.old.top v }
    ensures { GivesLettered core 0 base.now.names.now letters.now (base.now.words.now ++ work.old) (base.now.words.now ++ work.new) room.old.top room.old.left
        (λ s. node_out depth room.old.left s (dict_app (core base.now.names.now (base.now.words.now ++ work.old) f) (cores base.now.names.now (base.now.words.now ++ work.old) v))) (applied_of result room.new.top room.new.left) }
{
    let m = rename_core(base, work, room, letters, depth, f)?;
    let m2 = lists::in_each(base, work, room, letters, depth, v)?;
    Ok(cores::push_app(base, work, room, m, m2))
}

// The same at the method x of the dictionary a.
#[cycle(in_abs_in_call_in_dict_abs_in_dict_app_in_let_in_method_in_super_in_each_rename_core)]
fn in_method(
    base: &Base,
    work: &mut [u64],
    room: &mut Room,
    letters: &[u64],
    depth: usize,
    a: usize,
    x: usize,
) -> Result<usize, Refusal>
    requires base_len_bound { length base.now.words.now ≤ 4 * room.old.top }
    requires ready_letters { ReadyLetters base.now.names.now (base.now.words.now ++ work.old) letters.now room.old.top room.old.left a }
    ensures { GivesLettered core 0 base.now.names.now letters.now (base.now.words.now ++ work.old) (base.now.words.now ++ work.new) room.old.top room.old.left
        (λ s. node_out depth room.old.left s (dict_proj (core base.now.names.now (base.now.words.now ++ work.old) a) (method (name_of base.now.names.now x)))) (applied_of result room.new.top room.new.left) }
{
    let m = rename_core(base, work, room, letters, depth, a)?;
    Ok(cores::push_method(base, work, room, m, x))
}

// The same at the dictionary of the superclass s in the dictionary a of the class c.
#[cycle(in_abs_in_call_in_dict_abs_in_dict_app_in_let_in_method_in_super_in_each_rename_core)]
fn in_super(
    base: &Base,
    work: &mut [u64],
    room: &mut Room,
    letters: &[u64],
    depth: usize,
    a: usize,
    c: usize,
    s: usize,
) -> Result<usize, Refusal>
    requires base_len_bound { length base.now.words.now ≤ 4 * room.old.top }
    requires ready_letters { ReadyLetters base.now.names.now (base.now.words.now ++ work.old) letters.now room.old.top room.old.left a }
    ensures { GivesLettered core 0 base.now.names.now letters.now (base.now.words.now ++ work.old) (base.now.words.now ++ work.new) room.old.top room.old.left
        (λ σ. node_out depth room.old.left σ (dict_proj (core base.now.names.now (base.now.words.now ++ work.old) a) (super (name_of base.now.names.now c) (name_of base.now.names.now s)))) (applied_of result room.new.top room.new.left) }
{
    let m = rename_core(base, work, room, letters, depth, a)?;
    Ok(cores::push_proj(base, work, room, m, c, s))
}
