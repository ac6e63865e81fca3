// `resolve` of 001 over words: a goal's dictionary from the givens, or else from the first instance whose head matches.
#![tactic(auto)]

ghost use Rattle.std.specs.Prelude.{◌≡◌, ◌++◌, ◌+◌, ◌*◌, ◌-◌, ◌≤◌, length, get_or};
ghost use Rattle.std.proofs.Math.Option.{none};
ghost use Rattle.meaning.specs.Ast.{pred};
ghost use Rattle.meaning.specs.Classes as M;
ghost use Rattle.names.specs.Names.{name_of};
ghost use Rattle.ast.specs.Table.{tree, Node};
ghost use Rattle.pairs.specs.Pairs.{sub_at};
ghost use Rattle.subst.specs.Preds.{preds_of_word};
ghost use Rattle.instances.specs.Accepted.{Instances, Stored};
ghost use Rattle.instances.specs.Picks.{ReadyPick};
ghost use Rattle.cores.specs.Terms.{core, cores};
ghost use Rattle.supers.specs.Givens.{givens_of};
ghost use Rattle.resolve.specs.Resolved.{resolved_of};
ghost use Rattle.resolve.specs.Choice.{choice_of};
ghost use Rattle.resolve.specs.Ways.{or_way, way_to, dictionary};
ghost use Rattle.resolve.specs.Resolves.{Declared, ReadyResolve, ReadyBuild, GivesCore, GivesWay, Wraps};

use ast::{Base, Cell, Room};
use errors::{DEPTH, Refusal};
use instances::Match;
use pairs::Subst;
use supers::Root;

// The declared classes and instances.
#[derive(Clone, Copy)]
pub struct Rules<'a> {
    pub classes: &'a [u64],
    pub insts: &'a [u64],
}

// The way to a dictionary: its word; or an instance with its match, and the list of its subgoals.
#[derive(Clone, Copy)]
enum Way {
    Given(usize),
    By(Match, usize),
}

// The way by the first instance whose head matches a goal of class c at t, its contexts filled. Its match is left as pairs
// that end at sp.
fn choose(
    base: &Base,
    work: &mut [u64],
    room: &mut Room,
    insts: &[u64],
    sp: usize,
    c: usize,
    t: usize,
) -> Result<Way, Refusal>
    requires base_len_bound { length base.now.words.now ≤ 4 * room.old.top }
    requires ready_pick { ReadyPick base.now.names.now (base.now.words.now ++ work.old) insts.now room.old.top room.old.left sp t }
    ensures { GivesWay (λ ce. Instances base.now.names.now (base.now.words.now ++ work.old) room.old.top insts.now ce.instances)
        base.now.names.now (base.now.words.now ++ work.old) (base.now.words.now ++ work.new) insts.now room.old.top room.old.left sp
        (λ ce. or_way ce (pred (name_of base.now.names.now c) (tree base.now.names.now (base.now.words.now ++ work.old) t)) none room.old.left) (choice_of result room.new.top room.new.left) }
{
    let p = instances::by_inst(base, work, room, insts, sp, c, t)?;
    let Some(m) = p else {
        return Err(Refusal::NoInstance(c, t));
    };
    let x = instances::instance_at(base, work, insts, m.index);
    let sub = Subst {
        at: sp - 2 * m.pairs,
        k: m.pairs,
    };
    let g = subst::apply_preds(base, work, room, sub, x.context)?;
    Ok(Way::By(m, g))
}

// The way to the dictionary of a goal of class c at t: the givens of the list l first, then the instances.
fn find_way(
    base: &Base,
    work: &mut [u64],
    room: &mut Room,
    rules: Rules,
    sp: usize,
    root: Root,
    l: usize,
    c: usize,
    t: usize,
) -> Result<Way, Refusal>
    requires base_len_bound { length base.now.words.now ≤ 4 * room.old.top }
    requires ready_resolve { ReadyResolve base.now.names.now (base.now.words.now ++ work.old) rules.insts.now room.old.top room.old.left sp root l t }
    ensures { GivesWay (Declared base.now.names.now rules.entry.classes.now (base.now.words.now ++ work.old) room.old.top rules.entry.insts.now)
        base.now.names.now (base.now.words.now ++ work.old) (base.now.words.now ++ work.new) rules.entry.insts.now room.old.top room.old.left sp
        (λ ce. way_to ce (givens_of base.now.names.now (base.now.words.now ++ work.old) root 0 l)
        (pred (name_of base.now.names.now c) (tree base.now.names.now (base.now.words.now ++ work.old) t)) room.old.left) (choice_of result room.new.top room.new.left) }
{
    let f = supers::resolve_from_givens(base, work, room, rules.classes, sp, root, l, c, t)?;
    match f {
        Some(e) => Ok(Way::Given(e)),
        None => choose(base, work, room, rules.insts, sp, c, t),
    }
}

// A term alone, or applied to the terms of a list that is not empty.
fn with_args(base: &Base, work: &mut [u64], room: &mut Room, f: usize, es: usize) -> usize
    requires base_len_bound { length base.now.words.now ≤ 4 * room.old.top }
    requires top_in_bounds { 4 * room.old.top + 4 ≤ length (base.now.words.now ++ work.old) }
    requires node { Node (base.now.words.now ++ work.old) room.old.top f }
    requires node_2 { Node (base.now.words.now ++ work.old) room.old.top es }
    ensures wraps { Wraps (base.now.words.now ++ work.old) (base.now.words.now ++ work.new) room.old.top f es result room.new.top }
    ensures left { room.new.left ≡ room.old.left }
{
    let c = ast::cell_at(base, work, es);
    match c {
        Cell::Nil => f,
        Cell::Cons(_, _) => cores::push_app(base, work, room, f, es),
    }
}

// The dictionary of instance i from the list of its subgoals' dictionaries: the pairs fill its head.
fn build(
    base: &Base,
    work: &mut [u64],
    room: &mut Room,
    insts: &[u64],
    sub: Subst,
    i: usize,
    es: usize,
) -> Result<usize, Refusal>
    requires base_len_bound { length base.now.words.now ≤ 4 * room.old.top }
    requires ready_build { ReadyBuild base.now.names.now (base.now.words.now ++ work.old) insts.now room.old.top room.old.left sub.at sub.k i es }
    ensures { GivesCore (Stored base.now.names.now (base.now.words.now ++ work.old) room.old.top (get_or insts.now i 0))
        (core base.now.names.now (base.now.words.now ++ work.new)) (4 * room.old.top + 8 * room.old.left + 4) 0
        base.now.names.now (base.now.words.now ++ work.old) (base.now.words.now ++ work.new) room.old.top room.old.left sub.at
        (λ inst. dictionary (record { index = i; inst = inst; fills = sub_at base.now.names.now (base.now.words.now ++ work.old) sub.at sub.k })
        (cores base.now.names.now (base.now.words.now ++ work.old) es) room.old.left) (resolved_of result room.new.top room.new.left) }
{
    let x = instances::instance_at(base, work, insts, i);
    let u = apply::apply(base, work, room, DEPTH, sub, x.head)?;
    let d = cores::push_rec(base, work, room, x.class, u, i);
    Ok(with_args(base, work, room, d, es))
}

// The dictionaries of a list of goals, one after the other, each with so much depth left.
#[cycle(all_resolved_resolve)]
fn all_resolved(
    base: &Base,
    work: &mut [u64],
    room: &mut Room,
    rules: Rules,
    depth: usize,
    sp: usize,
    root: Root,
    l: usize,
    goals: usize,
) -> Result<usize, Refusal>
    requires base_len_bound { length base.now.words.now ≤ 4 * room.old.top }
    requires ready_resolve { ReadyResolve base.now.names.now (base.now.words.now ++ work.old) rules.insts.now room.old.top room.old.left sp root l goals }
    ensures { GivesCore (Declared base.now.names.now rules.entry.classes.now (base.now.words.now ++ work.old) room.old.top rules.entry.insts.now)
        (cores base.now.names.now (base.now.words.now ++ work.new)) (4 * room.old.top + 8 * room.old.left) 0
        base.now.names.now (base.now.words.now ++ work.old) (base.now.words.now ++ work.new) room.old.top room.old.left sp
        (λ ce. M.all_resolved (λ q. M.resolve_in depth ce (givens_of base.now.names.now (base.now.words.now ++ work.old) root 0 l) q)
        (preds_of_word base.now.names.now (base.now.words.now ++ work.old) goals) room.old.left) (resolved_of result room.new.top room.new.left) }
{
    let c = ast::cell_at(base, work, goals);
    match c {
        Cell::Nil => Ok(goals),
        Cell::Cons(t, b) => {
            let p = subst::class_at(base, work, goals);
            let e = resolve(base, work, room, rules, depth, sp, root, l, p, t)?;
            let es = all_resolved(base, work, room, rules, depth, sp, root, l, b)?;
            Ok(ast::add(base, work, room, ast::CONS, e, es))
        }
    }
}

// `resolve`: the dictionary of a goal of class c at t, with so much depth left.
#[cycle(all_resolved_resolve)]
pub fn resolve(
    base: &Base,
    work: &mut [u64],
    room: &mut Room,
    rules: Rules,
    depth: usize,
    sp: usize,
    root: Root,
    l: usize,
    c: usize,
    t: usize,
) -> Result<usize, Refusal>
    requires base_len_bound { length base.now.words.now ≤ 4 * room.old.top }
    requires ready_resolve { ReadyResolve base.now.names.now (base.now.words.now ++ work.old) rules.insts.now room.old.top room.old.left sp root l t }
    ensures { GivesCore (Declared base.now.names.now rules.entry.classes.now (base.now.words.now ++ work.old) room.old.top rules.entry.insts.now)
        (core base.now.names.now (base.now.words.now ++ work.new)) (4 * room.old.top + 8 * room.old.left - 4) 1
        base.now.names.now (base.now.words.now ++ work.old) (base.now.words.now ++ work.new) room.old.top room.old.left sp
        (λ ce. M.resolve_in depth ce (givens_of base.now.names.now (base.now.words.now ++ work.old) root 0 l)
        (pred (name_of base.now.names.now c) (tree base.now.names.now (base.now.words.now ++ work.old) t)) room.old.left) (resolved_of result room.new.top room.new.left) }
{
    if depth == 0 {
        return Err(Refusal::Depth);
    }
    if room.left == 0 {
        return Err(Refusal::Steps);
    }
    let d = depth - 1;
    room.left -= 1;
    let f = find_way(base, work, room, rules, sp, root, l, c, t)?;
    match f {
        Way::Given(e) => Ok(e),
        Way::By(m, g) => {
            let sub = Subst {
                at: sp - 2 * m.pairs,
                k: m.pairs,
            };
            let es = all_resolved(base, work, room, rules, d, sub.at, root, l, g)?;
            build(base, work, room, rules.insts, sub, m.index, es)
        }
    }
}
