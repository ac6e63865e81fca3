// Accepted instances of 001: looking one up by its head, and the test whether a new head overlaps an older one.
#![tactic(auto)]

ghost use Rattle.std.specs.Prelude.{◌≡◌, IfOk, Ok, None, ◌++◌, ◌*◌, ◌<◌, ◌≤◌, length, get_or};
ghost use Rattle.std.proofs.Math.Option.{none};
ghost use Rattle.meaning.specs.Ast.{pred};
ghost use Rattle.meaning.specs.Budget.{settled};
ghost use Rattle.meaning.specs.Unify.{match_in};
ghost use Rattle.meaning.specs.Classes as M;
ghost use Rattle.names.specs.Names.{name_of};
ghost use Rattle.ast.specs.Table.{tree};
ghost use Rattle.compose.specs.Answers.{ReadyU};
ghost use Rattle.instances.specs.Accepted.{Openable, Opened, head_of};
ghost use Rattle.instances.specs.Tried.{tried_of};
ghost use Rattle.instances.specs.Picked.{picked_of};
ghost use Rattle.instances.specs.Truth.{truth_of};
ghost use Rattle.instances.specs.Apart.{apart_of};
ghost use Rattle.instances.specs.Picks.{tried, clash, ReadyPick, Tries, GivesPick, Tests, GivesApart};

use ast::{Base, Cell, Room};
use errors::{DEPTH, Refusal};

// An instance: its head's class and type, and the list of its context.
#[derive(Clone, Copy)]
pub struct Instance {
    pub class: usize,
    pub head: usize,
    pub context: usize,
}

// An instance that was chosen, by its number, and how many pairs its match has.
#[derive(Clone, Copy)]
pub struct Match {
    pub index: usize,
    pub pairs: usize,
}

// Instance number i: all reading of an instance's words.
pub fn instance_at(base: &Base, work: &[u64], insts: &[u64], i: usize) -> Instance
    requires i_in_bounds { i < length insts.now }
    requires openable { Openable (base.now.words.now ++ work.now) (get_or insts.now i 0) }
    ensures { Opened (base.now.words.now ++ work.now) (get_or insts.now i 0) result.class result.head result.context }
{
    let l = insts[i] as usize;
    let c = ast::cell_at(base, work, l);
    match c {
        Cell::Cons(a, b) => Instance {
            class: subst::class_at(base, work, l),
            head: a,
            context: b,
        },
        Cell::Nil => unreachable!(),
    }
}

// `attempt` of a match: an error of the Rust is no match, and its steps are spent and the nodes that it wrote are given back; a
// refusal that the port adds stays.
fn try_match(
    base: &Base,
    work: &mut [u64],
    room: &mut Room,
    sp: usize,
    s: usize,
    t: usize,
) -> Result<Option<usize>, Refusal>
    requires base_len_bound { length base.now.words.now ≤ 4 * room.old.top }
    requires ready_u { ReadyU base.now.names.now (base.now.words.now ++ work.old) room.old.top room.old.left sp s t }
    ensures gives { Tries base.now.names.now (base.now.words.now ++ work.old) (base.now.words.now ++ work.new) room.old.top room.old.left sp
        (settled (match_in 256 (tree base.now.names.now (base.now.words.now ++ work.old) s) (tree base.now.names.now (base.now.words.now ++ work.old) t) room.old.left)) (tried_of result room.new.top room.new.left) }
    ensures stays { result ≡ Ok None → room.new.top ≡ room.old.top }
{
    let top = room.top;
    match matching::match_ty(base, work, room, DEPTH, sp, s, t) {
        Ok(k) => Ok(Some(k)),
        Err(e) => {
            if errors::number(e) < 11 {
                return Err(e);
            }
            room.top = top;
            Ok(None)
        }
    }
}

// The head of instance number i against a goal of class c at t.
fn try_instance(
    base: &Base,
    work: &mut [u64],
    room: &mut Room,
    insts: &[u64],
    sp: usize,
    i: usize,
    c: usize,
    t: usize,
) -> Result<Option<usize>, Refusal>
    requires base_len_bound { length base.now.words.now ≤ 4 * room.old.top }
    requires ready_pick { ReadyPick base.now.names.now (base.now.words.now ++ work.old) insts.now room.old.top room.old.left sp t }
    requires i_in_bounds { i < length insts.now }
    ensures gives { Tries base.now.names.now (base.now.words.now ++ work.old) (base.now.words.now ++ work.new) room.old.top room.old.left sp
        (tried (head_of base.now.names.now (base.now.words.now ++ work.old) (get_or insts.now i 0))
        (pred (name_of base.now.names.now c) (tree base.now.names.now (base.now.words.now ++ work.old) t)) room.old.left) (tried_of result room.new.top room.new.left) }
    ensures stays { result ≡ Ok None → room.new.top ≡ room.old.top }
{
    let x = instance_at(base, work, insts, i);
    if x.class != c {
        return Ok(None);
    }
    try_match(base, work, room, sp, x.head, t)
}

// `by_inst`: the first instance whose head matches a goal of class c at t. Its match is left as pairs that end at sp.
pub fn by_inst(
    base: &Base,
    work: &mut [u64],
    room: &mut Room,
    insts: &[u64],
    sp: usize,
    c: usize,
    t: usize,
) -> Result<Option<Match>, Refusal>
    requires base_len_bound { length base.now.words.now ≤ 4 * room.old.top }
    requires ready_pick { ReadyPick base.now.names.now (base.now.words.now ++ work.old) insts.now room.old.top room.old.left sp t }
    ensures gives { GivesPick base.now.names.now (base.now.words.now ++ work.old) (base.now.words.now ++ work.new) insts.now room.old.top room.old.left sp
        (pred (name_of base.now.names.now c) (tree base.now.names.now (base.now.words.now ++ work.old) t)) (picked_of result room.new.top room.new.left) }
    ensures stays { result ≡ Ok None → room.new.top ≡ room.old.top }
{
    for i in 0..insts.len() {
        let r = try_instance(base, work, room, insts, sp, i, c, t)?;
        if let Some(k) = r {
            return Ok(Some(Match { index: i, pairs: k }));
        }
    }
    Ok(None)
}

// The second way of `overlaps`: b against a.
fn overlaps_back(
    base: &Base,
    work: &mut [u64],
    room: &mut Room,
    sp: usize,
    a: usize,
    b: usize,
) -> Result<bool, Refusal>
    requires base_len_bound { length base.now.words.now ≤ 4 * room.old.top }
    requires ready_u { ReadyU base.now.names.now (base.now.words.now ++ work.old) room.old.top room.old.left sp a b }
    ensures gives { Tests base.now.names.now (base.now.words.now ++ work.old) (base.now.words.now ++ work.new) room.old.top room.old.left sp
        (M.or_back none (tree base.now.names.now (base.now.words.now ++ work.old) a) (tree base.now.names.now (base.now.words.now ++ work.old) b) room.old.left) (truth_of result room.new.top room.new.left) }
    ensures stays { IfOk result (λ x. room.new.top ≡ room.old.top) }
{
    let top = room.top;
    let r = try_match(base, work, room, sp, b, a)?;
    room.top = top;
    Ok(r.is_some())
}

// `overlaps`: whether a matches b or b matches a.
pub fn overlaps(
    base: &Base,
    work: &mut [u64],
    room: &mut Room,
    sp: usize,
    a: usize,
    b: usize,
) -> Result<bool, Refusal>
    requires base_len_bound { length base.now.words.now ≤ 4 * room.old.top }
    requires ready_u { ReadyU base.now.names.now (base.now.words.now ++ work.old) room.old.top room.old.left sp a b }
    ensures gives { Tests base.now.names.now (base.now.words.now ++ work.old) (base.now.words.now ++ work.new) room.old.top room.old.left sp
        (M.overlaps (tree base.now.names.now (base.now.words.now ++ work.old) a) (tree base.now.names.now (base.now.words.now ++ work.old) b) room.old.left) (truth_of result room.new.top room.new.left) }
    ensures stays { IfOk result (λ x. room.new.top ≡ room.old.top) }
{
    let top = room.top;
    let r = try_match(base, work, room, sp, a, b)?;
    match r {
        Some(_) => {
            room.top = top;
            Ok(true)
        }
        None => overlaps_back(base, work, room, sp, a, b),
    }
}

// Whether the head of instance number i overlaps a new head of class c at t.
fn overlaps_instance(
    base: &Base,
    work: &mut [u64],
    room: &mut Room,
    insts: &[u64],
    sp: usize,
    i: usize,
    c: usize,
    t: usize,
) -> Result<bool, Refusal>
    requires base_len_bound { length base.now.words.now ≤ 4 * room.old.top }
    requires ready_pick { ReadyPick base.now.names.now (base.now.words.now ++ work.old) insts.now room.old.top room.old.left sp t }
    requires i_in_bounds { i < length insts.now }
    ensures gives { Tests base.now.names.now (base.now.words.now ++ work.old) (base.now.words.now ++ work.new) room.old.top room.old.left sp
        (clash (head_of base.now.names.now (base.now.words.now ++ work.old) (get_or insts.now i 0))
        (pred (name_of base.now.names.now c) (tree base.now.names.now (base.now.words.now ++ work.old) t)) room.old.left) (truth_of result room.new.top room.new.left) }
    ensures stays { IfOk result (λ x. room.new.top ≡ room.old.top) }
{
    let x = instance_at(base, work, insts, i);
    if x.class != c {
        return Ok(false);
    }
    overlaps(base, work, room, sp, x.head, t)
}

// The test of `add_instance`: no older head of the class c overlaps a new one at t, or 18.
pub fn none_overlaps(
    base: &Base,
    work: &mut [u64],
    room: &mut Room,
    insts: &[u64],
    sp: usize,
    c: usize,
    t: usize,
) -> Result<(), Refusal>
    requires base_len_bound { length base.now.words.now ≤ 4 * room.old.top }
    requires ready_pick { ReadyPick base.now.names.now (base.now.words.now ++ work.old) insts.now room.old.top room.old.left sp t }
    ensures gives { GivesApart base.now.names.now (base.now.words.now ++ work.old) (base.now.words.now ++ work.new) insts.now room.old.top room.old.left sp
        (pred (name_of base.now.names.now c) (tree base.now.names.now (base.now.words.now ++ work.old) t)) (apart_of result room.new.top room.new.left) }
    ensures stays { IfOk result (λ x. room.new.top ≡ room.old.top) }
{
    for j in 0..insts.len() {
        let r = overlaps_instance(base, work, room, insts, sp, j, c, t)?;
        if r {
            return Err(Refusal::DuplicateInstance(c, t));
        }
    }
    Ok(())
}
