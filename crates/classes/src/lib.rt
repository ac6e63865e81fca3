// The class environment of 001 over words: a class and an instance are added, and a method is looked up.
#![tactic(auto)]

ghost use Rattle.std.specs.Prelude.{◌≡◌, ◌++◌, ◌+◌, ◌*◌, ◌<◌, ◌≤◌, length, IfOk};
ghost use Rattle.meaning.specs.Ast.{pred};
ghost use Rattle.names.specs.Names.{name_of};
ghost use Rattle.ast.specs.Table.{tree};
ghost use Rattle.instances.specs.Picks.{ReadyPick};
ghost use Rattle.instances.specs.Apart.{apart_of};
ghost use Rattle.classes.specs.Adding.{Knows, Puts, AddsClass, GivesInstance};
ghost use Rattle.classes.specs.Method.{LooksUp, with_method, Rowed, AddsMethods};

use ast::{Base, Room};
use errors::Refusal;

// Why a class is not added: a refusal, or the table has no room.
#[derive(Clone, Copy)]
pub enum NotAdded {
    Refused(Refusal),
    Full,
}

// A method's class, by its name, and its type there.
#[derive(Clone, Copy)]
pub struct Method {
    pub class: usize,
    pub ty: usize,
}

// Whether each superclass has been declared, in declared order; else the name of the first that has not.
pub fn supers_known(classes: &[u64], supers: &[u64]) -> Result<(), usize>
    ensures { Knows classes.now supers.now result }
{
    for i in 0..supers.len() {
        let s = supers[i] as usize;
        let known = supers::is_declared(classes, s);
        if !known {
            return Err(s);
        }
    }
    Ok(())
}

// Writes the superclasses of the class of name c after the words in use, and its row; how many words are in use then.
// No heap: a table is a lent slice, and how many of its words are in use stands beside it.
fn put_class(classes: &mut [u64], used: usize, c: usize, supers: &[u64]) -> Result<usize, NotAdded>
    ensures { Puts classes.old classes.new used c supers.now result }
{
    let n = classes.len();
    let k = supers.len();
    if c >= n / 2 {
        return Err(NotAdded::Full);
    }
    if used > n {
        return Err(NotAdded::Full);
    }
    if k > n - used {
        return Err(NotAdded::Full);
    }
    classes[used..used + k].copy_from_slice(supers);
    classes[2 * c] = used as u64;
    classes[2 * c + 1] = k as u64;
    Ok(used + k)
}

// `add_class`: the class of name c, if its superclasses are declared; how many words of the class table are in use then.
pub fn add_class(
    classes: &mut [u64],
    used: usize,
    c: usize,
    supers: &[u64],
) -> Result<usize, NotAdded>
    ensures { AddsClass classes.old classes.new used c supers.now result }
{
    let k = supers_known(classes, supers);
    match k {
        Ok(_) => put_class(classes, used, c, supers),
        Err(s) => Err(NotAdded::Refused(Refusal::MissingSuperclass(c, s))),
    }
}

// `add_instance`: whether an instance of class c at t may be added. Its words are the caller's to keep.
pub fn add_instance(
    base: &Base,
    work: &mut [u64],
    room: &mut Room,
    classes: &[u64],
    insts: &[u64],
    sp: usize,
    c: usize,
    t: usize,
) -> Result<(), Refusal>
    requires base_len_bound { length base.now.words.now ≤ 4 * room.old.top }
    requires ready_pick { ReadyPick base.now.names.now (base.now.words.now ++ work.old) insts.now room.old.top room.old.left sp t }
    ensures gives { GivesInstance base.now.names.now classes.now (base.now.words.now ++ work.old) (base.now.words.now ++ work.new) insts.now room.old.top room.old.left sp
        (pred (name_of base.now.names.now c) (tree base.now.names.now (base.now.words.now ++ work.old) t)) (apart_of result room.new.top room.new.left) }
    ensures stays { IfOk result (λ x. room.new.top ≡ room.old.top) }
{
    let known = supers::is_declared(classes, c);
    if !known {
        return Err(Refusal::UnknownClass(c));
    }
    instances::none_overlaps(base, work, room, insts, sp, c, t)
}

// `lookup_method`: what the method table has for the method of name m.
pub fn lookup_method(methods: &[u64], m: usize) -> Option<Method>
    ensures { LooksUp methods.now m result }
{
    if m >= methods.len() / 2 {
        return None;
    }
    let c = methods[2 * m] as usize;
    if c == 0 {
        return None;
    }
    Some(Method {
        class: c - 1,
        ty: methods[2 * m + 1] as usize,
    })
}

// One signature of a class: the method of name m is the class's from now on, unless an earlier signature made it so.
fn add_method(methods: &mut [u64], m: usize, c: usize, t: usize)
    requires c_in_bounds { 2 * c + 1 < length methods.old }
    requires m_in_bounds { 2 * m + 1 < length methods.old }
    ensures { methods.new ≡ with_method methods.old m c t }
{
    let of = c + 1;
    if methods[2 * m] as usize == of {
        return;
    }
    methods[2 * m] = of as u64;
    methods[2 * m + 1] = t as u64;
}

// The signatures of a new class of name c, a method's name and a type's word each.
pub fn add_methods(methods: &mut [u64], c: usize, sigs: &[u64])
    requires { Rowed methods.old c sigs.now }
    ensures { AddsMethods methods.old methods.new c sigs.now }
{
    for j in 0..sigs.len() / 2 {
        add_method(methods, sigs[2 * j] as usize, c, sigs[2 * j + 1] as usize);
    }
}
