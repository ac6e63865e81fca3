// The search of 001 over givens and their superclass entries: `by_super` as a walk, up to the first entry that is the goal.
#![tactic(auto)]

mod path;
pub mod rows;

ghost use Rattle.std.specs.Prelude.{◌≡◌, Ok, None, true, false, ◌++◌, ◌+◌, ◌*◌, ◌-◌, ◌≤◌, length};
ghost use Rattle.meaning.specs.Ast.{pred};
ghost use Rattle.meaning.specs.Classes.{from_givens, resolve_from_givens};
ghost use Rattle.meaning.specs.Reduce.{find_super_proof};
ghost use Rattle.names.specs.Names.{name_of};
ghost use Rattle.ast.specs.Table.{tree, Node};
ghost use Rattle.cores.specs.Binders.{binders_of_word};
ghost use Rattle.supers.specs.ClassTable.{declared_at, super_at};
ghost use Rattle.supers.specs.Givens.{givens_of, givens_in, Few, ListedAt};
ghost use Rattle.supers.specs.Searched.{searched_of};
ghost use Rattle.supers.specs.Search.{hits, ReadyIn, ReadySearch, GivesFound};

use ast::{Base, Cell, Room};
use errors::Refusal;
use path::Entered;

// Whose dictionaries a list of givens names: the context of an instance of a class, or binders.
#[derive(Clone, Copy)]
pub enum Root {
    Context(usize),
    Binder,
}

// Where givens stand: in a list of the table, or in the rows of a lent slice up to a number.
#[derive(Clone, Copy)]
pub enum Source {
    Listed(Root),
    Rows(usize),
}

// The first of some givens: its dictionary, its class, its type, and where the rest begins.
#[derive(Clone, Copy)]
pub struct Given {
    pub dict: usize,
    pub class: usize,
    pub ty: usize,
    pub rest: usize,
}

// Whether the class of name c is declared: all reading of the place in its row.
pub fn is_declared(classes: &[u64], c: usize) -> bool
    ensures { result ≡ declared_at classes.now c }
{
    if c >= classes.len() / 2 {
        return false;
    }
    classes[2 * c] as usize > 2 * c + 1
}

// The i-th superclass of the class of name c.
pub fn super_at(classes: &[u64], c: usize, i: usize) -> Option<usize>
    ensures { result ≡ super_at classes.now c i }
{
    let known = is_declared(classes, c);
    if !known {
        return None;
    }
    let n = classes.len();
    let p = classes[2 * c] as usize;
    let k = classes[2 * c + 1] as usize;
    if i >= k {
        return None;
    }
    if p >= n {
        return None;
    }
    if i >= n - p {
        return None;
    }
    Some(classes[p + i] as usize)
}

// The first given of the list l, which is the i-th of its context.
pub fn listed_at(
    base: &Base,
    work: &[u64],
    top: usize,
    root: Root,
    l: usize,
    i: usize,
) -> Option<Given>
    requires node { Node (base.now.words.now ++ work.now) top l }
    requires few { Few base.now.names.now (base.now.words.now ++ work.now) root i l }
    ensures { ListedAt base.now.names.now (base.now.words.now ++ work.now) top root i l result }
{
    let c = ast::cell_at(base, work, l);
    match c {
        Cell::Nil => None,
        Cell::Cons(t, rest) => {
            let x = subst::class_at(base, work, l);
            match root {
                Root::Context(h) => Some(Given {
                    dict: names::NULLARY + (64 * (h + 1) + i),
                    class: x,
                    ty: t,
                    rest: rest,
                }),
                Root::Binder => Some(Given {
                    dict: names::FRESH + x / 65536,
                    class: x % 65536,
                    ty: t,
                    rest: rest,
                }),
            }
        }
    }
}

// The first entry of the givens' lists that is the goal, the class goal at the type t; where it must be proper, no given
// itself. The givens begin at l. The frames of the walk lie below sp.
pub fn search_in(
    base: &Base,
    work: &mut [u64],
    room: &mut Room,
    classes: &[u64],
    binders: &[u64],
    sp: usize,
    source: Source,
    l: usize,
    proper: bool,
    goal: usize,
    t: usize,
) -> Result<Option<usize>, Refusal>
    requires base_len_bound { length base.now.words.now ≤ 4 * room.old.top }
    requires ready_in { ReadyIn base.now.names.now (base.now.words.now ++ work.old) binders.now room.old.top room.old.left sp source 0 l t }
    ensures gives { GivesFound base.now.names.now classes.now (base.now.words.now ++ work.old) (base.now.words.now ++ work.new) room.old.top room.old.left sp
        (λ ce. from_givens ce (givens_in base.now.names.now (base.now.words.now ++ work.old) binders.now source 0 l)
        (hits proper (pred (name_of base.now.names.now goal) (tree base.now.names.now (base.now.words.now ++ work.old) t))) room.old.left) (searched_of result room.new.top room.new.left) }
    ensures stays { result ≡ Ok None → room.new.top ≡ room.old.top }
{
    let top = room.top;
    let mut g = l;
    let mut i: usize = 0;
    // No `for`: where the next given begins is known only from the one before, and a step of the walk goes up or down.
    'givens: loop {
        let q = rows::given_in(base, work, binders, top, source, g, i);
        let Some(given) = q else {
            return Ok(None);
        };
        let same = ast::same(base, work, top, given.ty, t);
        let mut r = path::enter(
            base,
            work,
            sp,
            0,
            room.left,
            given.class,
            goal,
            same,
            proper,
        );
        let mut d: usize = 0;
        'walk: loop {
            match r {
                Entered::Deep => return Err(Refusal::Depth),
                Entered::Spent => return Err(Refusal::Steps),
                Entered::Hit => {
                    room.left -= 1;
                    return Ok(Some(path::build(base, work, room, sp, d, given.dict)));
                }
                Entered::Miss => {
                    room.left -= 1;
                    d += 1;
                }
                Entered::Up => {
                    d -= 1;
                }
            }
            if d == 0 {
                break 'walk;
            }
            r = path::turn(base, work, classes, sp, d, room.left, goal, same);
        }
        g = given.rest;
        i += 1;
    }
}

// The same over a list of the table.
pub fn search(
    base: &Base,
    work: &mut [u64],
    room: &mut Room,
    classes: &[u64],
    sp: usize,
    root: Root,
    l: usize,
    proper: bool,
    goal: usize,
    t: usize,
) -> Result<Option<usize>, Refusal>
    requires base_len_bound { length base.now.words.now ≤ 4 * room.old.top }
    requires ready_search { ReadySearch base.now.names.now (base.now.words.now ++ work.old) room.old.top room.old.left sp root 0 l t }
    ensures gives { GivesFound base.now.names.now classes.now (base.now.words.now ++ work.old) (base.now.words.now ++ work.new) room.old.top room.old.left sp
        (λ ce. from_givens ce (givens_of base.now.names.now (base.now.words.now ++ work.old) root 0 l)
        (hits proper (pred (name_of base.now.names.now goal) (tree base.now.names.now (base.now.words.now ++ work.old) t))) room.old.left) (searched_of result room.new.top room.new.left) }
    ensures stays { result ≡ Ok None → room.new.top ≡ room.old.top }
{
    let none = [0u64; 0];
    search_in(
        base,
        work,
        room,
        classes,
        &none,
        sp,
        Source::Listed(root),
        l,
        proper,
        goal,
        t,
    )
}

// `resolve_from_givens`: the first entry equal to the goal.
pub fn resolve_from_givens(
    base: &Base,
    work: &mut [u64],
    room: &mut Room,
    classes: &[u64],
    sp: usize,
    root: Root,
    l: usize,
    goal: usize,
    t: usize,
) -> Result<Option<usize>, Refusal>
    requires base_len_bound { length base.now.words.now ≤ 4 * room.old.top }
    requires ready_search { ReadySearch base.now.names.now (base.now.words.now ++ work.old) room.old.top room.old.left sp root 0 l t }
    ensures gives { GivesFound base.now.names.now classes.now (base.now.words.now ++ work.old) (base.now.words.now ++ work.new) room.old.top room.old.left sp
        (λ ce. resolve_from_givens ce (givens_of base.now.names.now (base.now.words.now ++ work.old) root 0 l)
        (pred (name_of base.now.names.now goal) (tree base.now.names.now (base.now.words.now ++ work.old) t)) room.old.left) (searched_of result room.new.top room.new.left) }
    ensures stays { result ≡ Ok None → room.new.top ≡ room.old.top }
{
    search(base, work, room, classes, sp, root, l, false, goal, t)
}

// `find_super_proof`: the first projection of a binder that is the goal.
pub fn find_super_proof(
    base: &Base,
    work: &mut [u64],
    room: &mut Room,
    classes: &[u64],
    sp: usize,
    l: usize,
    goal: usize,
    t: usize,
) -> Result<Option<usize>, Refusal>
    requires base_len_bound { length base.now.words.now ≤ 4 * room.old.top }
    requires ready_search { ReadySearch base.now.names.now (base.now.words.now ++ work.old) room.old.top room.old.left sp Root.Binder 0 l t }
    ensures gives { GivesFound base.now.names.now classes.now (base.now.words.now ++ work.old) (base.now.words.now ++ work.new) room.old.top room.old.left sp
        (λ ce. find_super_proof ce (binders_of_word base.now.names.now (base.now.words.now ++ work.old) l)
        (pred (name_of base.now.names.now goal) (tree base.now.names.now (base.now.words.now ++ work.old) t)) room.old.left) (searched_of result room.new.top room.new.left) }
    ensures stays { result ≡ Ok None → room.new.top ≡ room.old.top }
{
    search(
        base,
        work,
        room,
        classes,
        sp,
        Root::Binder,
        l,
        true,
        goal,
        t,
    )
}
