// The term of a name over the rows' dictionaries.
ghost use Rattle.std.specs.Prelude.{◌≡◌, ◌++◌, ◌+◌, ◌*◌, ◌≤◌, length, None};
ghost use Rattle.instantiate.specs.Cored.{cored_of};
ghost use Rattle.instantiate.specs.Looks.{FindsFirst, ReadyCore, Lists, GivesCored};

use ast::{Base, Room};

// The dictionary's number of the first of m rows that is of class c.
fn first_of(binders: &[u64], m: usize, c: usize) -> Option<usize>
    requires { 3 * m ≤ length binders.now }
    ensures { FindsFirst binders.now m c result }
{
    for j in 0..m {
        if binders[3 * j + 1] as usize == c {
            return Some(binders[3 * j] as usize);
        }
    }
    None
}

// The list of the dictionaries of m rows, built from the last to the first.
fn rows_list(
    base: &Base,
    work: &mut [u64],
    room: &mut Room,
    binders: &[u64],
    dv: usize,
    m: usize,
    x: usize,
) -> usize
    requires base_len_bound { length base.now.words.now ≤ 4 * room.old.top }
    requires ready_core { ReadyCore base.now.names.now (base.now.words.now ++ work.old) binders.now room.old.top dv m x }
    ensures lists { Lists (base.now.words.now ++ work.old) (base.now.words.now ++ work.new) binders.now room.old.top m result }
    ensures top { room.new.top ≡ room.old.top + m }
    ensures left { room.new.left ≡ room.old.left }
{
    let mut l = ast::NIL;
    let mut j = m;
    while j > 0 {
        j -= 1;
        let d = binders[3 * j] as usize;
        l = ast::add(base, work, room, ast::CONS, names::FRESH + d, l);
    }
    l
}

// The term of name x over m rows: a method of the first row of its class, or the name applied to all of them.
pub fn var_core(
    base: &Base,
    work: &mut [u64],
    room: &mut Room,
    methods: &[u64],
    binders: &[u64],
    dv: usize,
    m: usize,
    x: usize,
) -> Option<usize>
    requires base_len_bound { length base.now.words.now ≤ 4 * room.old.top }
    requires ready_core { ReadyCore base.now.names.now (base.now.words.now ++ work.old) binders.now room.old.top dv m x }
    ensures gives { GivesCored base.now.names.now (base.now.words.now ++ work.old) (base.now.words.now ++ work.new) binders.now methods.now room.old.top m x (cored_of result room.new.top) }
    ensures none_stays { result ≡ None → room.new.top ≡ room.old.top }
    ensures left { room.new.left ≡ room.old.left }
{
    let k = classes::lookup_method(methods, x);
    match k {
        Some(method) => {
            let d = first_of(binders, m, method.class)?;
            Some(cores::push_method(base, work, room, names::FRESH + d, x))
        }
        None => {
            if m == 0 {
                return Some(x);
            }
            let l = rows_list(base, work, room, binders, dv, m, x);
            Some(cores::push_app(base, work, room, x, l))
        }
    }
}
