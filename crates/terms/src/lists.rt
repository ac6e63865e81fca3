// The walk over a list of core terms.
ghost use Rattle.std.specs.Prelude.{◌++◌, ◌+◌, ◌*◌, ◌≤◌, length};
ghost use Rattle.meaning.specs.Cores.{each_core};
ghost use Rattle.cores.specs.Terms.{cores};
ghost use Rattle.terms.specs.Plain.{plain_in};
ghost use Rattle.terms.specs.Rows.{replaced_in, ReadyTerm};
ghost use Rattle.terms.specs.Answers.{GivesTerm};
ghost use Rattle.apply.specs.Applied.{applied_of};

use ast::{Base, Cell, Room};
use errors::Refusal;

// The same at each term of the list v, left to right.
#[cycle(in_abs_in_call_in_dict_abs_in_dict_app_in_let_in_method_in_super_in_each_subst_core)]
pub fn in_each(
    base: &Base,
    work: &mut [u64],
    room: &mut Room,
    binders: &[u64],
    depth: usize,
    n: usize,
    v: usize,
) -> Result<usize, Refusal>
    requires base_len_bound { length base.now.words.now ≤ 4 * room.old.top }
    requires ready_term { ReadyTerm (base.now.words.now ++ work.old) binders.now room.old.top room.old.left n v }
    ensures { GivesTerm cores 0 (base.now.words.now ++ work.old) (base.now.words.now ++ work.new) room.old.top room.old.left
        (λ ns. each_core (plain_in depth (replaced_in ns (base.now.words.now ++ work.old) binders.now n)) (cores ns (base.now.words.now ++ work.old) v) room.old.left) (applied_of result room.new.top room.new.left) }
{
    let c = ast::cell_at(base, work, v);
    match c {
        Cell::Nil => Ok(v),
        Cell::Cons(a, b) => {
            let m = crate::subst_core(base, work, room, binders, depth, n, a)?;
            let m2 = in_each(base, work, room, binders, depth, n, b)?;
            Ok(ast::add(base, work, room, ast::CONS, m, m2))
        }
    }
}
