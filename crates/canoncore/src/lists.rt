// The walk over a list of core terms.
ghost use Rattle.std.specs.Prelude.{◌++◌, ◌+◌, ◌*◌, ◌≤◌, length};
ghost use Rattle.meaning.specs.Cores.{each_core, apply_core_in};
ghost use Rattle.cores.specs.Terms.{cores};
ghost use Rattle.canoncore.specs.Lettered.{ReadyLetters, GivesLettered};
ghost use Rattle.apply.specs.Applied.{applied_of};

use ast::{Base, Cell, Room};
use errors::Refusal;

// The same at each term of the list v, left to right.
#[cycle(in_abs_in_call_in_dict_abs_in_dict_app_in_let_in_method_in_super_in_each_rename_core)]
pub fn in_each(
    base: &Base,
    work: &mut [u64],
    room: &mut Room,
    letters: &[u64],
    depth: usize,
    v: usize,
) -> Result<usize, Refusal>
    requires base_len_bound { length base.now.words.now ≤ 4 * room.old.top }
    requires ready_letters { ReadyLetters base.now.names.now (base.now.words.now ++ work.old) letters.now room.old.top room.old.left v }
    ensures { GivesLettered cores 0 base.now.names.now letters.now (base.now.words.now ++ work.old) (base.now.words.now ++ work.new) room.old.top room.old.left
        (λ s. each_core (apply_core_in depth s) (cores base.now.names.now (base.now.words.now ++ work.old) v) room.old.left) (applied_of result room.new.top room.new.left) }
{
    let c = ast::cell_at(base, work, v);
    match c {
        Cell::Nil => Ok(v),
        Cell::Cons(a, b) => {
            let m = crate::rename_core(base, work, room, letters, depth, a)?;
            let m2 = in_each(base, work, room, letters, depth, b)?;
            Ok(ast::add(base, work, room, ast::CONS, m, m2))
        }
    }
}
