// A variable against a type: the one pair that binds it, or a refusal.
ghost use Rattle.std.specs.Prelude.{◌≡◌, ◌++◌, ◌*◌, ◌≤◌, length};
ghost use Rattle.meaning.specs.Unify as U;
ghost use Rattle.names.specs.Names.{tyvar_of};
ghost use Rattle.ast.specs.Table.{tree};
ghost use Rattle.compose.specs.Answers.{GivesU};
ghost use Rattle.unify.specs.Unify.{Binds};
ghost use Rattle.apply.specs.Applied.{applied_of};

use ast::{Base, Room, Shape};
use errors::Refusal;

// `bind` of a variable to a type that is another one.
fn bind_other(
    base: &Base,
    work: &mut [u64],
    room: &mut Room,
    sp: usize,
    v: usize,
    t: usize,
) -> Result<usize, Refusal>
    requires base_len_bound { length base.now.words.now ≤ 4 * room.old.top }
    requires binds { Binds base.now.names.now (base.now.words.now ++ work.old) room.old.top room.old.left sp t }
    ensures { GivesU 0 2 base.now.names.now (base.now.words.now ++ work.old) (base.now.words.now ++ work.new) room.old.top room.old.left sp
        (U.bind_other (tyvar_of base.now.names.now v) (tree base.now.names.now (base.now.words.now ++ work.old) t) room.old.left) (applied_of result room.new.top room.new.left) }
{
    if ast::occurs_in(base, work, room.top, v, t) {
        return Err(Refusal::OccursCheck(v, t));
    }
    pairs::put(base, work, sp - 2, v);
    pairs::put(base, work, sp - 1, t);
    Ok(1)
}

// `bind`: a variable against itself needs nothing.
pub fn bind(
    base: &Base,
    work: &mut [u64],
    room: &mut Room,
    sp: usize,
    v: usize,
    t: usize,
) -> Result<usize, Refusal>
    requires base_len_bound { length base.now.words.now ≤ 4 * room.old.top }
    requires binds { Binds base.now.names.now (base.now.words.now ++ work.old) room.old.top room.old.left sp t }
    ensures { GivesU 0 2 base.now.names.now (base.now.words.now ++ work.old) (base.now.words.now ++ work.new) room.old.top room.old.left sp
        (U.bind (tyvar_of base.now.names.now v) (tree base.now.names.now (base.now.words.now ++ work.old) t) room.old.left) (applied_of result room.new.top room.new.left) }
{
    let s = ast::shape_at(base, work, t);
    match s {
        Shape::Var(x) => {
            if v == x {
                return Ok(0);
            }
            bind_other(base, work, room, sp, v, t)
        }
        Shape::Con(_, _) => bind_other(base, work, room, sp, v, t),
        Shape::Arrow(_, _) => bind_other(base, work, room, sp, v, t),
    }
}
