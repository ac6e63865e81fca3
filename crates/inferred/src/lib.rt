// What inference answers, and the ends of `infer_abs`, `infer_app` and `infer_let` of 000 once their parts are inferred.
#![tactic(auto)]

ghost use Rattle.std.specs.Prelude.{◌≡◌, ℕ, [], ◌++◌, ◌+◌, ◌*◌, ◌-◌, ◌≤◌, length, Ok};
ghost use Rattle.meaning.specs.Ast.{int, bool, cint, cbool};
ghost use Rattle.meaning.specs.Budget.{done};
ghost use Rattle.meaning.specs.Subst.{empty};
ghost use Rattle.names.specs.Names.{name_of, tyvar_of};
ghost use Rattle.ast.specs.Table.{tree};
ghost use Rattle.pairs.specs.Pairs.{sub_at};
ghost use Rattle.cores.specs.Terms.{core};
ghost use Rattle.supers.specs.Rows.{binders_in};
ghost use Rattle.inferred.specs.Parts.{abs_close, app_rows, app_close, let_last, let_close};
ghost use Rattle.inferred.specs.Closing.{answer_from, answer_of, ReadyAbs, ReadyLast, ReadyApp, ReadyLet, ReadyLiteral, GivesC};
ghost use Rattle.inferred.specs.Inferring.{with_state};
ghost use Rattle.inferred.specs.Closed.{closed_of};
ghost use Rattle.inferred.specs.Inferred.{inferred_of};

use ast::{Base, Room};
use compose::Beside;
use ends::Join;
use errors::Refusal;
use pairs::Subst;
use scope::Fresh;

// What an expression comes to: its type, its term, how many pairs end where the stack ended, how many rows are pending, and
// the next variable's and the next dictionary's number.
#[derive(Clone, Copy)]
pub struct Typed {
    pub ty: usize,
    pub term: usize,
    pub pairs: usize,
    pub rows: usize,
    pub fresh: Fresh,
}

// What an end comes to: the rows are those of the parts.
#[derive(Clone, Copy)]
pub struct Closing {
    pub ty: usize,
    pub term: usize,
    pub pairs: usize,
}

impl Closing {
    // The same with so many pending rows and both counters: an expression's answer, whatever node and steps are left.
    pub fn with_state(self, rows: usize, fresh: Fresh) -> Typed
        ensures { (top left : ℕ) → inferred_of (Ok result) top left ≡ with_state (closed_of (Ok self) top left) rows fresh.tv fresh.dv }
    {
        Typed {
            ty: self.ty,
            term: self.term,
            pairs: self.pairs,
            rows,
            fresh,
        }
    }
}

// The same of what an end answered: a refusal is handed on.
pub fn with_state(
    end: Result<Closing, Refusal>,
    rows: usize,
    fresh: Fresh,
) -> Result<Typed, Refusal>
    ensures { (top left : ℕ) → inferred_of result top left ≡ with_state (closed_of end top left) rows fresh.tv fresh.dv }
{
    Ok(end?.with_state(rows, fresh))
}

// A number: its type, and a node for it.
pub fn int_literal(
    base: &Base,
    work: &mut [u64],
    room: &mut Room,
    binders: &[u64],
    sp: usize,
    v: usize,
) -> Closing
    requires base_len_bound { length base.now.words.now ≤ 4 * room.old.top }
    requires ready_literal { ReadyLiteral base.now.names.now (base.now.words.now ++ work.old) binders.now room.old.top room.old.left sp }
    ensures { GivesC (done (empty, int, [], cint v) room.old.left) 8 base.now.names.now (base.now.words.now ++ work.old) (base.now.words.now ++ work.new) binders.now binders.now room.old.top room.old.left sp 0 (closed_of (Ok result) room.new.top room.new.left) }
{
    let term = cores::push_int(base, work, room, v);
    Closing {
        ty: names::NULLARY,
        term,
        pairs: 0,
    }
}

// A truth value: its type, and its word.
pub fn bool_literal(
    base: &Base,
    work: &[u64],
    room: Room,
    binders: &[u64],
    sp: usize,
    b: bool,
) -> Closing
    requires base_len_bound { length base.now.words.now ≤ 4 * room.top }
    requires ready_literal { ReadyLiteral base.now.names.now (base.now.words.now ++ work.now) binders.now room.top room.left sp }
    ensures { GivesC (done (empty, bool, [], cbool b) room.left) 8 base.now.names.now (base.now.words.now ++ work.now) (base.now.words.now ++ work.now) binders.now binders.now room.top room.left sp 0 (closed_of (Ok result) room.top room.left) }
{
    let word = if b {
        names::NULLARY + 1
    } else {
        names::NULLARY
    };
    Closing {
        ty: names::NULLARY + 1,
        term: word,
        pairs: 0,
    }
}

// The end of an abstraction of the parameter x, whose variable is a.
pub fn abs_close(
    base: &Base,
    work: &mut [u64],
    room: &mut Room,
    binders: &[u64],
    sp: usize,
    a: usize,
    x: usize,
    body: Typed,
) -> Result<Closing, Refusal>
    requires base_len_bound { length base.now.words.now ≤ 4 * room.old.top }
    requires ready_abs { ReadyAbs base.now.names.now (base.now.words.now ++ work.old) binders.now room.old.top room.old.left sp body.ty body.term body.pairs body.rows a }
    ensures { GivesC (abs_close (name_of base.now.names.now x) (tyvar_of base.now.names.now a) (answer_of base.now.names.now (base.now.words.now ++ work.old) binders.now sp body.ty body.term body.pairs body.rows) room.old.left) (2 * body.pairs + 8)
        base.now.names.now (base.now.words.now ++ work.old) (base.now.words.now ++ work.new) binders.now binders.now room.old.top room.old.left sp body.rows (closed_of result room.new.top room.new.left) }
{
    let f = ends::abs_end(base, work, room, sp, body.pairs, a, body.ty, x, body.term)?;
    Ok(Closing {
        ty: f.ty,
        term: f.term,
        pairs: body.pairs,
    })
}

// The end of an application whose types are joined: its pairs applied to all m pending rows, and its term.
fn app_last(
    base: &Base,
    work: &mut [u64],
    room: &mut Room,
    binders: &mut [u64],
    sp: usize,
    join: Join,
    m: usize,
    f: usize,
    e: usize,
) -> Result<Closing, Refusal>
    requires base_len_bound { length base.now.words.now ≤ 4 * room.old.top }
    requires ready_last { ReadyLast base.now.names.now (base.now.words.now ++ work.old) binders.old room.old.top room.old.left sp join.ty f e join.pairs m }
    ensures { GivesC (app_rows (sub_at base.now.names.now (base.now.words.now ++ work.old) (sp - 2 * join.pairs) join.pairs) (tree base.now.names.now (base.now.words.now ++ work.old) join.ty) (binders_in base.now.names.now (base.now.words.now ++ work.old) binders.old 0 m) (core base.now.names.now (base.now.words.now ++ work.old) f) (core base.now.names.now (base.now.words.now ++ work.old) e) room.old.left) (2 * join.pairs + 4)
        base.now.names.now (base.now.words.now ++ work.old) (base.now.words.now ++ work.new) binders.old binders.new room.old.top room.old.left sp m (closed_of result room.new.top room.new.left) }
{
    let k = join.pairs;
    let at = sp - 2 * k;
    pending::apply_rows(base, work, room, binders, Subst { at, k }, m)?;
    let term = cores::push_call(base, work, room, f, e);
    Ok(Closing {
        ty: join.ty,
        term,
        pairs: k,
    })
}

// The end of an application: the argument's rows are all that are pending, the function's first, and its pairs lie below the
// function's.
pub fn app_close(
    base: &Base,
    work: &mut [u64],
    room: &mut Room,
    binders: &mut [u64],
    sp: usize,
    a: usize,
    function: Typed,
    argument: Typed,
) -> Result<Closing, Refusal>
    requires base_len_bound { length base.now.words.now ≤ 4 * room.old.top }
    requires ready_app { ReadyApp base.now.names.now (base.now.words.now ++ work.old) binders.old room.old.top room.old.left sp function.ty function.term function.pairs argument.ty argument.term argument.pairs function.rows argument.rows a }
    ensures { GivesC (app_close (tyvar_of base.now.names.now a) (answer_of base.now.names.now (base.now.words.now ++ work.old) binders.old sp function.ty function.term function.pairs function.rows)
        (answer_from base.now.names.now (base.now.words.now ++ work.old) binders.old (sp - 2 * function.pairs) argument.ty argument.term argument.pairs function.rows argument.rows) room.old.left) (2 * function.pairs + 2 * argument.pairs + 8)
        base.now.names.now (base.now.words.now ++ work.old) (base.now.words.now ++ work.new) binders.old binders.new room.old.top room.old.left sp argument.rows (closed_of result room.new.top room.new.left) }
{
    let join = ends::app_end(
        base,
        work,
        room,
        sp,
        function.pairs,
        argument.pairs,
        a,
        function.ty,
        argument.ty,
    )?;
    app_last(
        base,
        work,
        room,
        binders,
        sp,
        join,
        argument.rows,
        function.term,
        argument.term,
    )
}

// The end of a let whose deferred rows are applied to: all pairs composed, and its term.
fn let_last(
    base: &Base,
    work: &mut [u64],
    room: &mut Room,
    binders: &[u64],
    sp: usize,
    k: usize,
    x: usize,
    c: usize,
    body: Typed,
) -> Result<Closing, Refusal>
    requires base_len_bound { length base.now.words.now ≤ 4 * room.old.top }
    requires ready_let { ReadyLet base.now.names.now (base.now.words.now ++ work.old) binders.now room.old.top room.old.left sp k c body.ty body.term body.pairs body.rows body.rows }
    ensures { GivesC (let_last (name_of base.now.names.now x) (sub_at base.now.names.now (base.now.words.now ++ work.old) (sp - 2 * k - 2 * body.pairs) body.pairs) (sub_at base.now.names.now (base.now.words.now ++ work.old) (sp - 2 * k) k)
        (tree base.now.names.now (base.now.words.now ++ work.old) body.ty) (binders_in base.now.names.now (base.now.words.now ++ work.old) binders.now 0 body.rows)
        (core base.now.names.now (base.now.words.now ++ work.old) c) (core base.now.names.now (base.now.words.now ++ work.old) body.term) room.old.left) (2 * k + 2 * body.pairs + 4)
        base.now.names.now (base.now.words.now ++ work.old) (base.now.words.now ++ work.new) binders.now binders.now room.old.top room.old.left sp body.rows (closed_of result room.new.top room.new.left) }
{
    let lo = sp - 2 * k - 2 * body.pairs;
    let sides = Beside {
        lo,
        k2: body.pairs,
        k1: k,
    };
    let pairs = compose::compose_in(base, work, room, sides)?;
    let term = cores::push_let(base, work, room, x, c, body.term);
    Ok(Closing {
        ty: body.ty,
        term,
        pairs,
    })
}

// The end of a let: what it binds has the term c, k pairs and nd deferred rows; the body's rows are all that are pending, these
// first, and its pairs lie below the k.
pub fn let_close(
    base: &Base,
    work: &mut [u64],
    room: &mut Room,
    binders: &mut [u64],
    sp: usize,
    k: usize,
    nd: usize,
    x: usize,
    c: usize,
    body: Typed,
) -> Result<Closing, Refusal>
    requires base_len_bound { length base.now.words.now ≤ 4 * room.old.top }
    requires ready_let { ReadyLet base.now.names.now (base.now.words.now ++ work.old) binders.old room.old.top room.old.left sp k c body.ty body.term body.pairs nd body.rows }
    ensures { GivesC (let_close (name_of base.now.names.now x) (sub_at base.now.names.now (base.now.words.now ++ work.old) (sp - 2 * k) k) (core base.now.names.now (base.now.words.now ++ work.old) c) (binders_in base.now.names.now (base.now.words.now ++ work.old) binders.old 0 nd)
        (answer_from base.now.names.now (base.now.words.now ++ work.old) binders.old (sp - 2 * k) body.ty body.term body.pairs nd body.rows) room.old.left) (2 * k + 2 * body.pairs + 4)
        base.now.names.now (base.now.words.now ++ work.old) (base.now.words.now ++ work.new) binders.old binders.new room.old.top room.old.left sp body.rows (closed_of result room.new.top room.new.left) }
{
    let lo = sp - 2 * k - 2 * body.pairs;
    let sub = Subst {
        at: lo,
        k: body.pairs,
    };
    pending::apply_rows(base, work, room, binders, sub, nd)?;
    let_last(base, work, room, binders, sp, k, x, c, body)
}
