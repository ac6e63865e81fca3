// The seven primitives of 000 and their types stand in a table, from which a fresh environment is filled.
#![tactic(auto)]

ghost use Rattle.std.specs.Prelude.{◌++◌, ◌+◌, ◌*◌, ◌<◌, ◌≤◌, length};
ghost use Rattle.ast.specs.Table.{Node};
ghost use Rattle.primitives.specs.Prims.{Row, TypeMade, ReadyOne, GivesOne, ReadyPrims, GivesPrims};

use ast::Base;
use scope::Entry;
use subst::Scheme;

// A row: the number of the primitive's name, the name's number of its arguments' type, how many arguments it takes, and
// the name's number of its result's type.
#[derive(Clone, Copy)]
pub struct Primitive {
    pub number: usize,
    pub argument: usize,
    pub many: usize,
    pub result: usize,
}

// The rows in the byte order of the names. Type 0 is `Int`, type 1 is `Bool`.
const PRIMITIVES: [Primitive; 7] = [
    // primAddInt: Int -> Int -> Int
    Primitive {
        number: 2,
        argument: 0,
        many: 2,
        result: 0,
    },
    // primAndBool: Bool -> Bool -> Bool
    Primitive {
        number: 3,
        argument: 1,
        many: 2,
        result: 1,
    },
    // primEqBool: Bool -> Bool -> Bool
    Primitive {
        number: 4,
        argument: 1,
        many: 2,
        result: 1,
    },
    // primEqInt: Int -> Int -> Bool
    Primitive {
        number: 5,
        argument: 0,
        many: 2,
        result: 1,
    },
    // primLtInt: Int -> Int -> Bool
    Primitive {
        number: 6,
        argument: 0,
        many: 2,
        result: 1,
    },
    // primMulInt: Int -> Int -> Int
    Primitive {
        number: 7,
        argument: 0,
        many: 2,
        result: 0,
    },
    // primNotBool: Bool -> Bool
    Primitive {
        number: 8,
        argument: 1,
        many: 1,
        result: 1,
    },
];

// The row of the p-th primitive.
fn row_of(p: usize) -> Primitive
    requires { p < 7 }
    ensures { Row p result }
{
    PRIMITIVES[p]
}

// The type of so many arguments of type a and a result of type b, as new nodes from top on; its word.
fn make_type(base: &Base, work: &mut [u64], top: usize, a: usize, many: usize, b: usize) -> usize
    requires base_len_bound { length base.now.words.now ≤ 4 * top }
    requires node { Node (base.now.words.now ++ work.old) top a }
    requires node_2 { Node (base.now.words.now ++ work.old) top b }
    requires many_in_bounds { 4 * (top + many) ≤ length (base.now.words.now ++ work.old) }
    ensures { TypeMade (base.now.words.now ++ work.old) (base.now.words.now ++ work.new) top many a b result }
{
    let mut t = b;
    for i in 0..many {
        let n = top + i;
        ast::push(base, work, n, ast::ARROW, a, t);
        t = names::NODE + n;
    }
    t
}

// Makes the type of the p-th primitive and writes the row of its name; the first free node.
fn add_one(
    base: &Base,
    work: &mut [u64],
    env: &mut [u64],
    order: &[u64],
    top: usize,
    p: usize,
) -> usize
    requires base_len_bound { length base.now.words.now ≤ 4 * top }
    requires ready_one { ReadyOne base.now.names.now (base.now.words.now ++ work.old) env.old order.now top p }
    ensures { GivesOne base.now.names.now (base.now.words.now ++ work.old) (base.now.words.now ++ work.new) env.old env.new order.now top p result }
{
    let r = row_of(p);
    let a = names::NULLARY + r.argument;
    let b = names::NULLARY + r.result;
    let t = make_type(base, work, top, a, r.many, b);
    let scheme = Scheme {
        vars: ast::NIL,
        preds: ast::NIL,
        ty: t,
    };
    scope::put(env, r.number, Entry::Closed(scheme));
    top + r.many
}

// `add_primitives`: fills an environment without schemes with those of the primitives; the first free node.
pub fn add_primitives(
    base: &Base,
    work: &mut [u64],
    env: &mut [u64],
    order: &[u64],
    top: usize,
) -> usize
    requires base_len_bound { length base.now.words.now ≤ 4 * top }
    requires ready_prims { ReadyPrims base.now.names.now (base.now.words.now ++ work.old) env.old order.now top }
    ensures { GivesPrims base.now.names.now (base.now.words.now ++ work.old) (base.now.words.now ++ work.new) env.old env.new order.now top result }
{
    let mut t = top;
    for p in 0..7 {
        t = add_one(base, work, env, order, t, p);
    }
    t
}
