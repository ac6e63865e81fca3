// Words that stand for type variables, and the byte order of names. No heap: a name is four words of a lent slice.
#![tactic(auto)]

ghost use Rattle.std.specs.Prelude.{◌≡◌, List, ℕ, ◌+◌, ◌*◌, ◌%◌, ◌^◌, ◌<◌};
ghost use Rattle.meaning.specs.Base.{ltb, eqb};
ghost use Rattle.meaning.specs.Ast.{fresh, key, named, tie, tyvar_before};
ghost use Rattle.names.specs.Names.{kind_of, name_of, tyvar_of};
ghost use Rattle.names.specs.Keys.{key_number, Pushed};

// Words below this one are variables by their name's number; from here on made variables.
pub const FRESH: usize = 2305843009213693952;

// From here on constructors without arguments, by their name's number.
pub const NULLARY: usize = 4611686018427387904;

// From here on nodes of the table: a node's word lies above all words that name no node.
pub const NODE: usize = 9223372036854775808;

// What a type's word says.
#[derive(Clone, Copy)]
pub enum Kind {
    Node(usize),
    Named(usize),
    Fresh(usize),
    Nullary(usize),
}

// The bytes of a variable as a number of five words, the highest first: 32 bytes, and what lies over all such.
#[derive(Clone, Copy, Debug, PartialEq, Eq, PartialOrd, Ord)]
pub struct Key {
    pub over: u64,
    pub a: u64,
    pub b: u64,
    pub c: u64,
    pub d: u64,
}

// What a type's word says. A contract names this function; `From` would say no more.
pub fn kind_of(t: usize) -> Kind
    ensures { result ≡ kind_of t }
{
    if t < FRESH {
        return Kind::Named(t);
    }
    if t < NULLARY {
        return Kind::Fresh(t - FRESH);
    }
    if t < NODE {
        return Kind::Nullary(t - NULLARY);
    }
    Kind::Node(t - NODE)
}

// A word with a byte put before its eight, of which the last falls out.
fn shift(high: u64, low: u64) -> u64
    requires { high < 256 }
    ensures { 256 * result + low % 256 ≡ high * 2 ^ 64 + low }
{
    high * 72057594037927936 + low / 256
}

// A byte put before the others of 32, the last of which falls out.
pub fn push(k: Key, byte: u64) -> Key
    requires { byte < 256 }
    ensures { Pushed k byte result }
{
    let a = shift(byte, k.a);
    let b = shift(k.a % 256, k.b);
    let c = shift(k.b % 256, k.c);
    let d = shift(k.c % 256, k.d);
    Key {
        over: 0,
        a,
        b,
        c,
        d,
    }
}

// The bytes of a made variable: `t` and its number in decimal, made from the last digit on.
fn made(k: usize) -> Key
    ensures { key_number result ≡ key (fresh k) }
{
    let mut n = k;
    let mut e = Key {
        over: 0,
        a: 0,
        b: 0,
        c: 0,
        d: 0,
    };
    // Nothing is counted: the loop ends with the last digit.
    while n >= 10 {
        e = push(e, 48 + (n % 10) as u64);
        n = n / 10;
    }
    let f = push(e, 48 + n as u64);
    push(f, 116)
}

// The bytes of the i-th name of the table; of a number out of it, one over all names.
fn name_key(names: &[u64], i: usize) -> Key
    ensures { key_number result ≡ key (named (name_of names.now i)) }
{
    if i >= names.len() / 4 {
        return Key {
            over: 1,
            a: 0,
            b: 0,
            c: 0,
            d: i as u64,
        };
    }
    let at = 4 * i;
    Key {
        over: 0,
        a: names[at],
        b: names[at + 1],
        c: names[at + 2],
        d: names[at + 3],
    }
}

// The bytes of the variable that a word stands for.
pub fn key_of(names: &[u64], t: usize) -> Key
    ensures { key_number result ≡ key (tyvar_of names.now t) }
{
    match kind_of(t) {
        Kind::Node(n) => Key {
            over: 4,
            a: 0,
            b: 0,
            c: 0,
            d: n as u64,
        },
        Kind::Named(i) => name_key(names, i),
        Kind::Fresh(k) => made(k),
        Kind::Nullary(i) => Key {
            over: 2,
            a: 0,
            b: 0,
            c: 0,
            d: i as u64,
        },
    }
}

// The first number is the smaller one: words are compared from the highest on.
fn less(p: Key, q: Key) -> bool
    ensures { result ≡ ltb (key_number p) (key_number q) }
{
    p < q
}

// The numbers are equal: all words are.
pub fn same(p: Key, q: Key) -> bool
    ensures { result ≡ eqb (key_number p) (key_number q) }
{
    p == q
}

// The order of two words whose variables have the same bytes.
fn tied(x: usize, y: usize) -> bool
    ensures { (ns : List ℕ) → result ≡ tie (tyvar_of ns x) (tyvar_of ns y) }
{
    let s = kind_of(x);
    let t = kind_of(y);
    let Kind::Fresh(n) = t else {
        return false;
    };
    let Kind::Fresh(m) = s else {
        return true;
    };
    m < n
}

// Byte order of the variables that two words stand for.
pub fn before(names: &[u64], x: usize, y: usize) -> bool
    ensures { result ≡ tyvar_before (tyvar_of names.now x) (tyvar_of names.now y) }
{
    let p = key_of(names, x);
    let q = key_of(names, y);
    if same(p, q) {
        return tied(x, y);
    }
    less(p, q)
}
