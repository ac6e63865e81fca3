// Rows of a table of names: the built-in names in rows 0 to 34, the names of a file from row 35 on. A row that holds no
// name holds its own number, so that no two rows are equal.
#![tactic(auto)]

ghost use Rattle.std.specs.Prelude.{◌≡◌, ◌+◌, ◌*◌, ◌<◌, ◌≤◌, length, get_or};
ghost use Rattle.std.proofs.Math.Option.{some};
ghost use Rattle.meaning.specs.Base.{eqb, nth};
ghost use Rattle.meaning.specs.Ast.{name};
ghost use Rattle.names.specs.Names.{row};
ghost use Rattle.names.specs.Keys.{bytes_of};
ghost use Rattle.rows.specs.BuiltIns.{built_ins, First};
ghost use Rattle.rows.specs.Rows.{row_set, RowIs, names_from, among, Filled, IsBuilt};

use names::Key;

// The first two words of each built-in name, its bytes from the highest on; its other words are zero. (No text: a constant
// calls no function, and over an array of byte strings the proof of `built_in_key` did not close.)
const BUILT_INS: [[u64; 2]; 35] = [
    // Int
    [0x496e_7400_0000_0000, 0],
    // Bool
    [0x426f_6f6c_0000_0000, 0],
    // primAddInt
    [0x7072_696d_4164_6449, 0x6e74_0000_0000_0000],
    // primAndBool
    [0x7072_696d_416e_6442, 0x6f6f_6c00_0000_0000],
    // primEqBool
    [0x7072_696d_4571_426f, 0x6f6c_0000_0000_0000],
    // primEqInt
    [0x7072_696d_4571_496e, 0x7400_0000_0000_0000],
    // primLtInt
    [0x7072_696d_4c74_496e, 0x7400_0000_0000_0000],
    // primMulInt
    [0x7072_696d_4d75_6c49, 0x6e74_0000_0000_0000],
    // primNotBool
    [0x7072_696d_4e6f_7442, 0x6f6f_6c00_0000_0000],
    // a
    [0x6100_0000_0000_0000, 0],
    // b
    [0x6200_0000_0000_0000, 0],
    // c
    [0x6300_0000_0000_0000, 0],
    // d
    [0x6400_0000_0000_0000, 0],
    // e
    [0x6500_0000_0000_0000, 0],
    // f
    [0x6600_0000_0000_0000, 0],
    // g
    [0x6700_0000_0000_0000, 0],
    // h
    [0x6800_0000_0000_0000, 0],
    // i
    [0x6900_0000_0000_0000, 0],
    // j
    [0x6a00_0000_0000_0000, 0],
    // k
    [0x6b00_0000_0000_0000, 0],
    // l
    [0x6c00_0000_0000_0000, 0],
    // m
    [0x6d00_0000_0000_0000, 0],
    // n
    [0x6e00_0000_0000_0000, 0],
    // o
    [0x6f00_0000_0000_0000, 0],
    // p
    [0x7000_0000_0000_0000, 0],
    // q
    [0x7100_0000_0000_0000, 0],
    // r
    [0x7200_0000_0000_0000, 0],
    // s
    [0x7300_0000_0000_0000, 0],
    // t
    [0x7400_0000_0000_0000, 0],
    // u
    [0x7500_0000_0000_0000, 0],
    // v
    [0x7600_0000_0000_0000, 0],
    // w
    [0x7700_0000_0000_0000, 0],
    // x
    [0x7800_0000_0000_0000, 0],
    // y
    [0x7900_0000_0000_0000, 0],
    // z
    [0x7a00_0000_0000_0000, 0],
];

// Writes a row.
pub fn put_row(names: &mut [u64], r: usize, k: Key)
    requires { 4 * r + 4 ≤ length names.old }
    ensures { names.new ≡ row_set names.old r k }
{
    let i = 4 * r;
    names[i] = k.a;
    names[i + 1] = k.b;
    names[i + 2] = k.c;
    names[i + 3] = k.d;
}

// Reads a row.
pub fn row_key(names: &[u64], r: usize) -> Key
    requires { 4 * r + 4 ≤ length names.now }
    ensures { RowIs names.now r result }
{
    let i = 4 * r;
    Key {
        over: 0,
        a: names[i],
        b: names[i + 1],
        c: names[i + 2],
        d: names[i + 3],
    }
}

// Whether a row has these bytes. Mostly the first words differ already.
fn same_row(names: &[u64], r: usize, k: Key) -> bool
    requires { 4 * r + 4 ≤ length names.now }
    ensures { result ≡ eqb (bytes_of k) (row names.now r) }
{
    let i = 4 * r;
    k.a == names[i] && k.b == names[i + 1] && k.c == names[i + 2] && k.d == names[i + 3]
}

// Whether one of the first m names of the file has these bytes.
pub fn is_known(names: &[u64], k: Key, m: usize) -> bool
    requires { 4 * m + 140 ≤ length names.now }
    ensures { result ≡ among (name (bytes_of k)) (names_from names.now 35 m) }
{
    for r in 35..35 + m {
        if same_row(names, r, k) {
            return true;
        }
    }
    false
}

// The row of the built-in name of these bytes.
pub fn built_in(names: &[u64], k: Key) -> Option<usize>
    requires { 140 ≤ length names.now }
    ensures { IsBuilt names.now (bytes_of k) result }
{
    for b in 0..35 {
        if same_row(names, b, k) {
            return Some(b);
        }
    }
    None
}

// The bytes of a built-in name. (Word by word: a pattern over the row makes the whole table anew at each call.)
fn built_in_key(r: usize) -> Key
    requires { r < 35 }
    ensures { nth built_ins r ≡ some (name (bytes_of result)) }
{
    Key {
        over: 0,
        a: BUILT_INS[r][0],
        b: BUILT_INS[r][1],
        c: 0,
        d: 0,
    }
}

// What a row holds that holds no name of the file: a built-in name, or its own number.
pub fn first_key(r: usize) -> Key
    ensures { First r (bytes_of result) }
{
    if r < 35 {
        built_in_key(r)
    } else {
        Key {
            over: 0,
            a: 0,
            b: 0,
            c: 0,
            d: r as u64,
        }
    }
}

// Writes all rows, before a file is read.
pub fn fill(names: &mut [u64])
    requires { length names.old ≡ 4236 }
    ensures { Filled names.new }
{
    for r in 0..1059 {
        put_row(names, r, first_key(r));
    }
}
