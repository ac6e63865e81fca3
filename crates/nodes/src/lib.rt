// The nodes and declarations of a session file: each is read from the place where it begins, to the place after it.
#![tactic(auto)]

pub mod decls;

ghost use Rattle.std.specs.Prelude.{◌≡◌, [], ℕ, ◌+◌, ◌<◌, ◌≤◌, length, get_or};
ghost use Rattle.meaning.specs.Reader as R;
ghost use Rattle.meaning.specs.File as F;
ghost use Rattle.nodes.specs.Known.{Any, Sized, Known, Gives};
ghost use Rattle.nodes.specs.Rows.{things, many_of, name_for, reserved_form, row_reader};

use errors::Refusal;

// A session file, and the index of what it holds. (That the index has its forms and the counts are in bounds stands in
// the contracts and not in the types: `type_node`, `expr_node` and `decl_entry` take any counts within the bounds, and
// `views` takes any index.)
#[derive(Clone, Copy)]
pub struct File<'a> {
    pub src: &'a [u8],
    pub index: &'a [u64],
}

// The word of an index for the i-th of those things whose words begin at base: a place or a number; past the end it is 0.
pub fn word(index: &[u64], base: usize, i: usize) -> usize
    ensures { result ≡ get_or index.now (base + i) 0 }
{
    base.checked_add(i)
        .and_then(|at| index.get(at))
        .map_or(0, |word| *word as usize)
}

// How many names, types, expressions and declarations stand before a place.
#[derive(Clone, Copy, Debug, PartialEq, Eq)]
pub struct Counts {
    pub names: usize,
    pub types: usize,
    pub exprs: usize,
    pub decls: usize,
}

// A section whose things are named by number.
#[derive(Clone, Copy, Debug, PartialEq, Eq)]
pub enum Section {
    Names,
    Types,
    Exprs,
}

// What a name is used for, and so which form of names is reserved.
#[derive(Clone, Copy, Debug, PartialEq, Eq)]
pub enum Use {
    Variable,
    Word,
}

// What a list's items are.
#[derive(Clone, Copy, Debug, PartialEq, Eq)]
pub enum Row {
    Super,
    Argument,
    Signature,
    Method,
    Context,
}

impl Counts {
    // How many things a section has.
    fn many(self, of: Section) -> usize
        ensures { result ≡ many_of self of }
    {
        match of {
            Section::Names => self.names,
            Section::Types => self.types,
            Section::Exprs => self.exprs,
        }
    }
}

impl Use {
    // The form that is reserved for a use.
    fn reserved(self) -> u64
        ensures { result ≡ reserved_form self }
    {
        match self {
            Use::Variable => 1,
            Use::Word => 2,
        }
    }
}

// The number of one of a section's things.
pub fn one_of(src: &[u8], at: usize, n: Counts, of: Section) -> Result<usize, Refusal>
    ensures { Gives (Sized n) src.now (λ s. R.one_of (things of s)) at result }
{
    reader::pick(src, at, n.many(of)).ok_or(Refusal::Format(at))?;
    Ok(at + 2)
}

// The number of a name, which must not have the form that is reserved for this use.
pub fn name_for(file: File, at: usize, n: Counts, u: Use) -> Result<usize, Refusal>
    requires names_bound { n.names ≤ 1024 }
    requires in_bounds { 2048 ≤ length file.index.now }
    ensures { Gives (Known file.entry.index.now n) file.entry.src.now (λ s. name_for u s) at result }
{
    let v = reader::pick(file.src, at, n.names).ok_or(Refusal::Format(at))?;
    if file.index[1024 + v] == u.reserved() {
        return Err(Refusal::Reserved(at));
    }
    Ok(at + 2)
}

// Two numbers, one after the other.
pub fn two(src: &[u8], at: usize, n: Counts, a: Section, b: Section) -> Result<usize, Refusal>
    ensures { Gives (Sized n) src.now (λ s. R.pair (R.one_of (things a s)) (R.one_of (things b s))) at result }
{
    let second = one_of(src, at, n, a)?;
    one_of(src, second, n, b)
}

// A name that the script uses, and a number.
pub fn worded(file: File, at: usize, n: Counts, of: Section) -> Result<usize, Refusal>
    requires names_bound { n.names ≤ 1024 }
    requires in_bounds { 2048 ≤ length file.index.now }
    ensures { Gives (Known file.entry.index.now n) file.entry.src.now (λ s. R.pair (F.word s.names) (R.one_of (things of s))) at result }
{
    let number = name_for(file, at, n, Use::Word)?;
    one_of(file.src, number, n, of)
}

// One item of a list.
fn item(file: File, at: usize, n: Counts, k: Row) -> Result<usize, Refusal>
    requires names_bound { n.names ≤ 1024 }
    requires in_bounds { 2048 ≤ length file.index.now }
    ensures { Gives (Known file.entry.index.now n) file.entry.src.now (λ s. row_reader k s) at result }
{
    match k {
        Row::Super => one_of(file.src, at, n, Section::Names),
        Row::Argument => one_of(file.src, at, n, Section::Types),
        Row::Signature => worded(file, at, n, Section::Types),
        Row::Method => worded(file, at, n, Section::Exprs),
        Row::Context => two(file.src, at, n, Section::Names, Section::Types),
    }
}

// A list: its count, at most 64, then its items. (Inlined always: each kind of item has its own loop, which tests no kind.)
#[inline(always)]
pub fn list(file: File, at: usize, n: Counts, k: Row) -> Result<usize, Refusal>
    requires names_bound { n.names ≤ 1024 }
    requires in_bounds { 2048 ≤ length file.index.now }
    ensures { Gives (Known file.entry.index.now n) file.entry.src.now (λ s. R.list_of (row_reader k s)) at result }
{
    let count = reader::counted(file.src, at, 64)?;
    let mut place = at + 2;
    for _ in 0..count {
        place = item(file, place, n, k)?;
    }
    Ok(place)
}

// A constructor's name and its arguments.
fn constructor(file: File, at: usize, n: Counts) -> Result<usize, Refusal>
    requires names_bound { n.names ≤ 1024 }
    requires in_bounds { 2048 ≤ length file.index.now }
    ensures { Gives (Known file.entry.index.now n) file.entry.src.now (λ s. F.con_node s.names s.types) at result }
{
    let arguments = one_of(file.src, at, n, Section::Names)?;
    list(file, arguments, n, Row::Argument)
}

// Types: tag byte 0 Var; 1 Con; 2 Arrow.
pub fn type_node(file: File, at: usize, n: Counts) -> Result<usize, Refusal>
    requires names_bound { n.names ≤ 1024 }
    requires in_bounds { 2048 ≤ length file.index.now }
    ensures { Gives (Known file.entry.index.now n) file.entry.src.now (λ s. F.type_node s.names s.types) at result }
{
    match reader::byte(file.src, at) {
        Some(0) => name_for(file, at + 1, n, Use::Variable),
        Some(1) => constructor(file, at + 1, n),
        Some(2) => two(file.src, at + 1, n, Section::Types, Section::Types),
        _ => Err(Refusal::Format(at)),
    }
}

// The eight bytes of an Int.
fn int(src: &[u8], at: usize) -> Result<usize, Refusal>
    ensures { Gives Any src.now (λ s. F.int_node) at result }
{
    reader::eight(src, at).ok_or(Refusal::Format(at))?;
    Ok(at + 8)
}

// The byte of a Bool.
fn bool(src: &[u8], at: usize) -> Result<usize, Refusal>
    ensures { Gives Any src.now (λ s. F.bool_node) at result }
{
    match reader::byte(src, at) {
        Some(0 | 1) => Ok(at + 1),
        _ => Err(Refusal::Format(at)),
    }
}

// A let's name and its two expressions.
fn binding(file: File, at: usize, n: Counts) -> Result<usize, Refusal>
    requires names_bound { n.names ≤ 1024 }
    requires in_bounds { 2048 ≤ length file.index.now }
    ensures { Gives (Known file.entry.index.now n) file.entry.src.now (λ s. F.let_node s.names s.exprs) at result }
{
    let parts = name_for(file, at, n, Use::Word)?;
    two(file.src, parts, n, Section::Exprs, Section::Exprs)
}

// Expressions: 0 Var; 1 Int; 2 Bool; 3 Abs; 4 App; 5 Let.
pub fn expr_node(file: File, at: usize, n: Counts) -> Result<usize, Refusal>
    requires names_bound { n.names ≤ 1024 }
    requires in_bounds { 2048 ≤ length file.index.now }
    ensures { Gives (Known file.entry.index.now n) file.entry.src.now (λ s. F.expr_node s.names s.exprs) at result }
{
    match reader::byte(file.src, at) {
        Some(0) => name_for(file, at + 1, n, Use::Word),
        Some(1) => int(file.src, at + 1),
        Some(2) => bool(file.src, at + 1),
        Some(3) => worded(file, at + 1, n, Section::Exprs),
        Some(4) => two(file.src, at + 1, n, Section::Exprs, Section::Exprs),
        Some(5) => binding(file, at + 1, n),
        _ => Err(Refusal::Format(at)),
    }
}
