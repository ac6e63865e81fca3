// Nodes of an accepted session file, by number: each is read at its place in the index. Whatever the file and the index
// hold, reading ends: past the end of the index a place is 0, and past the end of the file a field is 0.
#![tactic(auto)]

ghost use Rattle.std.specs.Prelude.{◌≡◌, ◌+◌, ◌≤◌, length, Some};
ghost use Rattle.meaning.specs.Base.{eqb};
ghost use Rattle.meaning.specs.File.{class_entry, instance_entry, decl_entry};
ghost use Rattle.views.specs.Numbers.{value_at, number_at, CountRead};
ghost use Rattle.views.specs.TypeViews.{TypeRead, IsType};
ghost use Rattle.views.specs.ExprViews.{ExprRead, IsExpr};
ghost use Rattle.views.specs.DeclViews.{ListRead, EntryRead, IsDecl};

pub use nodes::File;

// A type: a variable's name; a constructor's name, the place of its first argument and how many there are; the two
// sides of an arrow.
#[derive(Clone, Copy, Debug, PartialEq, Eq)]
pub enum TypeNode {
    Var(usize),
    Con(usize, usize, usize),
    Arrow(usize, usize),
}

// An expression, by the numbers of its names and parts.
#[derive(Clone, Copy, Debug, PartialEq, Eq)]
pub enum ExprNode {
    Var(usize),
    Int(usize),
    Bool(bool),
    Abs(usize, usize),
    App(usize, usize),
    Let(usize, usize, usize),
}

// A list of the file: the place of its first item, and how many there are.
#[derive(Clone, Copy, Debug, PartialEq, Eq)]
pub struct Listed {
    pub at: usize,
    pub count: usize,
}

// A declaration. A class: name, variable, superclasses of 2 bytes each, signatures and defaults of 4 bytes each. An
// instance: context of 4 bytes each, head class, head type, methods of 4 bytes each.
#[derive(Clone, Copy, Debug, PartialEq, Eq)]
pub enum DeclNode {
    Class(usize, usize, Listed, Listed, Listed),
    Instance(Listed, usize, usize, Listed),
    Let(usize, usize),
    Check(usize),
}

// The byte at a place as a truth value.
fn flag_at(src: &[u8], at: usize) -> bool
    ensures { result ≡ eqb (value_at 1 src.now at) 1 }
{
    matches!(reader::byte(src, at), Some(1))
}

// Two bytes as a number, the least one first.
pub fn number_at(src: &[u8], at: usize) -> usize
    ensures { result ≡ number_at src.now at }
{
    reader::number(src, at).unwrap_or(0)
}

// Eight bytes as a number, the least one first.
fn eight_at(src: &[u8], at: usize) -> usize
    ensures { result ≡ value_at 8 src.now at }
{
    reader::eight(src, at).unwrap_or(0)
}

// The count at a place, of at most 64 things; 0 where there is none such.
fn count_at(src: &[u8], at: usize) -> usize
    ensures { CountRead src.now at result }
{
    reader::counted(src, at, 64).unwrap_or(0)
}

// The list at a place: its count, then its items.
fn list_at(src: &[u8], at: usize) -> Listed
    requires { at ≤ length src.now + 512 }
    ensures { ListRead src.now at result }
{
    Listed {
        at: at + 2,
        count: count_at(src, at),
    }
}

// The type node at a place: tag byte 0 Var; 1 Con; 2 Arrow.
fn type_read(src: &[u8], at: usize) -> Option<TypeNode>
    ensures { TypeRead src.now at result }
{
    match reader::byte(src, at)? {
        0 => Some(TypeNode::Var(number_at(src, at + 1))),
        1 => Some(TypeNode::Con(number_at(src, at + 1), at + 5, count_at(src, at + 3))),
        2 => Some(TypeNode::Arrow(number_at(src, at + 1), number_at(src, at + 3))),
        _ => None,
    }
}

// Type i of the file; none where no node stands.
pub fn type_at(file: File, i: usize) -> Option<TypeNode>
    ensures { IsType file.entry.src.now file.entry.index.now i result }
{
    type_read(file.src, nodes::word(file.index, 2048, i))
}

// The expression node at a place: tag byte 0 Var; 1 Int; 2 Bool; 3 Abs; 4 App; 5 Let.
fn expr_read(src: &[u8], at: usize) -> Option<ExprNode>
    ensures { ExprRead src.now at result }
{
    match reader::byte(src, at)? {
        0 => Some(ExprNode::Var(number_at(src, at + 1))),
        1 => Some(ExprNode::Int(eight_at(src, at + 1))),
        2 => Some(ExprNode::Bool(flag_at(src, at + 1))),
        3 => Some(ExprNode::Abs(number_at(src, at + 1), number_at(src, at + 3))),
        4 => Some(ExprNode::App(number_at(src, at + 1), number_at(src, at + 3))),
        5 => Some(ExprNode::Let(
            number_at(src, at + 1),
            number_at(src, at + 3),
            number_at(src, at + 5),
        )),
        _ => None,
    }
}

// Expression i of the file; none where no node stands.
pub fn expr_at(file: File, i: usize) -> Option<ExprNode>
    ensures { IsExpr file.entry.src.now file.entry.index.now i result }
{
    expr_read(file.src, nodes::word(file.index, 6144, i))
}

// The class after its tag.
fn class_read(src: &[u8], at: usize) -> DeclNode
    requires { at ≤ length src.now }
    ensures { EntryRead class_entry src.now at (Some result) }
{
    let supers = list_at(src, at + 4);
    let signatures = list_at(src, supers.at + 2 * supers.count);
    let defaults = list_at(src, signatures.at + 4 * signatures.count);
    DeclNode::Class(
        number_at(src, at),
        number_at(src, at + 2),
        supers,
        signatures,
        defaults,
    )
}

// The instance after its tag.
fn instance_read(src: &[u8], at: usize) -> DeclNode
    requires { at ≤ length src.now }
    ensures { EntryRead instance_entry src.now at (Some result) }
{
    let context = list_at(src, at);
    let head = context.at + 4 * context.count;
    let methods = list_at(src, head + 4);
    DeclNode::Instance(
        context,
        number_at(src, head),
        number_at(src, head + 2),
        methods,
    )
}

// The declaration at a place: tag byte 0 class; 1 instance; 2 let; 3 check.
fn decl_read(src: &[u8], at: usize) -> Option<DeclNode>
    ensures { EntryRead decl_entry src.now at result }
{
    match reader::byte(src, at)? {
        0 => Some(class_read(src, at + 1)),
        1 => Some(instance_read(src, at + 1)),
        2 => Some(DeclNode::Let(number_at(src, at + 1), number_at(src, at + 3))),
        3 => Some(DeclNode::Check(number_at(src, at + 1))),
        _ => None,
    }
}

// Declaration i of the file; none where none stands.
pub fn decl_at(file: File, i: usize) -> Option<DeclNode>
    ensures { IsDecl file.entry.src.now file.entry.index.now i result }
{
    decl_read(file.src, nodes::word(file.index, 10240, i))
}
