// Expressions of an accepted session file, with the names in them as numbers of the table of names.
#![tactic(auto)]

ghost use Rattle.exprs.specs.Exprs.{Shows};

use views::File;

// An expression, by the numbers of its names in the table and of its parts in the file.
pub use views::ExprNode as Node;

// Expression i of the file; none where no node stands.
pub fn expr_at(file: File, i: usize) -> Option<Node>
    ensures { Shows file.entry.src.now file.entry.index.now i result }
{
    match views::expr_at(file, i)? {
        Node::Var(x) => Some(Node::Var(file::name_number(file.index, x))),
        Node::Int(v) => Some(Node::Int(v)),
        Node::Bool(b) => Some(Node::Bool(b)),
        Node::Abs(x, b) => Some(Node::Abs(file::name_number(file.index, x), b)),
        Node::App(f, a) => Some(Node::App(f, a)),
        Node::Let(x, b, f) => Some(Node::Let(file::name_number(file.index, x), b, f)),
    }
}
