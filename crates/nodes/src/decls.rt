// The declarations of a session file.
ghost use Rattle.std.specs.Prelude.{◌≤◌, length};
ghost use Rattle.meaning.specs.File as F;
ghost use Rattle.nodes.specs.Known.{Known, Gives};

use crate::{Counts, File, Row, Section, Use};
use errors::Refusal;

// A class: name, variable, superclasses, signatures and defaults.
fn class_entry(file: File, at: usize, n: Counts) -> Result<usize, Refusal>
    requires names_bound { n.names ≤ 1024 }
    requires in_bounds { 2048 ≤ length file.index.now }
    ensures { Gives (Known file.entry.index.now n) file.entry.src.now (λ s. F.class_entry s.names s.types s.exprs) at result }
{
    let variable = crate::one_of(file.src, at, n, Section::Names)?;
    let supers = crate::name_for(file, variable, n, Use::Variable)?;
    let signatures = crate::list(file, supers, n, Row::Super)?;
    let defaults = crate::list(file, signatures, n, Row::Signature)?;
    crate::list(file, defaults, n, Row::Method)
}

// An instance: context, head and methods.
fn instance_entry(file: File, at: usize, n: Counts) -> Result<usize, Refusal>
    requires names_bound { n.names ≤ 1024 }
    requires in_bounds { 2048 ≤ length file.index.now }
    ensures { Gives (Known file.entry.index.now n) file.entry.src.now (λ s. F.instance_entry s.names s.types s.exprs) at result }
{
    let head = crate::list(file, at, n, Row::Context)?;
    let methods = crate::two(file.src, head, n, Section::Names, Section::Types)?;
    crate::list(file, methods, n, Row::Method)
}

// Declarations: 0 class; 1 instance; 2 let; 3 check.
pub fn decl_entry(file: File, at: usize, n: Counts) -> Result<usize, Refusal>
    requires names_bound { n.names ≤ 1024 }
    requires in_bounds { 2048 ≤ length file.index.now }
    ensures { Gives (Known file.entry.index.now n) file.entry.src.now (λ s. F.decl_entry s.names s.types s.exprs) at result }
{
    match reader::byte(file.src, at) {
        Some(0) => class_entry(file, at + 1, n),
        Some(1) => instance_entry(file, at + 1, n),
        Some(2) => crate::worded(file, at + 1, n, Section::Exprs),
        Some(3) => crate::one_of(file.src, at + 1, n, Section::Exprs),
        _ => Err(Refusal::Format(at)),
    }
}
