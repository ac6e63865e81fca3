// The sections of a session file after its names: each item is read, and its place written into the index.
// (The length of the index stays a clause: an array would ask more of callers than a slice.)
#![tactic(auto)]

ghost use Rattle.std.specs.Prelude.{◌≡◌, ℕ, ◌+◌, ◌<◌, ◌≤◌, length};
ghost use Rattle.sections.specs.Parts.{limit_of, base_of, NodeGives, GivesItems, GivesSection};

use errors::Refusal;
use nodes::{Counts, File};

// A section after the names.
#[derive(Clone, Copy, Debug, PartialEq, Eq)]
pub enum Part {
    Types,
    Exprs,
    Decls,
}

impl Part {
    // How many items a section may have.
    fn limit(self) -> usize
        ensures { result ≡ limit_of self }
    {
        match self {
            Part::Types | Part::Exprs => 4096,
            Part::Decls => 512,
        }
    }

    // The word of the index for the first item's place.
    fn base(self) -> usize
        ensures { result ≡ base_of self }
    {
        match self {
            Part::Types => 2048,
            Part::Exprs => 6144,
            Part::Decls => 10240,
        }
    }
}

// How many items a section has, and the place after them.
#[derive(Clone, Copy, Debug, PartialEq, Eq)]
pub struct Counted {
    pub count: usize,
    pub end: usize,
}

// The i-th item of a section.
fn node(file: File, at: usize, n: Counts, part: Part, i: usize) -> Result<usize, Refusal>
    requires names_bound { n.names ≤ 1024 }
    requires in_bounds { 2048 ≤ length file.index.now }
    ensures { NodeGives file.entry.src.now file.entry.index.now n part i at result }
{
    match part {
        Part::Types => nodes::type_node(file, at, Counts { types: i, ..n }),
        Part::Exprs => nodes::expr_node(file, at, Counts { exprs: i, ..n }),
        Part::Decls => nodes::decls::decl_entry(file, at, n),
    }
}

// So many items of a section.
fn items(
    src: &[u8],
    index: &mut [u64],
    at: usize,
    n: Counts,
    part: Part,
    count: usize,
) -> Result<usize, Refusal>
    requires names_bound { n.names ≤ 1024 }
    requires index_len { length index.old ≡ 11776 }
    requires count_bound { count ≤ limit_of part }
    requires at_in_bounds { at ≤ length src.now }
    ensures { GivesItems src.now index.old index.new n part count at result }
{
    let base = part.base();
    let mut place = at;
    for i in 0..count {
        index[base + i] = place as u64;
        place = node(File { src, index }, place, n, part, i)?;
    }
    Ok(place)
}

// A section: its count, then its items.
pub fn section(
    src: &[u8],
    index: &mut [u64],
    at: usize,
    n: Counts,
    part: Part,
) -> Result<Counted, Refusal>
    requires names_bound { n.names ≤ 1024 }
    requires index_len { length index.old ≡ 11776 }
    ensures { GivesSection src.now index.old index.new n part at result }
{
    let count = reader::counted(src, at, part.limit())?;
    let end = items(src, index, at + 2, n, part, count)?;
    Ok(Counted { count, end })
}
