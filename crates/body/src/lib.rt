// A session file after its names: types, expressions, declarations, and no byte after them.
// (The length of the index stays a clause: an array would ask more of callers than a slice.)
#![tactic(auto)]

ghost use Rattle.std.specs.Prelude.{◌≡◌, ℕ, ◌≤◌, length};
ghost use Rattle.body.specs.Tails.{DeclsAs, ExprsAs, TypesAs, GivesTail};

use errors::Refusal;
use nodes::Counts;
use sections::Part;

// The declarations, and no byte after them.
fn read_decls(src: &[u8], index: &mut [u64], at: usize, n: Counts) -> Result<Counts, Refusal>
    requires names_bound { n.names ≤ 1024 }
    requires index_len { length index.old ≡ 11776 }
    ensures { GivesTail DeclsAs 10240 src.now index.old index.new n at result }
{
    let decls = sections::section(src, index, at, n, Part::Decls)?;
    if decls.end != src.len() {
        return Err(Refusal::Format(decls.end));
    }
    Ok(Counts {
        decls: decls.count,
        ..n
    })
}

// The expressions and what follows them.
fn read_exprs(src: &[u8], index: &mut [u64], at: usize, n: Counts) -> Result<Counts, Refusal>
    requires names_bound { n.names ≤ 1024 }
    requires index_len { length index.old ≡ 11776 }
    ensures { GivesTail ExprsAs 6144 src.now index.old index.new n at result }
{
    let exprs = sections::section(src, index, at, n, Part::Exprs)?;
    read_decls(
        src,
        index,
        exprs.end,
        Counts {
            exprs: exprs.count,
            ..n
        },
    )
}

// The types and what follows them.
pub fn read_types(src: &[u8], index: &mut [u64], at: usize, n: Counts) -> Result<Counts, Refusal>
    requires names_bound { n.names ≤ 1024 }
    requires index_len { length index.old ≡ 11776 }
    ensures { GivesTail TypesAs 2048 src.now index.old index.new n at result }
{
    let types = sections::section(src, index, at, n, Part::Types)?;
    read_exprs(
        src,
        index,
        types.end,
        Counts {
            types: types.count,
            ..n
        },
    )
}
