// The session file of document 01: read whole, checked, and indexed.
#![tactic(auto)]

ghost use Rattle.file.specs.Reading.{IsName, IsPlace, Reads};

use errors::Refusal;
use nodes::Counts;

// Reads a session file into a table of its names and an index of the places of its names, types, expressions and declarations.
pub fn read(
    src: &[u8],
    names: &mut [u64; 4236],
    index: &mut [u64; 11776],
) -> Result<Counts, Refusal>
    ensures { Reads src.now names.new index.new result }
{
    if src.len() > 65535 {
        return Err(Refusal::Limit(0));
    }
    let count = reader::counted(src, 0, 1024)?;
    let end = nametable::read_names(src, names, index, 2, count)?;
    body::read_types(
        src,
        index,
        end,
        Counts {
            names: count,
            types: 0,
            exprs: 0,
            decls: 0,
        },
    )
}

// The number of the file's i-th name in the table of names; of a number that the index has not, 0.
pub fn name_number(index: &[u64], i: usize) -> usize
    ensures { IsName index.now i result }
{
    nodes::word(index, 0, i)
}

// The place of the file's i-th name: of its length, which its text follows; of a number that the index has not, 0.
pub fn name_place(index: &[u64], i: usize) -> usize
    ensures { IsPlace index.now i result }
{
    nodes::word(index, 10752, i)
}
