// Replaying a file of cases.
ghost use Rattle.std.specs.Prelude.{◌≡◌, length};
ghost use Rattle.names.specs.Names.{Names};

use crate::input::Reader;
use crate::rows;
use ast::Base;
use std::io;

// Reads the names that the file begins with and, if no two of them are equal, lets `one` read and answer one case after
// another, each of which has at least one byte. No type lies in a closed table.
pub fn all<F: FnMut(&mut Reader, Base) -> io::Result<()>>(
    file: &[u8],
    names: &mut [u64],
    mut one: F,
) -> io::Result<()>
    requires { (state : F) (reader : _) (base : _) → length base.words.now ≡ 0 → Names base.names.now → F.pre state reader base }
{
    let mut reader = Reader::new(file);
    let names = rows::read(&mut reader, names);
    if !rows::are_distinct(names) {
        return Ok(());
    }
    let base = Base { words: &[], names };
    for _turn in 0..file.len() {
        if reader.is_empty() {
            return Ok(());
        }
        one(&mut reader, base)?;
    }
    Ok(())
}
