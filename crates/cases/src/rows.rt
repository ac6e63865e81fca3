// The table of names: read, and tested for equal ones.
ghost use Rattle.std.specs.Prelude.{◌≡◌, true, false, ◌+◌, ◌*◌, ◌<◌, ◌≤◌, length};
ghost use Rattle.names.specs.Names.{Names};
ghost use Rattle.cases.specs.Tested.{Apart, New};

use crate::input::Reader;

// Reads a name, a length and so many bytes, as four words, the first byte highest; what finds no room is left out.
fn name(reader: &mut Reader) -> [u64; 4] {
    let n = usize::from(reader.byte());
    let mut bytes = [[0u8; 8]; 4];
    for (to, from) in bytes.as_flattened_mut().iter_mut().zip(reader.bytes(n)) {
        *to = *from;
    }
    bytes.map(u64::from_be_bytes)
}

// Reads the names that the file begins with, or none where they are too many.
pub fn read<'a>(reader: &mut Reader, names: &'a mut [u64]) -> &'a [u64]
    ensures { length result.now ≤ length names.old }
{
    let n = reader.two();
    if n > names.len() / 4 {
        return &names[..0];
    }
    for row in names[..4 * n].chunks_exact_mut(4) {
        row.copy_from_slice(&name(reader));
    }
    &names[..4 * n]
}

// Whether two names are equal: neither comes before the other.
fn is_same(names: &[u64], i: usize, j: usize) -> bool
    requires i_bound { i < 1024 }
    requires j_bound { j < 1024 }
    ensures { result ≡ false → Apart names.now i j }
{
    if names::before(names, i, j) {
        return false;
    }
    if names::before(names, j, i) {
        return false;
    }
    true
}

// Whether a name before name i is equal to it.
fn is_old(names: &[u64], i: usize) -> bool
    requires { i < 1024 }
    ensures { result ≡ false → New names.now i }
{
    for j in 0..i {
        if is_same(names, i, j) {
            return true;
        }
    }
    false
}

// Whether no two names are equal.
pub fn are_distinct(names: &[u64]) -> bool
    ensures { result ≡ true → Names names.now }
{
    let n = names.len() / 4;
    if n > 1024 {
        return false;
    }
    for i in 0..n {
        if is_old(names, i) {
            return false;
        }
    }
    true
}
