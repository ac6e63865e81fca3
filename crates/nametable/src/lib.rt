// The names section of a session file: read into a table of names, the built-in names first, and into the file's index.
#![tactic(auto)]

ghost use Rattle.std.specs.Prelude.{◌≡◌, ◌+◌, ◌*◌, ◌<◌, ◌≤◌, length, set};
ghost use Rattle.nametable.specs.Entries.{Spotted, Entered, Taken};
ghost use Rattle.nametable.specs.Tables.{ReadAll, Bound, AllBound, NamesRead};

use errors::Refusal;
use names::Key;
use spelling::Form;

// The text of the name at a place, which has a length byte and so many letters; or the place of what is wrong there.
fn text_at(src: &[u8], at: usize) -> Result<&[u8], usize>
    ensures { Spotted src.now at result }
{
    let len = reader::byte(src, at).ok_or(at)?;
    if len == 0 || len > 32 {
        return Err(at);
    }
    let text = src.get(at + 1..at + 1 + len).ok_or(at + 1)?;
    if spelling::letters(text) {
        Ok(text)
    } else {
        Err(at + 1)
    }
}

// Writes the i-th name of the file and its form.
fn enter(names: &mut [u64], index: &mut [u64], i: usize, k: Key, f: Form)
    requires i_in_bounds { 4 * i + 144 ≤ length names.old }
    requires i_in_bounds_2 { 1024 + i < length index.old }
    ensures { Entered names.old index.old names.new index.new i k f }
{
    rows::put_row(names, 35 + i, k);
    index[1024 + i] = f as u64;
}

// Reads the name at a place as the i-th one of the file. One that equals an earlier name is refused where its text begins.
fn take(
    src: &[u8],
    names: &mut [u64],
    index: &mut [u64],
    at: usize,
    i: usize,
) -> Result<usize, Refusal>
    requires i_in_bounds { 4 * i + 144 ≤ length names.old }
    requires i_in_bounds_2 { 1024 + i < length index.old }
    ensures { Taken src.now names.old index.old names.new index.new at i result }
{
    let text = text_at(src, at).map_err(Refusal::Format)?;
    let k = spelling::key_of(text);
    if rows::is_known(names, k, i) {
        return Err(Refusal::Format(at + 1));
    }
    enter(names, index, i, k, spelling::form_of(text));
    Ok(at + 1 + text.len())
}

// Writes the place of the i-th name into the index.
fn mark(index: &mut [u64], i: usize, at: usize)
    requires i_bound { i < 1024 }
    requires i_in_bounds { 10752 + i < length index.old }
    ensures { index.new ≡ set index.old (10752 + i) at }
{
    index[10752 + i] = at as u64;
}

// Reads n names from a place on, up to the first bad one. (`names` and `index` stay two slices, whose lengths three functions
// require: a struct of both is no plainer, since `read_names` alone would make it, of slices that its caller keeps.)
fn read_all(
    src: &[u8],
    names: &mut [u64],
    index: &mut [u64],
    at: usize,
    n: usize,
) -> Result<usize, Refusal>
    requires names_len { length names.old ≡ 4236 }
    requires index_len { length index.old ≡ 11776 }
    requires n_bound { n ≤ 1024 }
    requires at_in_bounds { at ≤ length src.now }
    ensures { ReadAll src.now names.old index.old names.new index.new at n result }
{
    let mut p = at;
    for i in 0..n {
        mark(index, i, p);
        p = take(src, names, index, p, i)?;
    }
    Ok(p)
}

// Writes the number of the i-th name: that of a built-in name, or else its own row. A row that is not needed is given up.
fn bind(names: &mut [u64], index: &mut [u64], i: usize)
    requires i_in_bounds { 4 * i + 144 ≤ length names.old }
    requires i_in_bounds_2 { i < length index.old }
    ensures { Bound names.old index.old names.new index.new i }
{
    let k = rows::row_key(names, 35 + i);
    if let Some(j) = rows::built_in(names, k) {
        index[i] = j as u64;
        let own = rows::first_key(35 + i);
        rows::put_row(names, 35 + i, own);
    } else {
        index[i] = (35 + i) as u64;
    }
}

// Writes the numbers of n names.
fn bind_all(names: &mut [u64], index: &mut [u64], n: usize)
    requires names_len { length names.old ≡ 4236 }
    requires index_len { length index.old ≡ 11776 }
    requires n_bound { n ≤ 1024 }
    ensures { AllBound names.old index.old names.new index.new n }
{
    for i in 0..n {
        bind(names, index, i);
    }
}

// Reads the n names of the names section from a place on: the table of names, and of each name its number, its form and its
// place.
pub fn read_names(
    src: &[u8],
    names: &mut [u64],
    index: &mut [u64],
    at: usize,
    n: usize,
) -> Result<usize, Refusal>
    requires names_len { length names.old ≡ 4236 }
    requires index_len { length index.old ≡ 11776 }
    requires n_bound { n ≤ 1024 }
    requires at_in_bounds { at ≤ length src.now }
    ensures { NamesRead src.now index.old names.new index.new at n result }
{
    rows::fill(names);
    let p = read_all(src, names, index, at, n)?;
    bind_all(names, index, n);
    Ok(p)
}
