// The class table: for the class of name c, word 2 * c is a place and word 2 * c + 1 a count; the superclasses stand from
// that place on, after all rows. What finds no room is left out.
ghost use Rattle.std.specs.Prelude.{◌<◌};

use cases::input::Reader;

// Writes a word at a place, if there is room for it.
fn put(classes: &mut [u64], i: usize, x: usize) {
    if let Some(word) = classes.get_mut(i) {
        *word = x as u64;
    }
}

// Writes a word at the first free place, if there is room for it.
fn push(classes: &mut [u64], free: &mut usize, x: usize) {
    if let Some(word) = classes.get_mut(*free) {
        *word = x as u64;
        *free += 1;
    }
}

// Reads a class: its name, how many superclasses, their names. It has a row if it has a name.
fn class(reader: &mut Reader, classes: &mut [u64], rows: usize, free: &mut usize) {
    let c = reader.two();
    let n = reader.byte();
    if c < rows {
        put(classes, 2 * c, *free);
        put(classes, 2 * c + 1, usize::from(n));
    }
    for _super in 0..n {
        push(classes, free, reader.two());
    }
}

// Reads how many classes a case has, and the classes, of which there are as many rows as names. Those of the case before
// are forgotten.
pub fn read(reader: &mut Reader, classes: &mut [u64], rows: usize)
    requires { rows < 65536 }
{
    classes.fill(0);
    let n = reader.two();
    let mut free = 2 * rows;
    for _class in 0..n {
        class(reader, classes, rows, &mut free);
    }
}
