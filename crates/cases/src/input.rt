// Reading the file.
ghost use Rattle.std.specs.Prelude.{◌≡◌, ◌+◌, ◌*◌, ◌<◌, ◌≤◌, ◌↔◌, length, take, drop, slice_index, IfOk, IsTrue};

use std::io;
use std::io::Read;

// Reads until the buffer is full or the input ends; how many bytes it put at the buffer's start.
// No heap: the library's method that counts what it reads up to the end grows a `Vec`.
pub fn fill<R: Read>(from: &mut R, buf: &mut [u8]) -> io::Result<usize>
    ensures { IfOk result (λ n. n ≤ length buf.new) }
{
    let mut done: usize = 0;
    while done < buf.len() {
        let n = from.read(&mut buf[done..])?;
        if n == 0 {
            return Ok(done);
        }
        done += n;
    }
    Ok(done)
}

// What is left of a file. Past its end stand zeros.
#[derive(Clone, Copy)]
pub struct Reader<'a> {
    pub rest: &'a [u8],
}

impl<'a> Reader<'a> {
    // A file, from its beginning on.
    pub fn new(file: &'a [u8]) -> Reader<'a>
        ensures { result.rest.now ≡ file.now }
    {
        Reader { rest: file }
    }

    // Whether nothing is left.
    pub fn is_empty(self) -> bool
        ensures { IsTrue result ↔ (length self.entry.rest.now ≡ 0) }
    {
        self.rest.is_empty()
    }

    // The next k bytes, or those that are left.
    pub fn bytes(&mut self, k: usize) -> &'a [u8]
        ensures value { result.now ≡ take k self.old.rest.now }
        ensures rest { self.new.rest.now ≡ drop k self.old.rest.now }
    {
        let (bytes, rest) = self.rest.split_at(k.min(self.rest.len()));
        self.rest = rest;
        bytes
    }

    // The next byte.
    pub fn byte(&mut self) -> u8
        ensures value { result ≡ slice_index self.old.rest.now 0 }
        ensures rest { self.new.rest.now ≡ drop 1 self.old.rest.now }
    {
        let Some((byte, rest)) = self.rest.split_first() else {
            return 0;
        };
        self.rest = rest;
        *byte
    }

    // Two bytes as a number, the lowest first.
    pub fn two(&mut self) -> usize
        ensures value { result ≡ slice_index self.old.rest.now 0 + 256 * slice_index self.old.rest.now 1 }
        ensures bound { result < 65536 }
        ensures rest { self.new.rest.now ≡ drop 2 self.old.rest.now }
    {
        usize::from(u16::from_le_bytes([self.byte(), self.byte()]))
    }

    // Four bytes as a number, the lowest first.
    pub fn four(&mut self) -> usize
        ensures value { result ≡ slice_index self.old.rest.now 0 + 256 * slice_index self.old.rest.now 1
            + 65536 * slice_index self.old.rest.now 2 + 16777216 * slice_index self.old.rest.now 3 }
        ensures bound { result < 4294967296 }
        ensures rest { self.new.rest.now ≡ drop 4 self.old.rest.now }
    {
        u32::from_le_bytes([self.byte(), self.byte(), self.byte(), self.byte()]) as usize
    }
}
