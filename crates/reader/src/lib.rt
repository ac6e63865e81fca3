// Fields of a session file, by the place where each begins. Past the end of the file every field is cut.
#![tactic(auto)]

ghost use Rattle.std.specs.Prelude.{◌≡◌, ℕ, ◌+◌, ◌*◌, ◌<◌, ◌≤◌, length, get_or};
ghost use Rattle.reader.specs.Verdicts.{IsField, IsCount, Picks};

use errors::Refusal;

// The field of one byte.
pub fn byte(src: &[u8], at: usize) -> Option<usize>
    ensures { IsField 1 src.now at result }
{
    let b = src.get(at)?;
    Some(usize::from(*b))
}

// The field of two bytes, the least one first. (One test of the place: `get` and a pattern take two, in each loop over a list.)
pub fn number(src: &[u8], at: usize) -> Option<usize>
    ensures { IsField 2 src.now at result }
{
    let last = src.len().checked_sub(2)?;
    if at > last {
        return None;
    }
    Some(usize::from(u16::from_le_bytes([src[at], src[at + 1]])))
}

// The field of eight bytes, the least one first. (One function over the size is no plainer than `number` and this one: it
// has to build the number in a loop, where the pattern shows which bytes are read.)
pub fn eight(src: &[u8], at: usize) -> Option<usize>
    ensures { IsField 8 src.now at result }
{
    match src.get(at..)? {
        [a, b, c, d, e, f, g, h, ..] => Some(usize::from_le_bytes([
            *a, *b, *c, *d, *e, *f, *g, *h,
        ])),
        _ => None,
    }
}

// A count, before anything that it counts is read.
pub fn counted(src: &[u8], at: usize, most: usize) -> Result<usize, Refusal>
    ensures { IsCount most src.now at result }
{
    let n = number(src, at).ok_or(Refusal::Format(at))?;
    if n > most {
        return Err(Refusal::Limit(at));
    }
    Ok(n)
}

// The number of one of n things.
pub fn pick(src: &[u8], at: usize, n: usize) -> Option<usize>
    ensures { Picks n src.now at result }
{
    number(src, at).filter(|v| *v < n)
}
