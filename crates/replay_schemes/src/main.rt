// Schemes and binders that are made of nothing, and what 002 and 001 say of them: free variables, whether a scheme is closed,
// a substitution applied to one, and binders reduced with givens and without. The lines that the program must write are
// those that `proofs/Lines` computes from the definitions.
#![tactic(auto)]

mod reduced;
mod say;
mod schemes;

use std::io;
use std::io::Write;

fn main(rt: HostRuntime) -> io::Result<()> {
    let mut out = rt.stdout();
    schemes::lines(&mut out)?;
    reduced::lines(&mut out)
}
