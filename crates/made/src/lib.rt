// What the inference of an instance's method or of a class's default gives. There is no function here yet: specs/ says what one
// will promise.
#![tactic(auto)]

use scope::Fresh;

// A core term's word, and the next variable's and the next dictionary's number.
#[derive(Clone, Copy)]
pub struct Term {
    pub word: usize,
    pub fresh: Fresh,
}
