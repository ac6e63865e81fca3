// What the programs that run cases share: reading the names and the types of a case, testing what was read, and writing
// names, types, dictionaries and refusals.
#![tactic(auto)]

pub mod binders;
pub mod dicts;
pub mod goals;
pub mod input;
pub mod nodes;
pub mod ready;
pub mod replay;
pub mod rows;
pub mod say;
