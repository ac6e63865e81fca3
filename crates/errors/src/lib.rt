// Refusals: document 01's numbers, and the Rust's errors with their fields as words.
#![tactic(auto)]

ghost use Rattle.std.specs.Prelude.{◌≡◌};
ghost use Rattle.errors.specs.Refusals.{Numbered};

// How deep types, terms and goals may be.
pub const DEPTH: usize = 256;

// The refusals that the port adds, 1 to 3 with an offset into the file; then `InferenceError`, variant by variant. A
// name is its number, a type or a type variable its word.
#[derive(Clone, Copy)]
pub enum Refusal {
    Format(usize),
    Limit(usize),
    Reserved(usize),
    Redeclared,
    Room,
    Steps,
    Depth,
    Output,
    UnboundVariable(usize),
    UnificationFailure(usize, usize),
    OccursCheck(usize, usize),
    ConMismatch(usize, usize),
    ArityMismatch(usize, usize, usize),
    NoInstance(usize, usize),
    Ambiguous(usize, usize),
    DuplicateInstance(usize, usize),
    UnknownClass(usize),
    UnknownMethod(usize),
    MissingSuperclass(usize, usize),
    MissingMethod(usize, usize, usize),
}

// Document 01's number of a refusal. Numbers have gaps and variants have fields, so no `as` gives them.
pub fn number(e: Refusal) -> u64
    ensures { Numbered e result }
{
    match e {
        Refusal::Format(_) => 1,
        Refusal::Limit(_) => 2,
        Refusal::Reserved(_) => 3,
        Refusal::Redeclared => 4,
        Refusal::Room => 5,
        Refusal::Steps => 6,
        Refusal::Depth => 7,
        Refusal::Output => 8,
        Refusal::UnboundVariable(_) => 11,
        Refusal::UnificationFailure(_, _) => 12,
        Refusal::OccursCheck(_, _) => 13,
        Refusal::ConMismatch(_, _) => 14,
        Refusal::ArityMismatch(_, _, _) => 15,
        Refusal::NoInstance(_, _) => 16,
        Refusal::Ambiguous(_, _) => 17,
        Refusal::DuplicateInstance(_, _) => 18,
        Refusal::UnknownClass(_) => 19,
        Refusal::UnknownMethod(_) => 20,
        Refusal::MissingSuperclass(_, _) => 21,
        Refusal::MissingMethod(_, _, _) => 22,
    }
}
