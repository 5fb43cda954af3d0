// What crosses the C boundary, as words, and back: the head that a host lends, what it hands over beside it, and the answers.
// Stands on model and calls.
#![tactic(auto)]

pub mod answered;
pub mod flat;
pub mod given;
pub mod head;
