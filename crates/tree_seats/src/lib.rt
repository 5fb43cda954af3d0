// The seats of a tree in the seventeen words that a caller lends: their rules, and what calls do to the charges.
// Every function is equated with its definition in model's specs/Seats.antt or SeatedCalls.antt.
// Stands on model.
#![tactic(auto)]

pub mod rule;
pub mod sum;
pub mod write;
