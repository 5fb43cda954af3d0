// Runs of words: in `run` moved and emptied, in `write` written over others with a count of those that differ from before.
// Every function's contract is one equation with a definition on lists of words.
// Stands on model.
#![tactic(auto)]

pub mod run;
pub mod write;
