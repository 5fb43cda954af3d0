// One node's words (impl Node of lib.rs), lent as its part of an area: in `read` what is read from them, in `write` and `split` how they change.
// Every function's contract is one equation with the model's definition on the node that the words hold.
// Stands on model, and in its own layer on tree_words.
#![tactic(auto)]

pub mod read;
pub mod split;
pub mod write;
