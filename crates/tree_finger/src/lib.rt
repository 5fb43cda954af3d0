// The search from the root down to a position, and the finger: the search from where the last one ended.
// Every contract is one equation with the model's definition (specs/Locate.antt), on any words: each stored link is compared before it is used.
// Stands on model, and in its own layer on tree_words, tree_area and tree_walk.
#![tactic(auto)]

pub mod finger;
pub mod search;
