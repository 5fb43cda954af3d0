// Walks over links: up to the root, and down an edge.
// Every contract is one equation with the model's definition, on any words: each stored link is compared before it is used.
// Stands on model, and in its own layer on tree_area.
#![tactic(auto)]

pub mod bounds;
pub mod climb;
pub mod down;
