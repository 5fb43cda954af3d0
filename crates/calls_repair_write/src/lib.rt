// What repair writes where its test has passed, each word with the value that the one tree has: in `word` a node's link, slot and unused
// slots, in `inner` the inner nodes from the lowest level up, in `leaf` the leaves and homes. Words that differ from before are counted.
// Stands on model and tree.
#![tactic(auto)]

pub mod inner;
pub mod leaf;
pub mod word;
