// A node within its area: its words, and the functions over one node's words lent at its part of the area.
// Each change ends in put_node: node k written anew, every other word as it was.
// Stands on model, and in its own layer on tree_node.
#![tactic(auto)]

pub mod word;
pub mod write;
