// The changes of a tree at a slot of a leaf: other lengths, one entry more, one entry divided.
// Every contract is one equation with the model's definition (specs/Place.antt), on any words.
// Stands on model, and in its own layer on tree_node, tree_area, tree_walk, tree_finger and tree_links.
#![tactic(auto)]

pub mod change;
pub mod entry;
pub mod home;
pub mod room;
pub mod size;
