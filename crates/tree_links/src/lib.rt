// Links between an inner node and its children: in `link`, `parts` and `split` a slot for a new child, an inner node divided, a new root
// (adopt of lib.rs); in `grow` a new child with every split that it needs above (add_child, split_node). Each contract is one equation with the
// model's definition, on any words: a link or a place that leads outside is answered by Broken.
// Stands on model, and in its own layer on tree_node and tree_area.
#![tactic(auto)]

pub mod grow;
pub mod link;
pub mod parts;
pub mod split;
