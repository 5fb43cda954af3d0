// The calls that give an entry other lengths: set_lengths and update.
// Each is equated with its definition in model's specs/Calls.antt, refusals first: in `any` for a tree with one to three lengths an
// entry, in `size` for the full tree, with no requires.
// Stands on model and tree.
#![tactic(auto)]

pub mod any;
pub mod size;
