// The call that divides an entry: split_entry.
// It is equated with its definition in model's specs/Calls.antt, refusals first: in `any` for a tree with one to three lengths an
// entry, in `split` for the full tree, with no requires, and in `seated` for the full tree with its seats' words.
// Stands on model and tree.
#![tactic(auto)]

pub mod any;
pub mod seated;
pub mod split;
