// The laws of the model's definitions, all in specs/: runs of words, slots and their words, one node, an area.
// No function: every crate above cites these.
// Stands on model.
#![tactic(auto)]
