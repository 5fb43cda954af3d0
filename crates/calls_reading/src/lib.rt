// The reading copy: a tree of one length an entry, the effect length, with calls by id alone. Each hands 1 and 0, its views and its
// effect view, to the calls for any kind of tree, and is equated with its definition at the kind `reading`; none has a requires.
// Stands on model, and in its own layer on calls_make and calls_by_id.
#![tactic(auto)]

pub mod change;
pub mod make;
pub mod read;
