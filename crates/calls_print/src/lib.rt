// The call that prints the sheet: a number in ten columns, a line, the lines of a leaf, the lines of all leaves, and blank lines.
// `print` is equated with its definition in model's specs/Print.antt, refusals first: in `any` for a tree with one to three lengths an
// entry, in `print` for the full tree, with no requires.
// Stands on model and tree.
#![tactic(auto)]

pub mod any;
pub mod line;
pub mod print;
pub mod walk_lines;
