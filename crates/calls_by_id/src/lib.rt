// The calls by the ids of the entries that they name or answer, each equated with its part of a step in model's specs/ById.antt. For the full tree,
// with no requires: `look`, `iterate`, `read`, and `target`, where an insertion by id goes. For a tree with one to three lengths an entry: `any`
// (locate, next, len) and, for a tree by ids alone, whose library has each of them once, `change` (insert, split, set) and `order` (rank, next, compare).
// Stands on model and tree, and in its own layer on calls_read, calls_size, calls_insert and calls_split.
#![tactic(auto)]

pub mod any;
pub mod change;
pub mod iterate;
pub mod look;
pub mod order;
pub mod read;
pub mod target;
