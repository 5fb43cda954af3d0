// audit: whether a tree is sound, tested by numbers: in `nodes` one node's words, in `link` and `entry` links, leaves and entries, in `any` a
// tree with one to three lengths an entry, in `seated` the full tree with its seats' words. Every test is equated with its definition in model's
// specs/Audit.antt or in specs/Links.antt. No link is followed before it is tested.
// Stands on model and tree, and in its own layer on calls_make.
#![tactic(auto)]

pub mod any;
pub mod entry;
pub mod link;
pub mod nodes;
pub mod seated;
