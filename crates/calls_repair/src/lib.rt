// repair: a stored tree put right, or refused by 21: in `mend` what is written, in `any` the call for a tree with one to three lengths an
// entry, in `seated` for the full tree with its seats' words. Equated with its definition in model's specs/Repair.antt.
// Stands on model and tree, and in its own layer on calls_make, calls_repair_test and calls_repair_write.
#![tactic(auto)]

pub mod any;
pub mod mend;
pub mod seated;
