// The planning tree: entries whose lengths aren't known yet, each with a lowest and a highest one, and calls by id alone. Each hands 2, 1
// and true, its views, its effect view and their order, to the calls for any kind of tree, and is equated with its definition in model's
// specs/Plan.antt; none has a requires.
// Stands on model and tree, and in its own layer on calls_read, calls_make, calls_audit and calls_by_id.
#![tactic(auto)]

pub mod bounds;
pub mod change;
pub mod hold;
pub mod make;
pub mod read;
