// What a call tests before it does anything, in the order of the refusals: fan and limit, the areas, the head's counts, its cursor, the lengths.
// specs/Ready.antt says what is known where no test refuses.
// Stands on model, and in its own layer on tree_node and tree_area.
#![tactic(auto)]

pub mod lengths;
pub mod open;
