// Records and answer records as bytes: a record's fields, the call that they say, and an answer's sixteen bytes.
// Each is equated with its definition in model's specs/Record.antt.
// Stands on model.
#![tactic(auto)]

pub mod answer;
pub mod call;
pub mod fields;
