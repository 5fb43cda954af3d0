// A list of records on a tree: `answer` has each call's answer as an answer record, `find` and `step` one record's call, `run` a list of them on a
// tree given, `made` on one made anew. A step is equated with the tree's in model's specs/ById.antt, a run with its steps, and on a tree that
// represents a row with the row's answers.
// Stands on model and calls, and in its own layer on list_records.
#![tactic(auto)]

pub mod answer;
pub mod find;
pub mod made;
pub mod run;
pub mod step;
