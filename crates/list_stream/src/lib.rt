// Records in, lines of text out, free of input and output: `number` and `line` write an answer as text, `block` plays a block of bytes on a tree,
// `rest` is what is kept of it. Each function is equated with its definition in specs/Text.antt, Lines.antt or Shown.antt.
// Stands on model, and in its own layer on list_records and list_row.
#![tactic(auto)]

pub mod block;
pub mod line;
pub mod number;
pub mod rest;
