// The calls for a host, through C linkage: each is one proved call between two conversions of words, on a head and areas that the
// host lends. Stands on model, tree and calls, and in its own layer on smelvock_marshal.
#![tactic(auto)]

pub mod change;
pub mod check;
pub mod edits;
pub mod look;
pub mod make;
pub mod mend;
pub mod order;
pub mod print;
pub mod read;
