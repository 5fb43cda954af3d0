// The reading copy for a host, through C linkage: each call is one proved call by id between two conversions of words, on a head and areas
// that the host lends. A library of its own: one with two kinds of tree would keep their sizes in registers.
// Stands on model and calls, and in its own layer on smelvock_marshal.
#![tactic(auto)]

pub mod answered;
pub mod change;
pub mod flat;
pub mod make;
pub mod read;
