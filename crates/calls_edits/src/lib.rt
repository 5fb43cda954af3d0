// Files of edits that name their forerunners (change request 5): a checker, and the edits that one edit rests on and another doesn't.
// Each call is equated with its definition in specs/Edits.antt; specs/Promised.antt says what that means.
// Stands on model and list.
#![tactic(auto)]

pub mod check;
pub mod difference;
pub mod walk;
