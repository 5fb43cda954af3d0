// The tree without words, all in specs/: areas as functions from a number to slots, parent and place, and what each change does to them.
// No function: the tool with which the crates above prove what they say of the model's definitions; nobody has to believe these definitions.
// Stands on model.
#![tactic(auto)]
