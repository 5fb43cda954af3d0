// What the model's definitions do to a tree, all in specs/: a state's words read as an abstract tree, and each definition as a change of it.
// No function: soundness is kept and every answer is the plain row's.
// Stands on model, model_laws and model_tree.
#![tactic(auto)]
