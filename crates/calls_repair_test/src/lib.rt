// Whether the words that repair trusts are those of a sound tree: `queue` notes inner nodes, leaves and ids, each once, `reach` all of them,
// `lens` tests lens and leaf slots, `total` the totals, `fit` everything. No link is followed before it is tested.
// Stands on model and tree, and in its own layer on calls_audit.
#![tactic(auto)]

pub mod fit;
pub mod lens;
pub mod queue;
pub mod reach;
pub mod total;
