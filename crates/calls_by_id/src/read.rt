// The count of the entries, as a call of a list answers it.
ghost use Rattle.model.specs.Numbered.{numbered};
ghost use Rattle.std.specs.Prelude.{◌≡◌};
ghost use Rattle.model.specs.State.{state};
ghost use Rattle.model.specs.Kind.{base};
ghost use Rattle.model.specs.Row as row;
ghost use Rattle.model.specs.Row.{moved};
ghost use Rattle.model.specs.Answer.{number_answer};
ghost use Rattle.model.specs.ById.{tree_step};

use model::head::Head;
use model::refusal::Refusal;

// How many entries the tree has.
pub fn len(head: Head, leaves: &[u32], inners: &[u32], homes: &[u32]) -> Result<u32, Refusal>
    ensures { moved (state head leaves.now inners.now homes.now) (number_answer (numbered result)) ≡ tree_step base (state head leaves.now inners.now homes.now) row.count }
{
    crate::any::len(3, head, leaves, inners, homes)
}
