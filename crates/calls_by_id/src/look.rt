// The lookup by id.
ghost use Rattle.model.specs.Numbered.{numbered};
ghost use Rattle.std.specs.Prelude.{◌≡◌};
ghost use Rattle.model.specs.State.{state};
ghost use Rattle.model.specs.Length.{view_number};
ghost use Rattle.model.specs.Kind.{base};
ghost use Rattle.model.specs.Row as row;
ghost use Rattle.model.specs.Row.{moved};
ghost use Rattle.model.specs.ById.{tree_step};
ghost use Rattle.calls_by_id.specs.Answer.{looked_answer};

use model::answer::Reply;
use model::head::Head;
use model::length::View;
use model::number::EntryId;

// The entry that holds a position in a view, the offset into it, and its effect and prepare positions.
pub fn locate(
    head: Head,
    leaves: &[u32],
    inners: &[u32],
    homes: &[u32],
    view: View,
    index: u32,
) -> Reply<(EntryId, u32, u32, u32)>
    ensures { moved (state result.head leaves.now inners.now homes.now) (looked_answer (numbered result.answer)) ≡ tree_step base (state head leaves.now inners.now homes.now) (row.lookup (view_number view) index) }
{
    crate::any::locate(3, 1, head, leaves, inners, homes, view.number(), index)
}
