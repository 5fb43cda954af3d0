// The call, of the full tree with its seats' seventeen words.
ghost use Rattle.model.specs.Numbered.{numbered};
ghost use Rattle.std.specs.Prelude.{◌≡◌, length};
ghost use Rattle.model.specs.State.{state};
ghost use Rattle.model.specs.Kind.{base};
ghost use Rattle.model.specs.SeatedCalls.{audit_seated};
ghost use Rattle.tree_seats.specs.Words.{seats_from};

use model::head::Head;
use model::refusal::Refusal;
use tree_seats::rule::is_fair;

// Whether the tree is sound, and its seats fair.
pub fn audit(
    head: Head,
    seats: &[u32],
    leaves: &[u32],
    inners: &[u32],
    homes: &[u32],
) -> Result<bool, Refusal>
    requires { length seats.now ≡ 17 }
    ensures { numbered result ≡ audit_seated base (state head leaves.now inners.now homes.now) (seats_from seats.now) }
{
    let sound = crate::any::audit(3, 1, false, head, leaves, inners, homes)?;
    Ok(sound && is_fair(head.limit, head.entries, seats))
}
