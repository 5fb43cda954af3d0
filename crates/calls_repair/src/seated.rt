// The call, of the full tree with its seats' seventeen words.
ghost use Rattle.model.specs.Numbered.{numbered};
ghost use Rattle.std.specs.Prelude.{◌≡◌, length};
ghost use Rattle.model.specs.State.{state};
ghost use Rattle.model.specs.Kind.{base};
ghost use Rattle.model.specs.Calls.{reply};
ghost use Rattle.model.specs.Repair.{repair};
ghost use Rattle.tree_seats.specs.Words.{seats_from};

use model::answer::Reply;
use model::head::Head;
use tree_seats::rule::is_fair;

// Puts the tree right, or refuses it by Unsound.
pub fn repair(
    head: Head,
    seats: &[u32],
    leaves: &mut [u32],
    inners: &mut [u32],
    homes: &mut [u32],
) -> Reply<u32>
    requires { length seats.now ≡ 17 }
    ensures { reply (state result.head leaves.new inners.new homes.new) (numbered result.answer) ≡ repair base (state head leaves.old inners.old homes.old) (seats_from seats.now) }
{
    let fair = is_fair(head.limit, head.entries, seats);
    crate::any::repair(3, 1, false, fair, head, leaves, inners, homes)
}
