// The call.
ghost use Rattle.model.specs.Numbered.{numbered};
ghost use Rattle.std.specs.Prelude.{◌≡◌};
ghost use Rattle.model.specs.State.{state};
ghost use Rattle.model.specs.Kind.{base};
ghost use Rattle.model.specs.Print.{print};

use model::head::Head;
use model::refusal::Refusal;

// The sheet of a tree, from the start of the lent buffer on; answers the number of pages.
pub fn print(
    head: Head,
    leaves: &[u32],
    inners: &[u32],
    homes: &[u32],
    page: &mut [u8],
) -> Result<u32, Refusal>
    ensures { (numbered result, page.new) ≡ print base (state head leaves.now inners.now homes.now) page.old }
{
    crate::any::print(3, 1, head, leaves, inners, homes, page)
}
