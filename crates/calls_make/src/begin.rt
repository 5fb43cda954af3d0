// The calls that begin a tree: one leaf with the entry 0, and one inner node above it.
ghost use Rattle.model.specs.Numbered.{numbered};
ghost use Rattle.std.specs.Prelude.{◌≡◌};
ghost use Rattle.model.specs.State.{state};
ghost use Rattle.model.specs.Length.{list_of};
ghost use Rattle.model.specs.Kind.{base};
ghost use Rattle.model.specs.Calls as calls;
ghost use Rattle.model.specs.Calls.{reply};

use model::answer::Reply;
use model::head::Head;
use model::length::{Lengths, Slot};

// A new tree with the entry 0; a refused one is a head of zeros without finger.
pub fn new(
    fan: u32,
    limit: u32,
    lengths: Lengths,
    leaves: &mut [u32],
    inners: &mut [u32],
    homes: &mut [u32],
) -> Reply<()>
    ensures { reply (state result.head leaves.new inners.new homes.new) (numbered result.answer) ≡ calls.make base fan limit (list_of lengths) leaves.old inners.old homes.old }
{
    let slot = Slot::new(0, lengths);
    let x: [u32; 4] = [
        slot.child,
        slot.prepare_len,
        slot.effect_len,
        slot.line_ends,
    ];
    crate::any::new(3, false, Ok(()), fan, limit, &x, leaves, inners, homes)
}

// The tree begun anew, with its own fan and limit.
pub fn reset(
    head: Head,
    lengths: Lengths,
    leaves: &mut [u32],
    inners: &mut [u32],
    homes: &mut [u32],
) -> Reply<()>
    ensures { reply (state result.head leaves.new inners.new homes.new) (numbered result.answer) ≡ calls.reset base (state head leaves.old inners.old homes.old) (list_of lengths) }
{
    let slot = Slot::new(0, lengths);
    let x: [u32; 4] = [
        slot.child,
        slot.prepare_len,
        slot.effect_len,
        slot.line_ends,
    ];
    crate::any::reset(3, false, head, &x, leaves, inners, homes)
}
