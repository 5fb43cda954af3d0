// One entry more: insert.
ghost use Rattle.model.specs.Numbered.{numbered};
ghost use Rattle.std.specs.Prelude.{◌≡◌};
ghost use Rattle.model.specs.State.{state};
ghost use Rattle.model.specs.Length.{list_of};
ghost use Rattle.model.specs.Kind.{base};
ghost use Rattle.model.specs.Calls as calls;
ghost use Rattle.model.specs.Calls.{reply};

use model::answer::Reply;
use model::head::{Cursor, Head};
use model::length::{Lengths, Slot};
use model::number::EntryId;
use tree_seats::rule::without;

// An entry before a cursor's or at the end: its id and its effect position.
pub fn insert(
    head: Head,
    leaves: &mut [u32],
    inners: &mut [u32],
    homes: &mut [u32],
    before: Option<Cursor>,
    lengths: Lengths,
) -> Reply<(EntryId, u32)>
    ensures { reply (state result.head leaves.new inners.new homes.new) (numbered result.answer) ≡ calls.insert base (state head leaves.old inners.old homes.old) before (list_of lengths) }
{
    let slot = Slot::new(head.entries, lengths);
    let x: [u32; 4] = [
        slot.child,
        slot.prepare_len,
        slot.effect_len,
        slot.line_ends,
    ];
    let room = without(head.limit, head.entries);
    crate::any::insert(3, 1, false, room, head, leaves, inners, homes, before, &x)
}
