// One entry divided in two: split_entry.
ghost use Rattle.model.specs.Numbered.{numbered};
ghost use Rattle.std.specs.Prelude.{◌≡◌};
ghost use Rattle.model.specs.State.{state};
ghost use Rattle.model.specs.Length.{list_of};
ghost use Rattle.model.specs.Kind.{base};
ghost use Rattle.model.specs.Calls as calls;
ghost use Rattle.model.specs.Calls.{reply};

use model::answer::Reply;
use model::head::{Cursor, Head};
use model::length::{Lengths, Slot};
use model::number::EntryId;
use tree_seats::rule::without;

// The lengths leave the entry at a cursor for a new one, just before it or just after.
pub fn split_entry(
    head: Head,
    leaves: &mut [u32],
    inners: &mut [u32],
    homes: &mut [u32],
    at: Cursor,
    lengths: Lengths,
    before: bool,
) -> Reply<(EntryId, Cursor, Cursor)>
    ensures { reply (state result.head leaves.new inners.new homes.new) (numbered result.answer) ≡ calls.split_entry base (state head leaves.old inners.old homes.old) at (list_of lengths) before }
{
    let slot = Slot::new(head.entries, lengths);
    let x: [u32; 4] = [
        slot.child,
        slot.prepare_len,
        slot.effect_len,
        slot.line_ends,
    ];
    let room = without(head.limit, head.entries);
    crate::any::split_entry(3, false, room, head, leaves, inners, homes, at, &x, before)
}
