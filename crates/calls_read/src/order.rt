// The calls that follow the order of the entries: an entry's position, the first, the next, and which of two stands first.
ghost use Rattle.model.specs.Numbered.{numbered};
ghost use Rattle.std.specs.Prelude.{◌≡◌};
ghost use Rattle.model.specs.State.{state};
ghost use Rattle.model.specs.Length.{view_number};
ghost use Rattle.model.specs.Kind.{base};
ghost use Rattle.model.specs.Calls as calls;

use model::head::{Cursor, Head};
use model::length::View;
use model::refusal::Refusal;
use std::cmp::Ordering;

// The position in a view of the entry at a cursor: the lengths before it.
pub fn entry_to_char_index(
    head: Head,
    leaves: &[u32],
    inners: &[u32],
    homes: &[u32],
    view: View,
    at: Cursor,
) -> Result<u32, Refusal>
    ensures { numbered result ≡ calls.entry_to_char_index base (state head leaves.now inners.now homes.now) (view_number view) at }
{
    crate::any::entry_to_char_index(3, head, leaves, inners, homes, view.number(), at)
}

// The cursor of the first entry.
pub fn first(head: Head, leaves: &[u32], inners: &[u32], homes: &[u32]) -> Result<Cursor, Refusal>
    ensures { numbered result ≡ calls.first base (state head leaves.now inners.now homes.now) }
{
    crate::any::first(3, head, leaves, inners, homes)
}

// The cursor of the entry after the one at a cursor, or nothing after the last.
pub fn next(
    head: Head,
    leaves: &[u32],
    inners: &[u32],
    homes: &[u32],
    at: Cursor,
) -> Result<Option<Cursor>, Refusal>
    ensures { numbered result ≡ calls.next_after base (state head leaves.now inners.now homes.now) at }
{
    crate::any::next(3, head, leaves, inners, homes, at)
}

// How the entry at a stands to the entry at b.
pub fn cmp(
    head: Head,
    leaves: &[u32],
    inners: &[u32],
    homes: &[u32],
    a: Cursor,
    b: Cursor,
) -> Result<Ordering, Refusal>
    ensures { numbered result ≡ calls.cmp base (state head leaves.now inners.now homes.now) a b }
{
    crate::any::cmp(3, head, leaves, inners, homes, a, b)
}
