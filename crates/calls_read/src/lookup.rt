// The lookups. The head comes back with the finger that was found.
ghost use Rattle.model.specs.Numbered.{numbered};
ghost use Rattle.std.specs.Prelude.{◌≡◌, true};
ghost use Rattle.model.specs.State.{state};
ghost use Rattle.model.specs.Length.{view_number};
ghost use Rattle.model.specs.Kind.{base};
ghost use Rattle.model.specs.Calls.{reply};
ghost use Rattle.model.specs.Examined as count;
ghost use Rattle.model.specs.Examined.{counted};
ghost use Rattle.calls_read.specs.Lookup.{Stayed};

use model::answer::{LocatedReply, SelectedReply};
use model::head::Head;
use model::length::View;

// The entry that holds a position in a view, the offset into it, and its effect and prepare positions; and how many slots were examined.
pub fn locate(
    head: Head,
    leaves: &[u32],
    inners: &[u32],
    homes: &[u32],
    view: View,
    index: u32,
) -> LocatedReply
    ensures { (reply (state result.head leaves.now inners.now homes.now) (counted (numbered result.answer) result.examined) ≡ count.locate base (state head leaves.now inners.now homes.now) (view_number view) index) × (result.stayed ≡ true → Stayed head.finger result.head.finger) }
{
    crate::any_lookup::locate(3, 1, head, leaves, inners, homes, view.number(), index)
}

// The same without the two positions. By arms: of a `map` no edit of the refusal is refused for its value.
pub fn char_index_to_entry(
    head: Head,
    leaves: &[u32],
    inners: &[u32],
    homes: &[u32],
    view: View,
    index: u32,
) -> SelectedReply
    ensures { reply (state result.head leaves.now inners.now homes.now) (counted (numbered result.answer) result.examined) ≡ count.char_index_to_entry base (state head leaves.now inners.now homes.now) (view_number view) index }
{
    let r = locate(head, leaves, inners, homes, view, index);
    let examined = r.examined;
    match r.answer {
        Ok((at, offset, _, _)) => SelectedReply {
            head: r.head,
            answer: Ok((at, offset)),
            examined,
        },
        Err(why) => SelectedReply {
            head: r.head,
            answer: Err(why),
            examined,
        },
    }
}
