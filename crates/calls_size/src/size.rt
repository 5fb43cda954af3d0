// Other lengths for an entry: set_lengths and update.
ghost use Rattle.model.specs.Numbered.{numbered};
ghost use Rattle.std.specs.Prelude.{◌≡◌};
ghost use Rattle.model.specs.State.{state};
ghost use Rattle.model.specs.Kind.{base};
ghost use Rattle.model.specs.Length.{list_of};
ghost use Rattle.model.specs.Calls as calls;
ghost use Rattle.model.specs.Calls.{reply};
ghost use Rattle.calls_size.specs.Size.{resize, unnumbered};

use model::answer::Reply;
use model::head::{Cursor, Head};
use model::length::{Lengths, View};
use model::refusal::Refusal;

// Other lengths for the entry at a cursor, and, where it is asked for, its effect position, else 0.
pub fn resize(
    head: Head,
    leaves: &mut [u32],
    inners: &mut [u32],
    homes: &[u32],
    at: Cursor,
    lengths: Lengths,
    summed: bool,
) -> Reply<u32>
    ensures { reply (state result.head leaves.new inners.new homes.now) (numbered result.answer) ≡ resize base summed (state head leaves.old inners.old homes.now) at (list_of lengths) }
{
    let x: [u32; 4] = [
        0,
        lengths.of(View::Prepare),
        lengths.of(View::Effect),
        lengths.of(View::Lines),
    ];
    crate::any::resize(3, 1, false, head, leaves, inners, homes, at, &x, summed)
}

// Other lengths for the entry at a cursor, and its effect position.
pub fn update(
    head: Head,
    leaves: &mut [u32],
    inners: &mut [u32],
    homes: &[u32],
    at: Cursor,
    lengths: Lengths,
) -> Reply<u32>
    ensures { reply (state result.head leaves.new inners.new homes.now) (numbered result.answer) ≡ calls.update base (state head leaves.old inners.old homes.now) at (list_of lengths) }
{
    resize(head, leaves, inners, homes, at, lengths, true)
}

// An answer without its number.
pub fn unnumbered(answer: Result<u32, Refusal>) -> Result<(), Refusal>
    ensures { numbered result ≡ unnumbered (numbered answer) }
{
    answer?;
    Ok(())
}

// The same without the position.
pub fn set_lengths(
    head: Head,
    leaves: &mut [u32],
    inners: &mut [u32],
    homes: &[u32],
    at: Cursor,
    lengths: Lengths,
) -> Reply<()>
    ensures { reply (state result.head leaves.new inners.new homes.now) (numbered result.answer) ≡ calls.set_lengths base (state head leaves.old inners.old homes.now) at (list_of lengths) }
{
    let r = resize(head, leaves, inners, homes, at, lengths, false);
    Reply {
        head: r.head,
        answer: unnumbered(r.answer),
    }
}
