// One entry divided in two for a seat, or for nobody: split_entry, in a tree whose seats stand in seventeen lent words.
ghost use Rattle.model.specs.Numbered.{numbered};
ghost use Rattle.std.specs.Prelude.{◌≡◌, false, length, slice_index};
ghost use Rattle.model.specs.State.{state};
ghost use Rattle.model.specs.Length.{list_of};
ghost use Rattle.model.specs.Kind.{base};
ghost use Rattle.model.specs.Seats.{bad_seat};
ghost use Rattle.model.specs.SeatedCalls.{seated_reply, after_split, split_seated};
ghost use Rattle.tree_seats.specs.Words.{seats_from};

use model::answer::Reply;
use model::head::{Cursor, Head};
use model::length::{Lengths, Slot};
use model::number::EntryId;
use model::refusal::Refusal;
use tree_seats::rule::{bad_seat, room};
use tree_seats::write::charge;

// The new entry is charged to the seat, unless the call was refused. The flag stays.
fn charge_for(
    seats: &mut [u32],
    seat: Option<u32>,
    answer: Result<(EntryId, Cursor, Cursor), Refusal>,
)
    requires { (length seats.old ≡ 17) × (bad_seat (seats_from seats.old) seat ≡ false) }
    ensures { (seats_from seats.new ≡ after_split seat (seats_from seats.old) (numbered answer)) × (slice_index seats.new 0 ≡ slice_index seats.old 0) }
{
    if answer.is_ok() {
        charge(seats, seat);
    }
}

// The lengths leave the entry at a cursor for a new one, just before it or just after.
pub fn split_entry(
    head: Head,
    seats: &mut [u32],
    leaves: &mut [u32],
    inners: &mut [u32],
    homes: &mut [u32],
    seat: Option<u32>,
    at: Cursor,
    lengths: Lengths,
    before: bool,
) -> Reply<(EntryId, Cursor, Cursor)>
    requires { length seats.old ≡ 17 }
    ensures { (seated_reply (state result.head leaves.new inners.new homes.new) (seats_from seats.new) (numbered result.answer) ≡ split_seated base (state head leaves.old inners.old homes.old) (seats_from seats.old) seat at (list_of lengths) before) × (slice_index seats.new 0 ≡ slice_index seats.old 0) }
{
    if bad_seat(seats, seat) {
        return Reply {
            head,
            answer: Err(Refusal::Field),
        };
    }
    let room = room(head.limit, head.entries, seats, seat);
    let slot = Slot::new(head.entries, lengths);
    let x: [u32; 4] = [
        slot.child,
        slot.prepare_len,
        slot.effect_len,
        slot.line_ends,
    ];
    let r = crate::any::split_entry(3, false, room, head, leaves, inners, homes, at, &x, before);
    charge_for(seats, seat, r.answer);
    r
}
