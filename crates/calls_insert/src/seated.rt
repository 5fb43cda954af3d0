// One entry more for a seat, or for nobody: insert, in a tree whose seats stand in seventeen lent words.
ghost use Rattle.model.specs.Numbered.{numbered};
ghost use Rattle.std.specs.Prelude.{◌≡◌, false, ◌||◌, length, get_or};
ghost use Rattle.model.specs.State.{state};
ghost use Rattle.model.specs.Length.{list_of};
ghost use Rattle.model.specs.Kind.{base, too_many_lines};
ghost use Rattle.model.specs.Seats.{bad_seat};
ghost use Rattle.model.specs.SeatedCalls.{seated_reply, after_insert, insert_seated};
ghost use Rattle.tree_seats.specs.Words.{seats_from};

use model::answer::Reply;
use model::head::{Cursor, Head};
use model::length::{Lengths, Slot};
use model::number::EntryId;
use model::refusal::Refusal;
use tree_seats::rule::{bad_seat, room};
use tree_seats::write::charge;

// The entry is charged to the seat, unless the call was refused. The flag stays. A twin of the one in calls_split:
// `after_insert` and `after_split` are two definitions.
fn charge_for(seats: &mut [u32], seat: Option<u32>, answer: Result<(EntryId, u32), Refusal>)
    requires { (length seats.old ≡ 17) × (bad_seat (seats_from seats.old) seat ≡ false) }
    ensures { (seats_from seats.new ≡ after_insert seat (seats_from seats.old) (numbered answer)) × (get_or seats.new 0 0 ≡ get_or seats.old 0 0) }
{
    if answer.is_ok() {
        charge(seats, seat);
    }
}

// What is refused by Field before all else: a bad seat, or too many line ends. `any` tests these too, but behind the seats' rules, where the compiler
// has more to keep at hand (docs/BENCHMARKS.md, "What was done").
fn bad_arguments(seats: &[u32], seat: Option<u32>, lengths: Lengths) -> bool
    requires { length seats.now ≡ 17 }
    ensures { result ≡ (bad_seat (seats_from seats.now) seat || too_many_lines base (list_of lengths)) }
{
    bad_seat(seats, seat) || lengths.overlong()
}

// An entry before a cursor's or at the end: its id and its effect position.
pub fn insert(
    head: Head,
    seats: &mut [u32],
    leaves: &mut [u32],
    inners: &mut [u32],
    homes: &mut [u32],
    seat: Option<u32>,
    before: Option<Cursor>,
    lengths: Lengths,
) -> Reply<(EntryId, u32)>
    requires { length seats.old ≡ 17 }
    ensures { (seated_reply (state result.head leaves.new inners.new homes.new) (seats_from seats.new) (numbered result.answer) ≡ insert_seated base (state head leaves.old inners.old homes.old) (seats_from seats.old) seat before (list_of lengths)) × (get_or seats.new 0 0 ≡ get_or seats.old 0 0) }
{
    if bad_arguments(seats, seat, lengths) {
        return Reply {
            head,
            answer: Err(Refusal::Field),
        };
    }
    let room = room(head.limit, head.entries, seats, seat);
    let slot = Slot::new(head.entries, lengths);
    let x: [u32; 4] = [
        slot.child,
        slot.prepare_len,
        slot.effect_len,
        slot.line_ends,
    ];
    let r = crate::any::insert(3, 1, false, room, head, leaves, inners, homes, before, &x);
    charge_for(seats, seat, r.answer);
    r
}
