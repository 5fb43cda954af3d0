// The exported lookups for a position, which keep the finger found.
ghost use Rattle.std.specs.Prelude.{◌≡◌};
ghost use Rattle.smelvock_marshal.specs.Lent.{given, left};
ghost use Rattle.smelvock_planning.specs.Calls as flat;

use calls_planning::hold::{first_at, last_at};
use smelvock_marshal::answered::{number_of_named, refused_number};
use smelvock_marshal::flat::FlatNumber;
use smelvock_marshal::head::{bad_head, head_from, settle};

#[unsafe(no_mangle)]
pub extern "C" fn smelvock_plan_first_at(
    head: &mut [u32],
    leaves: &[u32],
    inners: &[u32],
    homes: &[u32],
    position: u32,
) -> FlatNumber
    ensures { left result head.new leaves.now inners.now homes.now ≡ flat.first_at (given head.old leaves.now inners.now homes.now) position }
{
    if bad_head(head) {
        return refused_number(10);
    }
    let r = first_at(head_from(head), leaves, inners, homes, position);
    let after = r.head;
    let answer = r.answer;
    let a = number_of_named(answer);
    settle(head, a.number, after);
    a
}

#[unsafe(no_mangle)]
pub extern "C" fn smelvock_plan_last_at(
    head: &mut [u32],
    leaves: &[u32],
    inners: &[u32],
    homes: &[u32],
    position: u32,
) -> FlatNumber
    ensures { left result head.new leaves.now inners.now homes.now ≡ flat.last_at (given head.old leaves.now inners.now homes.now) position }
{
    if bad_head(head) {
        return refused_number(10);
    }
    let r = last_at(head_from(head), leaves, inners, homes, position);
    let after = r.head;
    let answer = r.answer;
    let a = number_of_named(answer);
    settle(head, a.number, after);
    a
}
