// The exported repair.
ghost use Rattle.std.specs.Prelude.{◌≡◌};
ghost use Rattle.smelvock_marshal.specs.Lent.{given, left};
ghost use Rattle.smelvock.specs.Changes as flat;

use calls_repair::seated::repair;
use smelvock_marshal::answered::{number_of, refused_number};
use smelvock_marshal::flat::FlatNumber;
use smelvock_marshal::head::{bad_stored, head_from, settle_finger};

// Puts a stored tree right, or answers 21; some 384 KiB of stack.
#[unsafe(no_mangle)]
pub extern "C" fn smelvock_repair(
    head: &mut [u32],
    leaves: &mut [u32],
    inners: &mut [u32],
    homes: &mut [u32],
) -> FlatNumber
    ensures { left result head.new leaves.new inners.new homes.new ≡ flat.repair (given head.old leaves.old inners.old homes.old) }
{
    if bad_stored(head) {
        return refused_number(10);
    }
    let from: usize = 19;
    let to: usize = 36;
    let r = repair(head_from(head), &head[from..to], leaves, inners, homes);
    let after = r.head;
    let answer = r.answer;
    let a = number_of(answer);
    settle_finger(head, a.number, after);
    a
}
