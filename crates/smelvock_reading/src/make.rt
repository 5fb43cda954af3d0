// The exported calls that begin a reading copy.
ghost use Rattle.std.specs.Prelude.{◌≡◌};
ghost use Rattle.smelvock_marshal.specs.Lent.{given, left};
ghost use Rattle.smelvock_reading.specs.Calls as flat;

use calls_reading::make::{new, reset};
use smelvock_marshal::answered::outcome_of;
use smelvock_marshal::head::{bad_head, head_from, put_unseated, settle};

// What the lent head holds is of no account; a refused make leaves zeros in it.
#[unsafe(no_mangle)]
pub extern "C" fn smelvock_read_new(
    fan: u32,
    limit: u32,
    length: u32,
    head: &mut [u32],
    leaves: &mut [u32],
    inners: &mut [u32],
    homes: &mut [u32],
) -> u32
    ensures { left result head.new leaves.new inners.new homes.new ≡ flat.make fan limit length (given head.old leaves.old inners.old homes.old) }
{
    if head.len() != 36 {
        return 10;
    }
    let r = new(fan, limit, length, leaves, inners, homes);
    let after = r.head;
    let answer = r.answer;
    put_unseated(head, after);
    outcome_of(answer)
}

#[unsafe(no_mangle)]
pub extern "C" fn smelvock_read_reset(
    head: &mut [u32],
    leaves: &mut [u32],
    inners: &mut [u32],
    homes: &mut [u32],
    length: u32,
) -> u32
    ensures { left result head.new leaves.new inners.new homes.new ≡ flat.reset (given head.old leaves.old inners.old homes.old) length }
{
    if bad_head(head) {
        return 10;
    }
    let r = reset(head_from(head), leaves, inners, homes, length);
    let after = r.head;
    let answer = r.answer;
    let a = outcome_of(answer);
    settle(head, a, after);
    a
}
