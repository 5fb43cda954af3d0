// The exported calls that begin a planning tree.
ghost use Rattle.std.specs.Prelude.{◌≡◌};
ghost use Rattle.smelvock_marshal.specs.Lent.{given, left};
ghost use Rattle.smelvock_planning.specs.Calls as flat;

use calls_planning::bounds::Bounds;
use calls_planning::make::{new, reset};
use smelvock_marshal::answered::outcome_of;
use smelvock_marshal::head::{bad_head, head_from, put_unseated, settle};

// What the lent head holds is of no account; a refused make leaves zeros in it.
#[unsafe(no_mangle)]
pub extern "C" fn smelvock_plan_new(
    fan: u32,
    limit: u32,
    lowest: u32,
    highest: u32,
    head: &mut [u32],
    leaves: &mut [u32],
    inners: &mut [u32],
    homes: &mut [u32],
) -> u32
    ensures { left result head.new leaves.new inners.new homes.new ≡ flat.make fan limit lowest highest (given head.old leaves.old inners.old homes.old) }
{
    if head.len() != 36 {
        return 10;
    }
    let bounds = Bounds {
        lowest: lowest,
        highest: highest,
    };
    let r = new(fan, limit, bounds, leaves, inners, homes);
    let after = r.head;
    let answer = r.answer;
    put_unseated(head, after);
    outcome_of(answer)
}

#[unsafe(no_mangle)]
pub extern "C" fn smelvock_plan_reset(
    head: &mut [u32],
    leaves: &mut [u32],
    inners: &mut [u32],
    homes: &mut [u32],
    lowest: u32,
    highest: u32,
) -> u32
    ensures { left result head.new leaves.new inners.new homes.new ≡ flat.reset (given head.old leaves.old inners.old homes.old) lowest highest }
{
    if bad_head(head) {
        return 10;
    }
    let bounds = Bounds {
        lowest: lowest,
        highest: highest,
    };
    let r = reset(head_from(head), leaves, inners, homes, bounds);
    let after = r.head;
    let answer = r.answer;
    let a = outcome_of(answer);
    settle(head, a, after);
    a
}
