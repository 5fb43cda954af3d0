// The exported calls that make a tree.
ghost use Rattle.std.specs.Prelude.{◌≡◌};
ghost use Rattle.smelvock_marshal.specs.Flat.{lengths_from};
ghost use Rattle.smelvock_marshal.specs.Lent.{given, left};
ghost use Rattle.smelvock.specs.Changes as flat;

use calls_make::seated::{new, reset};
use smelvock_marshal::answered::outcome_of;
use smelvock_marshal::given::{bad_made, lengths_from};
use smelvock_marshal::head::{bad_seats, head_from, put_head, settle};

// Without shares a tree without seats, else one with eight. What the lent head holds is of no account; a refused make leaves zeros in it.
#[unsafe(no_mangle)]
pub extern "C" fn smelvock_new_words(
    fan: u32,
    limit: u32,
    prepare: u32,
    effect: u32,
    lines: u32,
    shares: &[u32],
    head: &mut [u32],
    leaves: &mut [u32],
    inners: &mut [u32],
    homes: &mut [u32],
) -> u32
    ensures { left result head.new leaves.new inners.new homes.new ≡ flat.make fan limit shares.now (lengths_from prepare effect lines) (given head.old leaves.old inners.old homes.old) }
{
    if bad_made(head, shares) {
        return 10;
    }
    let from: usize = 19;
    let to: usize = 36;
    let r = new(
        fan,
        limit,
        shares,
        &mut head[from..to],
        lengths_from(prepare, effect, lines),
        leaves,
        inners,
        homes,
    );
    let after = r.head;
    let answer = r.answer;
    put_head(head, after);
    outcome_of(answer)
}

#[unsafe(no_mangle)]
pub extern "C" fn smelvock_reset_words(
    head: &mut [u32],
    leaves: &mut [u32],
    inners: &mut [u32],
    homes: &mut [u32],
    prepare: u32,
    effect: u32,
    lines: u32,
) -> u32
    ensures { left result head.new leaves.new inners.new homes.new ≡ flat.reset (given head.old leaves.old inners.old homes.old) (lengths_from prepare effect lines) }
{
    if bad_seats(head) {
        return 10;
    }
    let h = head_from(head);
    let from: usize = 19;
    let to: usize = 36;
    let r = reset(
        h,
        &mut head[from..to],
        lengths_from(prepare, effect, lines),
        leaves,
        inners,
        homes,
    );
    let after = r.head;
    let answer = r.answer;
    let a = outcome_of(answer);
    settle(head, a, after);
    a
}
