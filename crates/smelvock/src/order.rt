// The exported calls that follow the order of the entries.
ghost use Rattle.std.specs.Prelude.{◌≡◌};
ghost use Rattle.smelvock_marshal.specs.Flat.{cursor_from};
ghost use Rattle.smelvock_marshal.specs.Lent.{given};
ghost use Rattle.smelvock.specs.Reads as flat;

use calls_read::order::{cmp, first, next};
use smelvock_marshal::answered::{
    number_of_compared, refused_number, refused_standing, standing_of, standing_of_next,
};
use smelvock_marshal::flat::{FlatNumber, FlatStanding};
use smelvock_marshal::given::cursor_from;
use smelvock_marshal::head::{bad_head, head_from};

#[unsafe(no_mangle)]
pub extern "C" fn smelvock_first(
    head: &[u32],
    leaves: &[u32],
    inners: &[u32],
    homes: &[u32],
) -> FlatStanding
    ensures { result ≡ flat.first (given head.now leaves.now inners.now homes.now) }
{
    if bad_head(head) {
        return refused_standing(10);
    }
    let a = first(head_from(head), leaves, inners, homes);
    standing_of(a)
}

#[unsafe(no_mangle)]
pub extern "C" fn smelvock_next_words(
    head: &[u32],
    leaves: &[u32],
    inners: &[u32],
    homes: &[u32],
    leaf: u32,
    slot: u32,
    stamp: u64,
) -> FlatStanding
    ensures { result ≡ flat.next (given head.now leaves.now inners.now homes.now) (cursor_from leaf slot stamp) }
{
    if bad_head(head) {
        return refused_standing(10);
    }
    let a = next(
        head_from(head),
        leaves,
        inners,
        homes,
        cursor_from(leaf, slot, stamp),
    );
    standing_of_next(a)
}

#[unsafe(no_mangle)]
pub extern "C" fn smelvock_cmp_words(
    head: &[u32],
    leaves: &[u32],
    inners: &[u32],
    homes: &[u32],
    leaf: u32,
    slot: u32,
    stamp: u64,
    other_leaf: u32,
    other_slot: u32,
    other_stamp: u64,
) -> FlatNumber
    ensures { result ≡ flat.cmp (given head.now leaves.now inners.now homes.now) (cursor_from leaf slot stamp) (cursor_from other_leaf other_slot other_stamp) }
{
    if bad_head(head) {
        return refused_number(10);
    }
    let c = cmp(
        head_from(head),
        leaves,
        inners,
        homes,
        cursor_from(leaf, slot, stamp),
        cursor_from(other_leaf, other_slot, other_stamp),
    );
    number_of_compared(c)
}
