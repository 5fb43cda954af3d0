// The exported calls that read a reading copy; the lookup keeps the finger found.
ghost use Rattle.std.specs.Prelude.{◌≡◌};
ghost use Rattle.smelvock_marshal.specs.Lent.{given, left};
ghost use Rattle.smelvock_reading.specs.Calls as flat;

use crate::answered::{looked_of, refused_looked};
use crate::flat::FlatLooked;
use calls_reading::read::{compare, lookup, next, rank};
use model::number::EntryId;
use smelvock_marshal::answered::{
    number_of, number_of_compared, number_of_following, refused_number,
};
use smelvock_marshal::flat::FlatNumber;
use smelvock_marshal::head::{bad_head, head_from, settle};

#[unsafe(no_mangle)]
pub extern "C" fn smelvock_read_lookup(
    head: &mut [u32],
    leaves: &[u32],
    inners: &[u32],
    homes: &[u32],
    index: u32,
) -> FlatLooked
    ensures { left result head.new leaves.now inners.now homes.now ≡ flat.lookup (given head.old leaves.now inners.now homes.now) index }
{
    if bad_head(head) {
        return refused_looked(10);
    }
    let r = lookup(head_from(head), leaves, inners, homes, index);
    let after = r.head;
    let answer = r.answer;
    let a = looked_of(answer);
    settle(head, a.number, after);
    a
}

#[unsafe(no_mangle)]
pub extern "C" fn smelvock_read_rank(
    head: &[u32],
    leaves: &[u32],
    inners: &[u32],
    homes: &[u32],
    id: u32,
) -> FlatNumber
    ensures { result ≡ flat.rank (given head.now leaves.now inners.now homes.now) id }
{
    if bad_head(head) {
        return refused_number(10);
    }
    let a = rank(head_from(head), leaves, inners, homes, EntryId(id));
    number_of(a)
}

// The id of the entry after it; 4,294,967,295 after the last.
#[unsafe(no_mangle)]
pub extern "C" fn smelvock_read_next(
    head: &[u32],
    leaves: &[u32],
    inners: &[u32],
    homes: &[u32],
    id: u32,
) -> FlatNumber
    ensures { result ≡ flat.next (given head.now leaves.now inners.now homes.now) id }
{
    if bad_head(head) {
        return refused_number(10);
    }
    let a = next(head_from(head), leaves, inners, homes, EntryId(id));
    number_of_following(a)
}

// 0, 1, 2: the entry id stands before the entry other, is it, or stands after it.
#[unsafe(no_mangle)]
pub extern "C" fn smelvock_read_compare(
    head: &[u32],
    leaves: &[u32],
    inners: &[u32],
    homes: &[u32],
    id: u32,
    other: u32,
) -> FlatNumber
    ensures { result ≡ flat.compare (given head.now leaves.now inners.now homes.now) id other }
{
    if bad_head(head) {
        return refused_number(10);
    }
    let a = compare(
        head_from(head),
        leaves,
        inners,
        homes,
        EntryId(id),
        EntryId(other),
    );
    number_of_compared(a)
}
