// The exported calls that read a planning tree.
ghost use Rattle.std.specs.Prelude.{◌≡◌};
ghost use Rattle.smelvock_marshal.specs.Lent.{given};
ghost use Rattle.smelvock_planning.specs.Calls as flat;

use crate::answered::{ranged_of, refused_ranged};
use crate::flat::FlatBounds;
use calls_planning::read::{audit, count, earliest, latest, lengths, next};
use model::number::EntryId;
use smelvock_marshal::answered::{
    number_of, number_of_following, number_of_verdict, refused_number,
};
use smelvock_marshal::flat::FlatNumber;
use smelvock_marshal::head::{bad_head, head_from};

#[unsafe(no_mangle)]
pub extern "C" fn smelvock_plan_lengths(
    head: &[u32],
    leaves: &[u32],
    inners: &[u32],
    homes: &[u32],
    id: u32,
) -> FlatBounds
    ensures { result ≡ flat.lengths (given head.now leaves.now inners.now homes.now) id }
{
    if bad_head(head) {
        return refused_ranged(10);
    }
    let a = lengths(head_from(head), leaves, inners, homes, EntryId(id));
    ranged_of(a)
}

#[unsafe(no_mangle)]
pub extern "C" fn smelvock_plan_count(
    head: &[u32],
    leaves: &[u32],
    inners: &[u32],
    homes: &[u32],
) -> FlatNumber
    ensures { result ≡ flat.count (given head.now leaves.now inners.now homes.now) }
{
    if bad_head(head) {
        return refused_number(10);
    }
    let a = count(head_from(head), leaves, inners, homes);
    number_of(a)
}

// The id of the entry after it; 4,294,967,295 after the last.
#[unsafe(no_mangle)]
pub extern "C" fn smelvock_plan_next(
    head: &[u32],
    leaves: &[u32],
    inners: &[u32],
    homes: &[u32],
    id: u32,
) -> FlatNumber
    ensures { result ≡ flat.next (given head.now leaves.now inners.now homes.now) id }
{
    if bad_head(head) {
        return refused_number(10);
    }
    let a = next(head_from(head), leaves, inners, homes, EntryId(id));
    number_of_following(a)
}

#[unsafe(no_mangle)]
pub extern "C" fn smelvock_plan_earliest(
    head: &[u32],
    leaves: &[u32],
    inners: &[u32],
    homes: &[u32],
    id: u32,
) -> FlatNumber
    ensures { result ≡ flat.earliest (given head.now leaves.now inners.now homes.now) id }
{
    if bad_head(head) {
        return refused_number(10);
    }
    let a = earliest(head_from(head), leaves, inners, homes, EntryId(id));
    number_of(a)
}

#[unsafe(no_mangle)]
pub extern "C" fn smelvock_plan_latest(
    head: &[u32],
    leaves: &[u32],
    inners: &[u32],
    homes: &[u32],
    id: u32,
) -> FlatNumber
    ensures { result ≡ flat.latest (given head.now leaves.now inners.now homes.now) id }
{
    if bad_head(head) {
        return refused_number(10);
    }
    let a = latest(head_from(head), leaves, inners, homes, EntryId(id));
    number_of(a)
}

#[unsafe(no_mangle)]
pub extern "C" fn smelvock_plan_audit(
    head: &[u32],
    leaves: &[u32],
    inners: &[u32],
    homes: &[u32],
) -> FlatNumber
    ensures { result ≡ flat.audit (given head.now leaves.now inners.now homes.now) }
{
    if bad_head(head) {
        return refused_number(10);
    }
    let a = audit(head_from(head), leaves, inners, homes);
    number_of_verdict(a)
}
