// The exported calls that read a count or one entry.
ghost use Rattle.std.specs.Prelude.{◌≡◌};
ghost use Rattle.smelvock_marshal.specs.Flat.{cursor_from};
ghost use Rattle.smelvock_marshal.specs.Lent.{given};
ghost use Rattle.smelvock.specs.Reads as flat;

use calls_read::order::entry_to_char_index;
use calls_read::read::{cursor, id, is_empty, len, lengths};
use model::number::EntryId;
use smelvock_marshal::answered::{
    measured_of, number_of, number_of_named, number_of_verdict, refused_measured, refused_number,
    refused_standing, standing_of,
};
use smelvock_marshal::flat::{FlatMeasured, FlatNumber, FlatStanding};
use smelvock_marshal::given::{cursor_from, view_from};
use smelvock_marshal::head::{bad_head, bad_view, head_from};

#[unsafe(no_mangle)]
pub extern "C" fn smelvock_len(head: &[u32]) -> FlatNumber
    ensures { result ≡ flat.len head.now }
{
    if bad_head(head) {
        return refused_number(10);
    }
    let a = len(head_from(head));
    number_of(a)
}

#[unsafe(no_mangle)]
pub extern "C" fn smelvock_is_empty(head: &[u32]) -> FlatNumber
    ensures { result ≡ flat.is_empty head.now }
{
    if bad_head(head) {
        return refused_number(10);
    }
    let a = is_empty(head_from(head));
    number_of_verdict(a)
}

#[unsafe(no_mangle)]
pub extern "C" fn smelvock_id_words(
    head: &[u32],
    leaves: &[u32],
    inners: &[u32],
    homes: &[u32],
    leaf: u32,
    slot: u32,
    stamp: u64,
) -> FlatNumber
    ensures { result ≡ flat.id (given head.now leaves.now inners.now homes.now) (cursor_from leaf slot stamp) }
{
    if bad_head(head) {
        return refused_number(10);
    }
    let a = id(
        head_from(head),
        leaves,
        inners,
        homes,
        cursor_from(leaf, slot, stamp),
    );
    number_of_named(a)
}

#[unsafe(no_mangle)]
pub extern "C" fn smelvock_lengths_words(
    head: &[u32],
    leaves: &[u32],
    inners: &[u32],
    homes: &[u32],
    leaf: u32,
    slot: u32,
    stamp: u64,
) -> FlatMeasured
    ensures { result ≡ flat.lengths (given head.now leaves.now inners.now homes.now) (cursor_from leaf slot stamp) }
{
    if bad_head(head) {
        return refused_measured(10);
    }
    let a = lengths(
        head_from(head),
        leaves,
        inners,
        homes,
        cursor_from(leaf, slot, stamp),
    );
    measured_of(a)
}

#[unsafe(no_mangle)]
pub extern "C" fn smelvock_cursor(
    head: &[u32],
    leaves: &[u32],
    inners: &[u32],
    homes: &[u32],
    id: u32,
) -> FlatStanding
    ensures { result ≡ flat.cursor (given head.now leaves.now inners.now homes.now) id }
{
    if bad_head(head) {
        return refused_standing(10);
    }
    let a = cursor(head_from(head), leaves, inners, homes, EntryId(id));
    standing_of(a)
}

#[unsafe(no_mangle)]
pub extern "C" fn smelvock_entry_to_char_index_words(
    head: &[u32],
    leaves: &[u32],
    inners: &[u32],
    homes: &[u32],
    view: u32,
    leaf: u32,
    slot: u32,
    stamp: u64,
) -> FlatNumber
    ensures { result ≡ flat.entry_to_char_index (given head.now leaves.now inners.now homes.now) view (cursor_from leaf slot stamp) }
{
    if bad_view(head, view) {
        return refused_number(10);
    }
    let a = entry_to_char_index(
        head_from(head),
        leaves,
        inners,
        homes,
        view_from(view),
        cursor_from(leaf, slot, stamp),
    );
    number_of(a)
}
