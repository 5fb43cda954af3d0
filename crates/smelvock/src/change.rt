// The exported calls that change lengths or add an entry. Each is the one caller of its call, which is compiled into it.
ghost use Rattle.std.specs.Prelude.{◌≡◌};
ghost use Rattle.smelvock_marshal.specs.Flat.{cursor_from, lengths_from};
ghost use Rattle.smelvock_marshal.specs.Lent.{given, left};
ghost use Rattle.smelvock.specs.Changes as flat;

use calls_insert::seated::insert;
use calls_size::size::resize;
use calls_split::seated::split_entry;
use smelvock_marshal::answered::{
    divided_of, inserted_of, number_of, refused_divided, refused_inserted, refused_number,
};
use smelvock_marshal::flat::{FlatDivided, FlatInserted, FlatNumber};
use smelvock_marshal::given::{cursor_from, lengths_from, seat_from, target_from};
use smelvock_marshal::head::{
    bad_flag, bad_seated_flag, head_from, is_held, settle_found, settle_grown,
};

// update where summed is 1; where it is 0, set_lengths, with 0 for the position.
#[unsafe(no_mangle)]
pub extern "C" fn smelvock_resize(
    head: &mut [u32],
    leaves: &mut [u32],
    inners: &mut [u32],
    homes: &[u32],
    leaf: u32,
    slot: u32,
    stamp: u64,
    prepare: u32,
    effect: u32,
    lines: u32,
    summed: u32,
) -> FlatNumber
    ensures { left result head.new leaves.new inners.new homes.now ≡ flat.resize (given head.old leaves.old inners.old homes.now) (cursor_from leaf slot stamp) (lengths_from prepare effect lines) summed }
{
    if bad_flag(head, summed) {
        return refused_number(10);
    }
    let at = cursor_from(leaf, slot, stamp);
    let lengths = lengths_from(prepare, effect, lines);
    let r = resize(
        head_from(head),
        leaves,
        inners,
        homes,
        at,
        lengths,
        summed == 1,
    );
    let after = r.head;
    let answer = r.answer;
    let a = number_of(answer);
    let finger = after.finger;
    let held = is_held(finger);
    settle_found(head, a.number, after, held);
    a
}

// For the seat, or for nobody where it is 4,294,967,295.
#[unsafe(no_mangle)]
pub extern "C" fn smelvock_insert_words(
    head: &mut [u32],
    leaves: &mut [u32],
    inners: &mut [u32],
    homes: &mut [u32],
    seat: u32,
    end: u32,
    leaf: u32,
    slot: u32,
    stamp: u64,
    prepare: u32,
    effect: u32,
    lines: u32,
) -> FlatInserted
    ensures { left result head.new leaves.new inners.new homes.new ≡ flat.insert (given head.old leaves.old inners.old homes.old) seat end (cursor_from leaf slot stamp) (lengths_from prepare effect lines) }
{
    if bad_seated_flag(head, end) {
        return refused_inserted(10);
    }
    let before = target_from(end, cursor_from(leaf, slot, stamp));
    let lengths = lengths_from(prepare, effect, lines);
    let h = head_from(head);
    let from: usize = 19;
    let to: usize = 36;
    let r = insert(
        h,
        &mut head[from..to],
        leaves,
        inners,
        homes,
        seat_from(seat),
        before,
        lengths,
    );
    let after = r.head;
    let answer = r.answer;
    let a = inserted_of(answer);
    settle_grown(head, a.number, after);
    a
}

// The same.
#[unsafe(no_mangle)]
pub extern "C" fn smelvock_split_entry_words(
    head: &mut [u32],
    leaves: &mut [u32],
    inners: &mut [u32],
    homes: &mut [u32],
    seat: u32,
    leaf: u32,
    slot: u32,
    stamp: u64,
    prepare: u32,
    effect: u32,
    lines: u32,
    before: u32,
) -> FlatDivided
    ensures { left result head.new leaves.new inners.new homes.new ≡ flat.split_entry (given head.old leaves.old inners.old homes.old) seat (cursor_from leaf slot stamp) (lengths_from prepare effect lines) before }
{
    if bad_seated_flag(head, before) {
        return refused_divided(10);
    }
    let at = cursor_from(leaf, slot, stamp);
    let lengths = lengths_from(prepare, effect, lines);
    let h = head_from(head);
    let from: usize = 19;
    let to: usize = 36;
    let r = split_entry(
        h,
        &mut head[from..to],
        leaves,
        inners,
        homes,
        seat_from(seat),
        at,
        lengths,
        before == 1,
    );
    let after = r.head;
    let answer = r.answer;
    let a = divided_of(answer);
    settle_grown(head, a.number, after);
    a
}
