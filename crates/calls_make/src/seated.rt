// The calls that begin a tree whose seats stand in seventeen lent words.
ghost use Rattle.model.specs.Numbered.{numbered, number_of};
ghost use Rattle.std.specs.Prelude.{◌≡◌, ◌≤◌, length, ◌≢◌, slice_index};
ghost use Rattle.model.specs.State.{state};
ghost use Rattle.model.specs.Lists.{refusal};
ghost use Rattle.model.specs.Length.{list_of};
ghost use Rattle.model.specs.Kind.{base};
ghost use Rattle.model.specs.Seats.{no_seats};
ghost use Rattle.model.specs.SeatedCalls.{seated_reply, after_reset, reset_seated};
ghost use Rattle.tree_seats.specs.Words.{seats_from};
ghost use Rattle.calls_make.specs.Made.{shares_causes, seats_given, seats_made, make_with};

use model::answer::Reply;
use model::head::Head;
use model::length::{Lengths, Slot};
use model::refusal::Refusal;
use tree_seats::rule::within;
use tree_seats::write::{begin, clear};

// Whether shares, where there are some, sum to less than the limit.
fn fit(limit: u32, shares: &[u32]) -> Result<(), Refusal>
    requires { (length shares.now ≢ 0) → length shares.now ≡ 8 }
    ensures { refusal (shares_causes limit shares.now) ≡ number_of result }
{
    if shares.is_empty() {
        return Ok(());
    }
    within(limit, shares)
}

// No seats.
fn put_none(seats: &mut [u32])
    requires { length seats.old ≡ 17 }
    ensures { (seats_from seats.new ≡ no_seats) × (slice_index seats.new 0 ≤ 1) }
{
    begin(seats, 0, &[0; 8]);
}

// The seats of a new tree with these shares, or none where there are none.
fn put_seats(seats: &mut [u32], shares: &[u32])
    requires { (length seats.old ≡ 17) × ((length shares.now ≢ 0) → length shares.now ≡ 8) }
    ensures { (seats_from seats.new ≡ seats_given shares.now) × (slice_index seats.new 0 ≤ 1) }
{
    if shares.is_empty() {
        return put_none(seats);
    }
    begin(seats, 1, shares);
}

// The same of a tree that was made, and none where that was refused.
fn put_made(seats: &mut [u32], shares: &[u32], answer: Result<(), Refusal>)
    requires { (length seats.old ≡ 17) × ((length shares.now ≢ 0) → length shares.now ≡ 8) }
    ensures { (seats_from seats.new ≡ seats_made (seats_given shares.now) (numbered answer)) × (slice_index seats.new 0 ≤ 1) }
{
    match answer {
        Ok(()) => put_seats(seats, shares),
        Err(_) => put_none(seats),
    }
}

// A new tree with the entry 0: with the shares given, or without seats where there are none.
pub fn new(
    fan: u32,
    limit: u32,
    shares: &[u32],
    seats: &mut [u32],
    lengths: Lengths,
    leaves: &mut [u32],
    inners: &mut [u32],
    homes: &mut [u32],
) -> Reply<()>
    requires { (length seats.old ≡ 17) × ((length shares.now ≢ 0) → length shares.now ≡ 8) }
    ensures { (seated_reply (state result.head leaves.new inners.new homes.new) (seats_from seats.new) (numbered result.answer) ≡ make_with base fan limit shares.now (list_of lengths) leaves.old inners.old homes.old) × (slice_index seats.new 0 ≤ 1) }
{
    let shared = fit(limit, shares);
    let slot = Slot::new(0, lengths);
    let x: [u32; 4] = [
        slot.child,
        slot.prepare_len,
        slot.effect_len,
        slot.line_ends,
    ];
    let r = crate::any::new(3, false, shared, fan, limit, &x, leaves, inners, homes);
    put_made(seats, shares, r.answer);
    r
}

// A tree begun anew has no charges.
fn clear_for(seats: &mut [u32], answer: Result<(), Refusal>)
    requires { length seats.old ≡ 17 }
    ensures { (seats_from seats.new ≡ after_reset (seats_from seats.old) (numbered answer)) × (slice_index seats.new 0 ≡ slice_index seats.old 0) }
{
    match answer {
        Ok(()) => clear(seats),
        Err(_) => {}
    }
}

// The tree begun anew, with its own fan, limit and shares.
pub fn reset(
    head: Head,
    seats: &mut [u32],
    lengths: Lengths,
    leaves: &mut [u32],
    inners: &mut [u32],
    homes: &mut [u32],
) -> Reply<()>
    requires { length seats.old ≡ 17 }
    ensures { (seated_reply (state result.head leaves.new inners.new homes.new) (seats_from seats.new) (numbered result.answer) ≡ reset_seated base (state head leaves.old inners.old homes.old) (seats_from seats.old) (list_of lengths)) × (slice_index seats.new 0 ≡ slice_index seats.old 0) }
{
    let slot = Slot::new(0, lengths);
    let x: [u32; 4] = [
        slot.child,
        slot.prepare_len,
        slot.effect_len,
        slot.line_ends,
    ];
    let r = crate::any::reset(3, false, head, &x, leaves, inners, homes);
    clear_for(seats, r.answer);
    r
}
