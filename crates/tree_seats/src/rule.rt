// The rules of seats: which seat may be named, whether one entry more has space, and what make and audit ask.
ghost use Rattle.model.specs.Numbered.{number_of};
ghost use Rattle.std.specs.Prelude.{◌≡◌, ◌<◌, ◌≤◌, false, [], ◌∷◌, length, nat_le};
ghost use Rattle.model.specs.Lists.{refusal, cause};
ghost use Rattle.model.specs.State.{State};
ghost use Rattle.model.specs.Seats.{bad_seat, over, too_high, is_fair};
ghost use Rattle.model.specs.SeatedCalls.{space};
ghost use Rattle.tree_seats.specs.Words.{seats_from};

use crate::sum::{left, sum, unused, wide};
use model::refusal::Refusal;

// A seat above 7, a seat in a tree without seats, or none in a seated one.
pub fn bad_seat(seats: &[u32], seat: Option<u32>) -> bool
    requires { length seats.now ≡ 17 }
    ensures { result ≡ bad_seat (seats_from seats.now) seat }
{
    match seat {
        None => seats[0] != 0,
        Some(i) => seats[0] == 0 || 7 < i,
    }
}

// Whether a tree without seats holds less than its limit.
pub fn without(limit: u32, entries: u32) -> Result<(), Refusal>
    ensures { (number_of result ≡ refusal (cause 8 (nat_le limit entries) ∷ [])) × (number_of result ≡ 0 → entries < limit) }
{
    if limit <= entries {
        return Err(Refusal::Full);
    }
    Ok(())
}

// Whether the seat is at or over its share, and the free entries don't outnumber the unused shares of the others; it has none itself then.
fn is_over(limit: u32, entries: u32, seats: &[u32], i: usize) -> bool
    requires { (length seats.now ≡ 17) × (i < 8) }
    ensures { result ≡ (over limit entries (seats_from seats.now) i).applies }
{
    seats[1 + i] <= seats[9 + i] && left(limit, entries) <= unused(seats)
}

// Whether the rules give the seat one entry more. A tree that is full though the seat is below its share has a broken count.
fn with(limit: u32, entries: u32, seats: &[u32], i: usize) -> Result<(), Refusal>
    requires { (length seats.now ≡ 17) × (i < 8) }
    ensures { (number_of result ≡ refusal (over limit entries (seats_from seats.now) i ∷ cause 9 (nat_le limit entries) ∷ [])) × (number_of result ≡ 0 → entries < limit) }
{
    if is_over(limit, entries, seats, i) {
        return Err(Refusal::Over);
    }
    if limit <= entries {
        return Err(Refusal::Link);
    }
    Ok(())
}

// Whether there is space for one entry more.
pub fn room(limit: u32, entries: u32, seats: &[u32], seat: Option<u32>) -> Result<(), Refusal>
    requires { (length seats.now ≡ 17) × (bad_seat (seats_from seats.now) seat ≡ false) }
    ensures { ((s : State) → s.head.limit ≡ limit → s.head.entries ≡ entries → number_of result ≡ refusal (space s (seats_from seats.now) seat)) × (number_of result ≡ 0 → entries < limit) }
{
    match seat {
        None => without(limit, entries),
        Some(i) => with(limit, entries, seats, i as usize),
    }
}

// Whether the shares sum to less than the limit.
pub fn within(limit: u32, shares: &[u32]) -> Result<(), Refusal>
    requires { length shares.now ≡ 8 }
    ensures { number_of result ≡ refusal (too_high limit shares.now ∷ []) }
{
    if wide(limit) <= sum(shares, 0) {
        return Err(Refusal::Shares);
    }
    Ok(())
}

// What audit also asks of a seated tree.
pub fn is_fair(limit: u32, entries: u32, seats: &[u32]) -> bool
    requires { length seats.now ≡ 17 }
    ensures { result ≡ is_fair limit entries (seats_from seats.now) }
{
    seats[0] == 0
        || sum(seats, 1) < wide(limit)
            && sum(seats, 9) + 1 == wide(entries)
            && unused(seats) <= left(limit, entries)
}
