// What a host hands over beside head and areas, as the calls take it.
ghost use Rattle.std.specs.Prelude.{◌≡◌, not, ◌||◌, eqb, length};
ghost use Rattle.smelvock_marshal.specs.Flat.{cursor_from, lengths_from, view_from, target_from, seat_from, bad_shares};

use model::head::Cursor;
use model::length::{Lengths, View};
use model::number::{LeafNo, NONE};

pub fn cursor_from(leaf: u32, slot: u32, stamp: u64) -> Cursor
    ensures { result ≡ cursor_from leaf slot stamp }
{
    Cursor {
        leaf: LeafNo(leaf),
        slot,
        stamp,
    }
}

pub fn lengths_from(prepare: u32, effect: u32, lines: u32) -> Lengths
    ensures { result ≡ lengths_from prepare effect lines }
{
    Lengths {
        prepare,
        effect,
        lines,
    }
}

pub fn view_from(view: u32) -> View
    ensures { result ≡ view_from view }
{
    if view == 0 {
        return View::Prepare;
    }
    if view == 1 {
        return View::Effect;
    }
    View::Lines
}

// Before a cursor, or at the end where end is 1.
pub fn target_from(end: u32, before: Cursor) -> Option<Cursor>
    ensures { result ≡ target_from end before }
{
    if end == 0 {
        return Some(before);
    }
    None
}

// A seat, or nobody where none is given.
pub fn seat_from(seat: u32) -> Option<u32>
    ensures { result ≡ seat_from seat }
{
    if seat == NONE {
        return None;
    }
    Some(seat)
}

// Whether a new tree's shares are neither none nor eight.
fn bad_shares(shares: &[u32]) -> bool
    ensures { result ≡ bad_shares shares.now }
{
    !shares.is_empty() && shares.len() != 8
}

// The same, or whether its head isn't thirty-six words, whatever they are.
pub fn bad_made(head: &[u32], shares: &[u32]) -> bool
    ensures { result ≡ (not (eqb (length head.now) 36) || bad_shares shares.now) }
{
    head.len() != 36 || bad_shares(shares)
}
