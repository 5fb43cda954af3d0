// What a host gets back: an answer's number and values. Numbers stand for refusals from here on, as C has no other form.
ghost use Rattle.model.specs.Numbered.{numbered};
ghost use Rattle.std.specs.Prelude.{◌≡◌, [], ◌∷◌};
ghost use Rattle.model.specs.Answer.{outcome_answer, number_answer, verdict_answer, standing_answer, next_answer, named_answer, measured_answer, compared_answer, inserted_answer, divided_answer, cursor_values};
ghost use Rattle.model.specs.Examined.{located_with};
ghost use Rattle.model.specs.Row.{refused, done};
ghost use Rattle.model.specs.ById as by_id;
ghost use Rattle.calls_by_id.specs.Answer.{following_answer};
ghost use Rattle.smelvock_marshal.specs.Flat.{cursor_in, number_of, measured_of, standing_of, located_of, inserted_of, divided_of};

use crate::flat::{
    FlatCursor, FlatDivided, FlatInserted, FlatLocated, FlatMeasured, FlatNumber, FlatStanding,
};
use model::head::Cursor;
use model::length::Lengths;
use model::number::{EntryId, NONE};
use model::refusal::Refusal;
use std::cmp::Ordering;

pub fn outcome_of(a: Result<(), Refusal>) -> u32
    ensures { result ≡ (outcome_answer (numbered a)).number }
{
    match a {
        Ok(()) => 0,
        Err(why) => why.number(),
    }
}

pub fn refused_number(n: u32) -> FlatNumber
    ensures { result ≡ number_of (refused n) }
{
    FlatNumber {
        number: n,
        value: 0,
    }
}

pub fn number_of(a: Result<u32, Refusal>) -> FlatNumber
    ensures { result ≡ number_of (number_answer (numbered a)) }
{
    match a {
        Ok(n) => FlatNumber {
            number: 0,
            value: n,
        },
        Err(why) => refused_number(why.number()),
    }
}

pub fn number_of_verdict(a: Result<bool, Refusal>) -> FlatNumber
    ensures { result ≡ number_of (verdict_answer (numbered a)) }
{
    match a {
        Ok(true) => FlatNumber {
            number: 0,
            value: 1,
        },
        Ok(false) => FlatNumber {
            number: 0,
            value: 0,
        },
        Err(why) => refused_number(why.number()),
    }
}

pub fn number_of_named(a: Result<EntryId, Refusal>) -> FlatNumber
    ensures { result ≡ number_of (named_answer (numbered a)) }
{
    match a {
        Ok(id) => FlatNumber {
            number: 0,
            value: id.0,
        },
        Err(why) => refused_number(why.number()),
    }
}

pub fn number_of_compared(a: Result<Ordering, Refusal>) -> FlatNumber
    ensures { result ≡ number_of (compared_answer (numbered a)) }
{
    match a {
        Ok(Ordering::Less) => FlatNumber {
            number: 0,
            value: 0,
        },
        Ok(Ordering::Equal) => FlatNumber {
            number: 0,
            value: 1,
        },
        Ok(Ordering::Greater) => FlatNumber {
            number: 0,
            value: 2,
        },
        Err(why) => refused_number(why.number()),
    }
}

pub fn refused_measured(n: u32) -> FlatMeasured
    ensures { result ≡ measured_of (refused n) }
{
    FlatMeasured {
        number: n,
        prepare: 0,
        effect: 0,
        lines: 0,
    }
}

pub fn measured_of(a: Result<Lengths, Refusal>) -> FlatMeasured
    ensures { result ≡ measured_of (measured_answer (numbered a)) }
{
    match a {
        Ok(l) => FlatMeasured {
            number: 0,
            prepare: l.prepare,
            effect: l.effect,
            lines: l.lines,
        },
        Err(why) => refused_measured(why.number()),
    }
}

// What stands for a cursor where there is none.
fn nowhere(leaf: u32) -> FlatCursor
    ensures { result ≡ cursor_in 0 (done (leaf ∷ [])) }
{
    FlatCursor {
        leaf,
        slot: 0,
        stamp: 0,
    }
}

fn cursor_of(c: Cursor) -> FlatCursor
    ensures { result ≡ cursor_in 0 (done (cursor_values c)) }
{
    FlatCursor {
        leaf: c.leaf.0,
        slot: c.slot,
        stamp: c.stamp,
    }
}

pub fn refused_standing(n: u32) -> FlatStanding
    ensures { result ≡ standing_of (refused n) }
{
    FlatStanding {
        number: n,
        at: nowhere(0),
    }
}

pub fn standing_of(a: Result<Cursor, Refusal>) -> FlatStanding
    ensures { result ≡ standing_of (standing_answer (numbered a)) }
{
    match a {
        Ok(c) => FlatStanding {
            number: 0,
            at: cursor_of(c),
        },
        Err(why) => refused_standing(why.number()),
    }
}

pub fn standing_of_next(a: Result<Option<Cursor>, Refusal>) -> FlatStanding
    ensures { result ≡ standing_of (next_answer (numbered a)) }
{
    match a {
        Ok(Some(c)) => FlatStanding {
            number: 0,
            at: cursor_of(c),
        },
        Ok(None) => FlatStanding {
            number: 0,
            at: nowhere(NONE),
        },
        Err(why) => refused_standing(why.number()),
    }
}

pub fn refused_located(n: u32) -> FlatLocated
    ensures { result ≡ located_of (refused n) }
{
    FlatLocated {
        number: n,
        at: nowhere(0),
        offset: 0,
        position: 0,
        prepare: 0,
        examined: 0,
    }
}

pub fn located_of(a: Result<(Cursor, u32, u32, u32), Refusal>, examined: u32) -> FlatLocated
    ensures { result ≡ located_of (located_with examined (numbered a)) }
{
    match a {
        Ok((c, offset, effect, prepare)) => FlatLocated {
            number: 0,
            at: cursor_of(c),
            offset,
            position: effect,
            prepare,
            examined,
        },
        Err(why) => refused_located(why.number()),
    }
}

pub fn refused_inserted(n: u32) -> FlatInserted
    ensures { result ≡ inserted_of (refused n) }
{
    FlatInserted {
        number: n,
        id: 0,
        position: 0,
    }
}

pub fn inserted_of(a: Result<(EntryId, u32), Refusal>) -> FlatInserted
    ensures { result ≡ inserted_of (inserted_answer (numbered a)) }
{
    match a {
        Ok((id, position)) => FlatInserted {
            number: 0,
            id: id.0,
            position,
        },
        Err(why) => refused_inserted(why.number()),
    }
}

pub fn refused_divided(n: u32) -> FlatDivided
    ensures { result ≡ divided_of (refused n) }
{
    FlatDivided {
        number: n,
        id: 0,
        first: nowhere(0),
        second: nowhere(0),
    }
}

pub fn divided_of(a: Result<(EntryId, Cursor, Cursor), Refusal>) -> FlatDivided
    ensures { result ≡ divided_of (divided_answer (numbered a)) }
{
    match a {
        Ok((id, b, c)) => FlatDivided {
            number: 0,
            id: id.0,
            first: cursor_of(b),
            second: cursor_of(c),
        },
        Err(why) => refused_divided(why.number()),
    }
}

// The new id without the cursors.
pub fn number_of_divided(a: Result<(EntryId, Cursor, Cursor), Refusal>) -> FlatNumber
    ensures { result ≡ number_of (by_id.divided_id_answer (numbered a)) }
{
    match a {
        Ok((id, _, _)) => FlatNumber {
            number: 0,
            value: id.0,
        },
        Err(why) => refused_number(why.number()),
    }
}

// next by id: the id; after the last entry 4,294,967,295.
pub fn number_of_following(a: Result<Option<EntryId>, Refusal>) -> FlatNumber
    ensures { result ≡ number_of (following_answer (numbered a)) }
{
    match a {
        Ok(Some(id)) => FlatNumber {
            number: 0,
            value: id.0,
        },
        Ok(None) => FlatNumber {
            number: 0,
            value: NONE,
        },
        Err(why) => refused_number(why.number()),
    }
}
