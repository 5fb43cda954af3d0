// Each call's answer as the number and three values of an answer record.
ghost use Rattle.model.specs.Numbered.{numbered};
ghost use Rattle.std.specs.Prelude.{◌≡◌, [], ◌∷◌};
ghost use Rattle.model.specs.Row.{done, refused};
ghost use Rattle.model.specs.Answer.{outcome_answer, number_answer, named_answer, measured_answer, compared_answer, inserted_answer};
ghost use Rattle.model.specs.ById.{divided_id_answer};
ghost use Rattle.calls_by_id.specs.Answer.{looked_answer, following_answer};
ghost use Rattle.list_row.specs.Answer.{step_of};

use list_records::answer::Answer;
use model::answer::Reply;
use model::head::{Cursor, Head};
use model::length::Lengths;
use model::number::{EntryId, NONE};
use model::refusal::Refusal;
use std::cmp::Ordering;

// The head after a record, and its answer.
#[derive(Clone, Copy)]
pub struct Step {
    pub head: Head,
    pub answer: Answer,
}

fn done(head: Head, x: u32, y: u32, z: u32) -> Step
    ensures { result ≡ step_of head (done (x ∷ y ∷ z ∷ [])) }
{
    Step {
        head: head,
        answer: Answer {
            number: 0,
            x: x,
            y: y,
            z: z,
        },
    }
}

// By the paper's number: an answer record is words.
pub fn refuse(head: Head, number: u32) -> Step
    ensures { result ≡ step_of head (refused number) }
{
    Step {
        head: head,
        answer: Answer {
            number: number,
            x: 0,
            y: 0,
            z: 0,
        },
    }
}

pub fn outcome(reply: Reply<()>) -> Step
    ensures { result ≡ step_of reply.head (outcome_answer (numbered reply.answer)) }
{
    let head = reply.head;
    let answer = reply.answer;
    match answer {
        Ok(()) => done(head, 0, 0, 0),
        Err(why) => refuse(head, why.number()),
    }
}

pub fn number(head: Head, answer: Result<u32, Refusal>) -> Step
    ensures { result ≡ step_of head (number_answer (numbered answer)) }
{
    match answer {
        Ok(n) => done(head, n, 0, 0),
        Err(why) => refuse(head, why.number()),
    }
}

pub fn named(head: Head, answer: Result<EntryId, Refusal>) -> Step
    ensures { result ≡ step_of head (named_answer (numbered answer)) }
{
    match answer {
        Ok(i) => done(head, i.0, 0, 0),
        Err(why) => refuse(head, why.number()),
    }
}

pub fn measured(head: Head, answer: Result<Lengths, Refusal>) -> Step
    ensures { result ≡ step_of head (measured_answer (numbered answer)) }
{
    match answer {
        Ok(l) => done(head, l.prepare, l.effect, l.lines),
        Err(why) => refuse(head, why.number()),
    }
}

pub fn compared(head: Head, answer: Result<Ordering, Refusal>) -> Step
    ensures { result ≡ step_of head (compared_answer (numbered answer)) }
{
    match answer {
        Ok(Ordering::Less) => done(head, 0, 0, 0),
        Ok(Ordering::Equal) => done(head, 1, 0, 0),
        Ok(Ordering::Greater) => done(head, 2, 0, 0),
        Err(why) => refuse(head, why.number()),
    }
}

pub fn inserted(reply: Reply<(EntryId, u32)>) -> Step
    ensures { result ≡ step_of reply.head (inserted_answer (numbered reply.answer)) }
{
    let head = reply.head;
    let answer = reply.answer;
    match answer {
        Ok((i, position)) => done(head, i.0, position, 0),
        Err(why) => refuse(head, why.number()),
    }
}

pub fn divided(reply: Reply<(EntryId, Cursor, Cursor)>) -> Step
    ensures { result ≡ step_of reply.head (divided_id_answer (numbered reply.answer)) }
{
    let head = reply.head;
    let answer = reply.answer;
    match answer {
        Ok((i, a, b)) => done(head, i.0, 0, 0),
        Err(why) => refuse(head, why.number()),
    }
}

pub fn looked(reply: Reply<(EntryId, u32, u32, u32)>) -> Step
    ensures { result ≡ step_of reply.head (looked_answer (numbered reply.answer)) }
{
    let head = reply.head;
    let answer = reply.answer;
    match answer {
        Ok((i, offset, effect, prepare)) => done(head, i.0, offset, effect),
        Err(why) => refuse(head, why.number()),
    }
}

pub fn following(head: Head, answer: Result<Option<EntryId>, Refusal>) -> Step
    ensures { result ≡ step_of head (following_answer (numbered answer)) }
{
    match answer {
        Ok(Some(i)) => done(head, i.0, 0, 0),
        Ok(None) => done(head, NONE, 0, 0),
        Err(why) => refuse(head, why.number()),
    }
}

pub fn updated(reply: Reply<u32>) -> Step
    ensures { result ≡ step_of reply.head (number_answer (numbered reply.answer)) }
{
    let head = reply.head;
    let answer = reply.answer;
    number(head, answer)
}
