// The records of a file, and the checker.
ghost use Rattle.model.specs.Numbered.{numbered, number_of};
ghost use Rattle.std.specs.Prelude.{◌≡◌, ◌+◌, ◌*◌, ◌≤◌, length};
ghost use Rattle.model.specs.Lists.{refusal};
ghost use Rattle.calls_edits.specs.Edits.{late, causes_of, record_causes, records_causes, check};

use list_records::fields::word_at;
use model::number::NONE;
use model::refusal::Refusal;

// Whether a parent of edit e is there and isn't smaller than e.
fn is_late(e: usize, parent: u32) -> bool
    ensures { result ≡ late e parent }
{
    parent != NONE && e <= parent as usize
}

// Whether edit e's record is accepted, by its four words. Both sides of each test are asked: `||` is a branch, and takes half as long again.
fn check_words(e: usize, left: u32, right: u32, third: u32, fourth: u32) -> Result<(), Refusal>
    ensures { number_of result ≡ refusal (causes_of e left right third fourth) }
{
    let filled = (third != 0) | (fourth != 0);
    let late = is_late(e, left) | is_late(e, right);
    if filled {
        return Err(Refusal::Field);
    }
    if late {
        return Err(Refusal::Parent);
    }
    Ok(())
}

// The same by the record's place.
fn check_record(file: &[u8], e: usize) -> Result<(), Refusal>
    requires { 16 * e + 16 ≤ length file.now }
    ensures { number_of result ≡ refusal (record_causes file.now e) }
{
    let at = 16 * e;
    let left = word_at(file, at);
    let right = word_at(file, at + 4);
    let third = word_at(file, at + 8);
    let fourth = word_at(file, at + 12);
    check_words(e, left, right, third, fourth)
}

// The same of the first n records: the first bad one decides.
fn check_records(file: &[u8], n: usize) -> Result<(), Refusal>
    requires { 16 * n ≤ length file.now }
    ensures { number_of result ≡ refusal (records_causes file.now n) }
{
    for e in 0..n {
        check_record(file, e)?;
    }
    Ok(())
}

// Whether a file is accepted: done, or refused by Records, Edits, Field or Parent.
pub fn check(file: &[u8]) -> Result<(), Refusal>
    ensures { numbered result ≡ check file.now }
{
    let length = file.len();
    if length % 16 != 0 {
        return Err(Refusal::Records);
    }
    let n = length / 16;
    if n > 512 {
        return Err(Refusal::Edits);
    }
    check_records(file, n)
}
