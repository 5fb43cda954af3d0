// Records on a tree, each answer into its own sixteen bytes of an output.
ghost use Rattle.model.specs.Numbered.{numbered};
ghost use Rattle.std.specs.Prelude.{◌≡◌, true, ◌%◌, length};
ghost use Rattle.model.specs.State.{state};
ghost use Rattle.model.specs.Kind.{base};
ghost use Rattle.model.specs.Row.{Row};
ghost use Rattle.model.specs.Promise.{Represents};
ghost use Rattle.list_row.specs.Run.{records_of, tree_output, turn, turns, fit, ran, run_on, AsRow};

use crate::step::step;
use list_records::answer::write;
use list_records::call::decode;
use list_records::fields::read;
use model::answer::Reply;
use model::head::Head;
use model::refusal::Refusal;

// One record and its answer record.
fn one(
    head: Head,
    leaves: &mut [u32],
    inners: &mut [u32],
    homes: &mut [u32],
    bytes: &[u8],
    out: &mut [u8],
) -> Head
    requires { (length bytes.now ≡ 16) × (length out.old ≡ 16) }
    ensures { tree_output (state result leaves.new inners.new homes.new) out.new ≡ turn (state head leaves.old inners.old homes.old) bytes.now }
{
    let fields = read(bytes);
    let kind = fields.kind;
    let call = decode(fields);
    let done = step(head, leaves, inners, homes, call);
    let after = done.head;
    let answer = done.answer;
    write(out, kind, answer);
    after
}

// Whole records, in order.
fn all(
    head: Head,
    leaves: &mut [u32],
    inners: &mut [u32],
    homes: &mut [u32],
    records: &[u8],
    out: &mut [u8],
) -> Head
    requires { (length records.now ≡ length out.old) × (length records.now % 16 ≡ 0) }
    ensures { tree_output (state result leaves.new inners.new homes.new) out.new ≡ turns (state head leaves.old inners.old homes.old) (records_of records.now) }
{
    let mut h = head;
    for i in 0..records.len() / 16 {
        let at = 16 * i;
        let end = at + 16;
        h = one(
            h,
            leaves,
            inners,
            homes,
            &records[at..end],
            &mut out[at..end],
        );
    }
    h
}

// A list of records with an equally long output; Records where the lengths are no such thing.
pub fn run(
    head: Head,
    leaves: &mut [u32],
    inners: &mut [u32],
    homes: &mut [u32],
    records: &[u8],
    out: &mut [u8],
) -> Reply<()>
    ensures out_after { ran (state result.head leaves.new inners.new homes.new) (numbered result.answer) out.new ≡ run_on (state head leaves.old inners.old homes.old) records.now out.old }
    ensures as_row { (q : Row) → fit records.now out.old ≡ true → Represents base (state head leaves.old inners.old homes.old) q → AsRow records.now (ran (state result.head leaves.new inners.new homes.new) (numbered result.answer) out.new) head.fan q }
{
    if records.len() != out.len() || records.len() % 16 != 0 {
        return Reply {
            head: head,
            answer: Err(Refusal::Records),
        };
    }
    let after = all(head, leaves, inners, homes, records, out);
    Reply {
        head: after,
        answer: Ok(()),
    }
}
