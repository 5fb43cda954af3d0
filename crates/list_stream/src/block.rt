// The records of a block on a tree, each with its answer's line.
ghost use Rattle.std.specs.Prelude.{◌≡◌, ◌+◌, ◌*◌, ◌/◌, ◌%◌, ◌≤◌, length};
ghost use Rattle.model.specs.State.{state};
ghost use Rattle.model.specs.Record.{decode};
ghost use Rattle.list_row.specs.Run.{calls_of, records_of};
ghost use Rattle.list_stream.specs.Shown.{shown, show_one, show_from, fed_of, feed};

use crate::line::line;
use crate::rest::keep;
use list_records::call::decode;
use list_records::fields::read;
use list_row::step::step;
use model::head::Head;

// The head after some records, and the place behind their text.
#[derive(Clone, Copy)]
pub struct Played {
    pub head: Head,
    pub end: usize,
}

// One record, and its line from place `at` on.
fn show_record(
    head: Head,
    leaves: &mut [u32],
    inners: &mut [u32],
    homes: &mut [u32],
    bytes: &[u8],
    out: &mut [u8],
    at: usize,
) -> Played
    requires { (length bytes.now ≡ 16) × (at + 44 ≤ length out.old) }
    ensures { shown (state result.head leaves.new inners.new homes.new) result.end out.new ≡ show_one (state head leaves.old inners.old homes.old) (decode bytes.now) at out.old }
{
    let call = decode(read(bytes));
    let done = step(head, leaves, inners, homes, call);
    let after = done.head;
    let answer = done.answer;
    let end = line(out, at, answer);
    Played {
        head: after,
        end: end,
    }
}

// Every whole record of a block, and their lines from the start of out on.
pub fn show(
    head: Head,
    leaves: &mut [u32],
    inners: &mut [u32],
    homes: &mut [u32],
    block: &[u8],
    out: &mut [u8],
) -> Played
    requires { 44 * (length block.now / 16) ≤ length out.old }
    ensures { shown (state result.head leaves.new inners.new homes.new) result.end out.new ≡ show_from (state head leaves.old inners.old homes.old) (calls_of (records_of block.now)) 0 out.old }
{
    let mut after = head;
    let mut end = 0;
    for record in block.chunks_exact(16) {
        let played = show_record(after, leaves, inners, homes, record, out, end);
        after = played.head;
        end = played.end;
    }
    Played {
        head: after,
        end: end,
    }
}

// The head after a block, the place behind its text, and how many bytes are kept at the block's start.
#[derive(Clone, Copy)]
pub struct Fed {
    pub head: Head,
    pub end: usize,
    pub kept: usize,
}

// The first `have` bytes of a block: their whole records are shown, and the bytes behind those kept.
pub fn feed(
    head: Head,
    leaves: &mut [u32],
    inners: &mut [u32],
    homes: &mut [u32],
    block: &mut [u8],
    have: usize,
    out: &mut [u8],
) -> Fed
    requires { (have ≤ length block.old) × (44 * (have / 16) ≤ length out.old) }
    ensures { fed_of (state result.head leaves.new inners.new homes.new) result.end out.new result.kept block.new ≡ feed (state head leaves.old inners.old homes.old) block.old have out.old }
{
    let played = show(head, leaves, inners, homes, &block[..have], out);
    let after = played.head;
    let kept = have % 16;
    keep(block, have - kept, kept);
    Fed {
        head: after,
        end: played.end,
        kept: kept,
    }
}
