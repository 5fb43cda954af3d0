// Reads records from standard input and prints a line for each answer, from the door's tree.
// A block is read as it comes, so that a record may be cut anywhere; what isn't whole yet is kept for the next.
#![tactic(auto)]

ghost use Rattle.std.specs.Prelude.{◌≡◌, ◌+◌, ◌*◌, ◌/◌, ◌<◌, ◌≤◌, length};
ghost use Rattle.model.specs.Kind.{base};
ghost use Rattle.model.specs.State.{state};
ghost use Rattle.model.specs.Promise.{Represents};
ghost use Rattle.list_row.specs.Made.{door_row};
ghost use Rattle.list_stream.specs.Shown.{fed_of};
ghost use Rattle.rowrun.specs.Turn.{answered, Turned};

use list_row::made::door_tree;
use list_stream::block::{Fed, feed};
use list_stream::rest::tail;
use model::head::Head;
use std::io::{Read, Stderr, Stdin, Stdout, Write};

// The three streams of the program.
#[derive(Clone, Copy)]
struct Streams {
    input: Stdin,
    output: Stdout,
    errors: Stderr,
}

// What n bytes read behind the kept ones are answered: the lines of the whole records. No byte read is the end of the input,
// and a short tail's line.
fn answer(
    head: Head,
    leaves: &mut [u32],
    inners: &mut [u32],
    homes: &mut [u32],
    block: &mut [u8],
    kept: usize,
    n: usize,
    out: &mut [u8],
) -> Fed
    requires { (kept + n ≤ length block.old) × (44 * ((kept + n) / 16) ≤ length out.old) × (44 ≤ length out.old) }
    ensures block_after { fed_of (state result.head leaves.new inners.new homes.new) result.end out.new result.kept block.new ≡ answered (state head leaves.old inners.old homes.old) block.old kept n out.old }
    ensures end_in_bounds { result.end ≤ length out.new }
{
    if n == 0 {
        let end = tail(kept, out);
        return Fed {
            head: head,
            end: end,
            kept: kept,
        };
    }
    feed(head, leaves, inners, homes, block, kept + n, out)
}

// One block: read, answered and printed. The head then, and how many bytes are kept at the block's start; none where the input doesn't go on.
// What it can't do it says on standard error.
fn turn(
    streams: Streams,
    head: Head,
    leaves: &mut [u32],
    inners: &mut [u32],
    homes: &mut [u32],
    block: &mut [u8],
    kept: usize,
    out: &mut [u8],
) -> Option<(Head, usize)>
    requires { (length block.old ≡ 4096) × (length out.old ≡ 11264) × (kept < 16) }
    ensures { Turned result (state head leaves.old inners.old homes.old) block.old kept out.old leaves.new inners.new homes.new block.new out.new }
{
    let mut input = streams.input;
    let mut output = streams.output;
    let mut errors = streams.errors;
    let Ok(n) = input.read(&mut block[kept..]) else {
        let _ = errors.write_all(b"rowrun: standard input can't be read\n");
        return None;
    };
    let fed = answer(head, leaves, inners, homes, block, kept, n, out);
    let after = fed.head;
    let rest = fed.kept;
    let end = fed.end;
    if output.write_all(&out[..end]).is_err() {
        let _ = errors.write_all(b"rowrun: standard output can't be written\n");
        return None;
    }
    if n == 0 {
        return None;
    }
    Some((after, rest))
}

// Block after block until the input ends.
fn run(
    streams: Streams,
    head: Head,
    leaves: &mut [u32],
    inners: &mut [u32],
    homes: &mut [u32],
    block: &mut [u8],
    out: &mut [u8],
)
    requires { Represents base (state head leaves.old inners.old homes.old) door_row × (length block.old ≡ 4096) × (length out.old ≡ 11264) }
{
    let mut after = head;
    let mut kept = 0;
    // A proved loop has to end, and nothing says that the input does: no run uses these turns up.
    for _ in 0..u64::MAX {
        let Some((next, rest)) = turn(streams, after, leaves, inners, homes, block, kept, out)
        else {
            return;
        };
        after = next;
        kept = rest;
    }
}

fn main(rt: HostRuntime) {
    let streams = Streams {
        input: rt.stdin(),
        output: rt.stdout(),
        errors: rt.stderr(),
    };
    let mut leaves = [0u32; 4480];
    let mut inners = [0u32; 4480];
    let mut homes = [0u32; 512];
    let mut block = [0u8; 4096];
    let mut out = [0u8; 11264];
    let made = door_tree(&mut leaves, &mut inners, &mut homes);
    let head = made.head;
    run(
        streams,
        head,
        &mut leaves,
        &mut inners,
        &mut homes,
        &mut block,
        &mut out,
    );
}
