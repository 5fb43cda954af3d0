// Reads records from standard input, plays them on the door's tree, and prints the sheet of the state that they leave.
// A block is read as it comes, so that a record may be cut anywhere; what isn't whole yet is kept for the next.
#![tactic(auto)]

ghost use Rattle.std.specs.Prelude.{◌≡◌, List, ◌+◌, ◌*◌, ◌<◌, ◌≤◌, length, take};
ghost use Rattle.model.specs.Kind.{base};
ghost use Rattle.model.specs.Row.{Call};
ghost use Rattle.model.specs.State.{state};
ghost use Rattle.model.specs.Promise.{Represents};
ghost use Rattle.model.specs.Sheet.{pages_for, sheet};
ghost use Rattle.list_row.specs.Made.{door_row};
ghost use Rattle.sheetrun.specs.Turn.{BlockPlayed, Turned, ForRow, left_row};

use calls_print::print::print;
use list_row::made::door_tree;
use list_row::run::run;
use list_stream::rest::keep;
use model::head::Head;
use std::io::{self, Read, Stderr, Stdin, Stdout, Write};

// The three streams of the program.
#[derive(Clone, Copy)]
struct Streams {
    input: Stdin,
    output: Stdout,
    errors: Stderr,
}

// The head after a block, and how many bytes are kept at the block's start.
#[derive(Clone, Copy)]
struct Left {
    head: Head,
    kept: usize,
}

// The first `have` bytes of a block: their whole records are played, and the bytes behind those kept.
fn play(
    head: Head,
    leaves: &mut [u32],
    inners: &mut [u32],
    homes: &mut [u32],
    block: &mut [u8],
    have: usize,
    out: &mut [u8],
) -> Left
    requires { (have ≤ length block.old) × (length block.old ≤ length out.old) }
    ensures { BlockPlayed (state head leaves.old inners.old homes.old) block.old have (state result.head leaves.new inners.new homes.new) result.kept block.new }
{
    let kept = have % 16;
    let whole = have - kept;
    let ran = run(
        head,
        leaves,
        inners,
        homes,
        &block[..whole],
        &mut out[..whole],
    );
    let after = ran.head;
    keep(block, whole, kept);
    Left {
        head: after,
        kept: kept,
    }
}

// One block: read and played; none at the end of the input.
fn turn(
    input: Stdin,
    head: Head,
    leaves: &mut [u32],
    inners: &mut [u32],
    homes: &mut [u32],
    block: &mut [u8],
    kept: usize,
    out: &mut [u8],
) -> io::Result<Option<Left>>
    requires { (length block.old ≡ 4096) × (length out.old ≡ 4096) × (kept < 16) }
    ensures { Turned result (state head leaves.old inners.old homes.old) block.old kept leaves.new inners.new homes.new block.new }
{
    let mut input = input;
    let n = input.read(&mut block[kept..])?;
    if n == 0 {
        return Ok(None);
    }
    let left = play(head, leaves, inners, homes, block, kept + n, out);
    Ok(Some(left))
}

// The sheet of the tree, at the start of the page; how many bytes it has.
fn pages(head: Head, leaves: &[u32], inners: &[u32], homes: &[u32], page: &mut [u8]) -> usize
    ensures upper_bound { result ≤ length page.new }
    ensures value { (cs : List Call) → Represents base (state head leaves.now inners.now homes.now) (left_row cs) → length page.old ≡ 30250 → (result ≡ 2750 * pages_for (length (left_row cs).entries)) × (take result page.new ≡ sheet base (left_row cs).entries) }
{
    match print(head, leaves, inners, homes, page) {
        Ok(n) => 2750 * (n as usize),
        Err(_) => 0,
    }
}

// The sheet printed; bytes that are no whole record are left out of it, and said to be there.
fn show(
    streams: Streams,
    head: Head,
    leaves: &[u32],
    inners: &[u32],
    homes: &[u32],
    stray: usize,
    page: &mut [u8],
)
    requires { ForRow (state head leaves.now inners.now homes.now) × (length page.old ≡ 30250) }
{
    let mut output = streams.output;
    let mut errors = streams.errors;
    if stray > 0 {
        let _ = errors.write_all(b"sheetrun: the last record isn't whole\n");
    }
    let n = pages(head, leaves, inners, homes, page);
    if output.write_all(&page[..n]).is_err() {
        let _ = errors.write_all(b"sheetrun: standard output can't be written\n");
    }
}

// Block after block until the input ends, then the sheet.
fn run_blocks(
    streams: Streams,
    head: Head,
    leaves: &mut [u32],
    inners: &mut [u32],
    homes: &mut [u32],
    block: &mut [u8],
    out: &mut [u8],
    page: &mut [u8],
)
    requires { Represents base (state head leaves.old inners.old homes.old) door_row × (length block.old ≡ 4096) × (length out.old ≡ 4096) × (length page.old ≡ 30250) }
{
    let mut after = head;
    let mut kept = 0;
    // A proved loop has to end, and nothing says that the input does: no run uses these turns up.
    for _ in 0..u64::MAX {
        match turn(
            streams.input,
            after,
            leaves,
            inners,
            homes,
            block,
            kept,
            out,
        ) {
            Ok(Some(left)) => {
                after = left.head;
                kept = left.kept;
            }
            Ok(None) => {
                show(streams, after, leaves, inners, homes, kept, page);
                return;
            }
            Err(_) => {
                let mut errors = streams.errors;
                let _ = errors.write_all(b"sheetrun: standard input can't be read\n");
                return;
            }
        }
    }
}

fn main(rt: HostRuntime) {
    let streams = Streams {
        input: rt.stdin(),
        output: rt.stdout(),
        errors: rt.stderr(),
    };
    let mut leaves = [0u32; 4480];
    let mut inners = [0u32; 4480];
    let mut homes = [0u32; 512];
    let mut block = [0u8; 4096];
    let mut out = [0u8; 4096];
    let mut page = [0u8; 30250];
    let made = door_tree(&mut leaves, &mut inners, &mut homes);
    let head = made.head;
    run_blocks(
        streams,
        head,
        &mut leaves,
        &mut inners,
        &mut homes,
        &mut block,
        &mut out,
        &mut page,
    );
}
