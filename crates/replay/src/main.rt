// Replays lists of records from standard input, one after another, and prints a line for each answer.
// Each list begins with two records of kind 0, whose words are fan, limit and prepare, then effect, the number of records and line ends.
#![tactic(auto)]

use calls_make::begin::new;
use list_records::fields::read;
use list_stream::block::show;
use model::head::Head;
use model::length::Lengths;
use std::io::{Read, Stdin, Stdout, Write};

// The streams that the program reads from and writes to.
#[derive(Clone, Copy)]
struct Streams {
    input: Stdin,
    output: Stdout,
}

// The next record of a list: read, played and printed; the head then, none at the end of the input. A line that can't be written is left out.
fn turn(
    streams: Streams,
    head: Head,
    leaves: &mut [u32],
    inners: &mut [u32],
    homes: &mut [u32],
) -> Option<Head> {
    let mut input = streams.input;
    let mut output = streams.output;
    let mut bytes = [0u8; 16];
    let mut out = [0u8; 44];
    if input.read_exact(&mut bytes).is_err() {
        return None;
    }
    let played = show(head, leaves, inners, homes, &bytes, &mut out);
    let after = played.head;
    let end = played.end;
    let _ = output.write_all(&out[..end]);
    Some(after)
}

// A list's records; whether the input goes on behind them.
fn play(
    streams: Streams,
    head: Head,
    leaves: &mut [u32],
    inners: &mut [u32],
    homes: &mut [u32],
    records: u32,
) -> bool {
    let mut after = head;
    for _ in 0..records {
        let Some(next) = turn(streams, after, leaves, inners, homes) else {
            return false;
        };
        after = next;
    }
    true
}

// A list: its tree, then its records; whether the input goes on behind them.
fn list(streams: Streams, leaves: &mut [u32], inners: &mut [u32], homes: &mut [u32]) -> bool {
    // The six numbers as two records: fan, limit and prepare are the words of one, effect, the number of records and line ends of the other.
    let mut first = [0u8; 16];
    let mut second = [0u8; 16];
    let mut input = streams.input;
    if input.read_exact(&mut first).is_err() || input.read_exact(&mut second).is_err() {
        return false;
    }
    let made_by = read(&first);
    let more = read(&second);
    let lengths = Lengths {
        prepare: made_by.c,
        effect: more.a,
        lines: more.c,
    };
    let made = new(made_by.a, made_by.b, lengths, leaves, inners, homes);
    let head = made.head;
    play(streams, head, leaves, inners, homes, more.b)
}

// List after list until the input ends.
fn run(streams: Streams, leaves: &mut [u32], inners: &mut [u32], homes: &mut [u32]) {
    // A proved loop has to end, and nothing says that the input does: no run uses these turns up.
    for _ in 0..u64::MAX {
        if !list(streams, leaves, inners, homes) {
            return;
        }
    }
}

fn main(rt: HostRuntime) {
    let streams = Streams {
        input: rt.stdin(),
        output: rt.stdout(),
    };
    let mut leaves = [0u32; 4716];
    let mut inners = [0u32; 4716];
    let mut homes = [0u32; 580];
    run(streams, &mut leaves, &mut inners, &mut homes);
}
