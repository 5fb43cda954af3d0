// Reads a file of edits from standard input and prints, a number a line, the edits that the first argument rests on and the second doesn't.
// What it can't do it says on standard error, and prints nothing: an argument that is no edit's number, a refusal's number, a read that fails. A write that
// fails it says too, and may have printed a part.
#![tactic(auto)]

ghost use Rattle.std.specs.Prelude.{◌≡◌, List, ℕ, ◌*◌, ◌<◌, ◌≤◌, length, take};
ghost use Rattle.model.specs.Numbered.{numbered};
ghost use Rattle.list_stream.specs.Text.{put};
ghost use Rattle.editrun.specs.Asked.{word, asked};
ghost use Rattle.editrun.specs.Held.{folded, InputHeld, Turned, HoldsInput};
ghost use Rattle.editrun.specs.Printed.{lines, Answered};

use calls_edits::difference::difference;
use list_stream::line::field;
use model::refusal::Refusal;
use std::env::{Env, FillError};
use std::io::{self, Read, Stderr, Stdin, Stdout, Write};

// The three streams of the program.
#[derive(Clone, Copy)]
struct Streams {
    input: Stdin,
    output: Stdout,
    errors: Stderr,
}

// A number that a u32 holds.
fn word(n: u64) -> Option<u32>
    ensures { result ≡ word n }
{
    match u32::try_from(n) {
        Ok(n) => Some(n),
        Err(_) => None,
    }
}

// The number that one to ten digits say.
fn number_in(text: &[u8]) -> Option<u32>
    ensures { result ≡ asked text.now }
{
    if text.is_empty() || text.len() > 10 {
        return None;
    }
    let mut n: u64 = 0;
    for &b in text {
        // By its bounds: of `is_ascii_digit` no edit of one bound is refused for its value.
        if b < 48 {
            return None;
        }
        if b > 57 {
            return None;
        }
        n = n * 10 + u64::from(b - b'0');
    }
    word(n)
}

// The number of argument i: none where it is missing, has more than ten bytes or says no such number.
fn argument_at<R: Env>(rt: &R, i: usize) -> Option<u32> {
    let mut text = [0u8; 10];
    let n = rt.arg(i, &mut text).ok()?;
    number_in(&text[..n])
}

// Whether no argument i is there.
fn is_missing<R: Env>(rt: &R, i: usize) -> bool {
    matches!(rt.arg(i, &mut []), Err(FillError::NotPresent))
}

// How many bytes are held of so many.
fn fold(have: usize) -> usize
    ensures { result ≡ folded have }
{
    if have < 8208 {
        return have;
    }
    8208 + have % 16
}

// Once more read, behind what is held: how many bytes the block holds then, none at the end of the input.
fn turn(input: Stdin, block: &mut [u8], kept: usize) -> io::Result<Option<usize>>
    requires { kept < length block.old }
    ensures { Turned result block.old kept block.new }
{
    let mut input = input;
    let n = input.read(&mut block[kept..])?;
    if n == 0 {
        return Ok(None);
    }
    Ok(Some(fold(kept + n)))
}

// A line for each of the first n numbers; the place behind them.
fn list_lines(area: &[u32], n: usize, out: &mut [u8]) -> usize
    requires { (n ≤ length area.now) × (11 * n ≤ length out.old) }
    ensures out_after { (result, out.new) ≡ put out.old 0 (lines (take n area.now)) }
    ensures upper_bound { result ≤ length out.new }
{
    let mut end: usize = 0;
    for &k in &area[..n] {
        end = field(out, end, k, 10);
    }
    end
}

// The lines of the difference, of the file whose bytes the block holds; how many bytes they have.
fn answer(
    block: &[u8],
    have: usize,
    first: u32,
    second: u32,
    area: &mut [u32],
    out: &mut [u8],
) -> Result<usize, Refusal>
    requires { (have ≤ length block.now) × (length area.old ≡ 512) × (5632 ≤ length out.old) }
    ensures { (input : List ℕ) → InputHeld input block.now have → Answered (numbered result) input first second area.old out.old out.new }
{
    let n = difference(&block[..have], area, first, second)?;
    Ok(list_lines(area, n as usize, out))
}

// A text, on standard error. Nothing can be said of one that fails there.
fn say(errors: Stderr, text: &[u8]) {
    let mut errors = errors;
    let _ = errors.write_all(text);
}

// The number of a refusal, on standard error.
fn refuse(errors: Stderr, n: u32) {
    let _ = eprintln!(errors; "editrun: refused by {n}");
}

// The text printed, or the refusal said.
fn show(
    streams: Streams,
    block: &[u8],
    have: usize,
    first: u32,
    second: u32,
    area: &mut [u32],
    out: &mut [u8],
)
    requires { HoldsInput block.now have × (length area.old ≡ 512) × (length out.old ≡ 5632) }
{
    match answer(block, have, first, second, area, out) {
        Ok(end) => {
            let mut output = streams.output;
            if output.write_all(&out[..end]).is_err() {
                say(
                    streams.errors,
                    b"editrun: standard output can't be written\n",
                );
            }
        }
        Err(why) => {
            refuse(streams.errors, why.number());
        }
    }
}

fn unreadable(errors: Stderr) {
    say(errors, b"editrun: standard input can't be read\n");
}

// Block after block until the input ends, then the list.
fn run(
    streams: Streams,
    first: u32,
    second: u32,
    block: &mut [u8],
    area: &mut [u32],
    out: &mut [u8],
)
    requires { (length block.old ≡ 16384) × (length area.old ≡ 512) × (length out.old ≡ 5632) }
{
    let mut kept: usize = 0;
    // A proved loop has to end, and nothing says that the input does: no run uses these turns up.
    for _ in 0..u64::MAX {
        match turn(streams.input, block, kept) {
            Ok(Some(next)) => {
                kept = next;
            }
            Ok(None) => {
                show(streams, block, kept, first, second, area, out);
                return;
            }
            Err(_) => {
                unreadable(streams.errors);
                return;
            }
        }
    }
}

fn malformed(errors: Stderr) {
    say(
        errors,
        b"editrun: two edits are wanted, each a number from 0 to 4294967295\n",
    );
}

fn main(rt: HostRuntime) {
    let streams = Streams {
        input: rt.stdin(),
        output: rt.stdout(),
        errors: rt.stderr(),
    };
    // Two arguments and no third.
    if !is_missing(&rt, 3) {
        malformed(streams.errors);
        return;
    }
    let Some(first) = argument_at(&rt, 1) else {
        malformed(streams.errors);
        return;
    };
    let Some(second) = argument_at(&rt, 2) else {
        malformed(streams.errors);
        return;
    };
    let mut block = [0u8; 16384];
    let mut area = [0u32; 512];
    let mut out = [0u8; 5632];
    run(streams, first, second, &mut block, &mut area, &mut out);
}
