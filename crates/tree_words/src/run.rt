// Runs of words: moved up, and emptied.
ghost use Rattle.std.specs.Prelude.{◌≡◌, List, ℕ, ◌+◌, ◌-◌, ◌*◌, ◌%◌, ◌<◌, ◌≤◌, length, replicate};
ghost use Rattle.model.specs.Lists.{part, put_at};
ghost use Rattle.model.specs.Node.{empty_slots};
ghost use Rattle.model_laws.specs.Slots.{flat};

use model::length::Slot;

// Moves the words from p up to q by s words, the last first. One by one: of `copy_within` no edit of what is moved is refused for its value.
pub fn shift(ws: &mut [u32], p: usize, q: usize, s: usize)
    requires { (p ≤ q) × (q + s ≤ length ws.old) }
    ensures { ws.new ≡ put_at (p + s) (part p (q - p) ws.old) ws.old }
{
    for w in (p..q).rev() {
        ws[w + s] = ws[w];
    }
}

// Moves four words from word w on up by s words. All are read before the first is written: that is one load and one store.
fn four_up(ws: &mut [u32], w: usize, s: usize)
    requires { w + 4 + s ≤ length ws.old }
    ensures { ws.new ≡ put_at (w + s) (part w 4 ws.old) ws.old }
{
    let four = [ws[w], ws[w + 1], ws[w + 2], ws[w + 3]];
    ws[w + s] = four[0];
    ws[w + s + 1] = four[1];
    ws[w + s + 2] = four[2];
    ws[w + s + 3] = four[3];
}

// As shift, four words a turn, to make room for s words from word p on: what stands there then is left open, for up to s words below p
// may have moved along. Of slots of four words each turn moves one, by one load and one store.
pub fn open_gap(ws: &mut [u32], p: usize, q: usize, s: usize)
    requires { (3 ≤ p) × (p ≤ q) × (q + s ≤ length ws.old) × (2 ≤ s) × (s ≤ 4) × ((q - p) % 2 ≤ s - 2) }
    ensures { (x : List ℕ) → length x ≡ s → put_at p x ws.new ≡ put_at p x (put_at (p + s) (part p (q - p) ws.old) ws.old) }
{
    for turn in 0..(q - p).div_ceil(4) {
        four_up(ws, q - 4 * (turn + 1), s);
    }
}

// Zeros from word p up to word q. The slice's fill takes half as long again: it writes the last word apart, behind a test.
fn zero(ws: &mut [u32], p: usize, q: usize)
    requires { (p ≤ q) × (q ≤ length ws.old) }
    ensures { ws.new ≡ put_at p (replicate (q - p) 0) ws.old }
{
    for w in p..q {
        ws[w] = 0;
    }
}

// n empty slots from word p on: every word 0, then Slot::EMPTY's child in each. One long run of zeros is written faster than
// one for each slot.
pub fn clear(ws: &mut [u32], stride: usize, p: usize, n: usize)
    requires { (0 < stride) × (p + n * stride ≤ length ws.old) }
    ensures { ws.new ≡ put_at p (flat (empty_slots stride n)) ws.old }
{
    let empty = Slot::EMPTY;
    zero(ws, p, p + n * stride);
    for i in 0..n {
        ws[p + i * stride] = empty.child;
    }
}
