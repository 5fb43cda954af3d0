// The edits that an edit rests on, marked by a walk down from it: in an accepted file parents are smaller.
ghost use Rattle.std.specs.Prelude.{◌≡◌, ℕ, ◌+◌, ◌*◌, ◌<◌, ◌≤◌, length, get_or, set, eqb};
ghost use Rattle.calls_edits.specs.Edits.{edits, rests_on, check};
ghost use Rattle.calls_edits.specs.Walk.{stepped, walked};

use list_records::fields::word_at;

// A parent marked, if there is one: none is past the marks.
fn mark(marks: &mut [u8], parent: u32)
    ensures { marks.new ≡ set marks.old parent 1 }
{
    let p = parent as usize;
    if p < marks.len() {
        marks[p] = 1;
    }
}

// The parents of edit k marked, if k is.
fn step(file: &[u8], marks: &mut [u8], k: usize)
    requires { (16 * k + 16 ≤ length file.now) × (k < length marks.old) }
    ensures { marks.new ≡ stepped file.now k marks.old }
{
    if marks[k] != 1 {
        return;
    }
    let at = 16 * k;
    let left = word_at(file, at);
    let right = word_at(file, at + 4);
    mark(marks, left);
    mark(marks, right);
}

// The same for each edit below n, the last first.
fn walk(file: &[u8], marks: &mut [u8], n: usize)
    requires { (16 * n ≤ length file.now) × (n ≤ length marks.old) }
    ensures { marks.new ≡ walked file.now n marks.old }
{
    for k in (0..n).rev() {
        step(file, marks, k);
    }
}

// 1 for each edit that edit e of an accepted file rests on.
pub fn reached(file: &[u8], e: usize) -> [u8; 512]
    requires { (check file.now ≡ Ok tt) × (e < edits file.now) }
    ensures { (k : ℕ) → eqb (get_or result k 0) 1 ≡ rests_on file.now e k }
{
    let mut marks: [u8; 512] = [0; 512];
    marks[e] = 1;
    walk(file, &mut marks, e + 1);
    marks
}
