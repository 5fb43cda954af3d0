// The edits that one edit rests on and another doesn't.
ghost use Rattle.model.specs.Numbered.{numbered};
ghost use Rattle.std.specs.Prelude.{◌≡◌, ◌<◌, ◌≤◌, length};
ghost use Rattle.calls_edits.specs.Edits.{check, difference};
ghost use Rattle.calls_edits.specs.Walk.{listed, placed, written};

use crate::check::check;
use crate::walk::reached;
use model::refusal::Refusal;

// Whether edit k is marked in one and not in two.
fn is_listed(one: &[u8; 512], two: &[u8; 512], k: usize) -> bool
    requires { k < 512 }
    ensures { result ≡ listed one.now two.now k }
{
    one[k] == 1 && two[k] != 1
}

// The number k put behind the count of numbers that the area holds, if it is listed; how many it holds then.
fn put(area: &mut [u32], count: usize, k: usize, yes: bool) -> usize
    requires { (count < length area.old) × (k < 512) }
    ensures { (result, area.new) ≡ placed yes k count area.old }
{
    if !yes {
        return count;
    }
    area[count] = k as u32;
    count + 1
}

// The listed numbers below n, written to the front of the area in rising order; how many they are.
fn write(area: &mut [u32], one: &[u8; 512], two: &[u8; 512], n: usize) -> u32
    requires { (n ≤ 512) × (512 ≤ length area.old) }
    ensures { (result, area.new) ≡ written (listed one.now two.now) n area.old }
{
    let mut count: usize = 0;
    for k in 0..n {
        let yes = is_listed(one, two, k);
        count = put(area, count, k, yes);
    }
    count as u32
}

// The call on an accepted file and an area that is long enough.
fn list(file: &[u8], area: &mut [u32], first: u32, second: u32) -> Result<u32, Refusal>
    requires { (check file.now ≡ Ok tt) × (512 ≤ length area.old) }
    ensures { (numbered result, area.new) ≡ difference file.now area.old first second }
{
    let n = file.len() / 16;
    let a = first as usize;
    let b = second as usize;
    if a >= n || b >= n {
        return Err(Refusal::Id);
    }
    let one = reached(file, a);
    let two = reached(file, b);
    Ok(write(area, &one, &two, n))
}

// The edits that the first rests on and the second doesn't, each once, in rising number, at the front of the area; how many they are, or
// Records, Buffer, Edits, Field, Parent or Id.
pub fn difference(file: &[u8], area: &mut [u32], first: u32, second: u32) -> Result<u32, Refusal>
    ensures { (numbered result, area.new) ≡ difference file.now area.old first second }
{
    if file.len() % 16 != 0 {
        return Err(Refusal::Records);
    }
    if area.len() < 512 {
        return Err(Refusal::Buffer);
    }
    check(file)?;
    list(file, area, first, second)
}
