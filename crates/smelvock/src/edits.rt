// The exported calls on files of edits.
ghost use Rattle.std.specs.Prelude.{◌≡◌};
ghost use Rattle.smelvock.specs.Edits as flat;

use calls_edits::check::check;
use calls_edits::difference::difference;
use smelvock_marshal::answered::{number_of, outcome_of};
use smelvock_marshal::flat::FlatNumber;

#[unsafe(no_mangle)]
pub extern "C" fn smelvock_edits_check(file: &[u8]) -> u32
    ensures { result ≡ flat.check file.now }
{
    let a = check(file);
    outcome_of(a)
}

#[unsafe(no_mangle)]
pub extern "C" fn smelvock_edits_difference(
    file: &[u8],
    area: &mut [u32],
    first: u32,
    second: u32,
) -> FlatNumber
    ensures { (result, area.new) ≡ flat.difference file.now area.old first second }
{
    let a = difference(file, area, first, second);
    number_of(a)
}
