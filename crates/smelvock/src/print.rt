// The exported call that prints the sheet.
ghost use Rattle.std.specs.Prelude.{◌≡◌};
ghost use Rattle.smelvock_marshal.specs.Lent.{given};
ghost use Rattle.smelvock.specs.Prints as flat;

use calls_print::print::print;
use smelvock_marshal::answered::{number_of, refused_number};
use smelvock_marshal::flat::FlatNumber;
use smelvock_marshal::head::{bad_head, head_from};

#[unsafe(no_mangle)]
pub extern "C" fn smelvock_print(
    head: &[u32],
    leaves: &[u32],
    inners: &[u32],
    homes: &[u32],
    page: &mut [u8],
) -> FlatNumber
    ensures { (result, page.new) ≡ flat.print (given head.now leaves.now inners.now homes.now) page.old }
{
    if bad_head(head) {
        return refused_number(10);
    }
    let a = print(head_from(head), leaves, inners, homes, page);
    number_of(a)
}
