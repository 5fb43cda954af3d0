// The exported audit.
ghost use Rattle.std.specs.Prelude.{◌≡◌};
ghost use Rattle.smelvock_marshal.specs.Lent.{given};
ghost use Rattle.smelvock.specs.Reads as flat;

use calls_audit::seated::audit;
use smelvock_marshal::answered::{number_of_verdict, refused_number};
use smelvock_marshal::flat::FlatNumber;
use smelvock_marshal::head::{bad_seats, head_from};

#[unsafe(no_mangle)]
pub extern "C" fn smelvock_audit(
    head: &[u32],
    leaves: &[u32],
    inners: &[u32],
    homes: &[u32],
) -> FlatNumber
    ensures { result ≡ flat.audit (given head.now leaves.now inners.now homes.now) }
{
    if bad_seats(head) {
        return refused_number(10);
    }
    let from: usize = 19;
    let to: usize = 36;
    let a = audit(head_from(head), &head[from..to], leaves, inners, homes);
    number_of_verdict(a)
}
