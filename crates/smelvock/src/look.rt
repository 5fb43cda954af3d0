// The exported lookup.
ghost use Rattle.std.specs.Prelude.{◌≡◌};
ghost use Rattle.smelvock_marshal.specs.Lent.{given, left};
ghost use Rattle.smelvock.specs.Changes as flat;

use calls_read::lookup::locate;
use smelvock_marshal::answered::{located_of, refused_located};
use smelvock_marshal::flat::FlatLocated;
use smelvock_marshal::given::view_from;
use smelvock_marshal::head::{bad_view, head_from, settle_found};

#[unsafe(no_mangle)]
pub extern "C" fn smelvock_locate(
    head: &mut [u32],
    leaves: &[u32],
    inners: &[u32],
    homes: &[u32],
    view: u32,
    index: u32,
) -> FlatLocated
    ensures { left result head.new leaves.now inners.now homes.now ≡ flat.locate (given head.old leaves.now inners.now homes.now) view index }
{
    if bad_view(head, view) {
        return refused_located(10);
    }
    let r = locate(
        head_from(head),
        leaves,
        inners,
        homes,
        view_from(view),
        index,
    );
    let after = r.head;
    let answer = r.answer;
    let a = located_of(answer, r.examined);
    settle_found(head, a.number, after, r.stayed);
    a
}
