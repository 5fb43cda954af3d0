// The lookup on a tree with views lengths an entry, positions answered in view effect: first from the finger, then from the root.
// The head comes back with the finger that was found.
ghost use Rattle.model.specs.Numbered.{numbered};
ghost use Rattle.std.specs.Prelude.{◌≡◌, ◌+◌, ◌<◌, ◌≤◌, true, false};
ghost use Rattle.model.specs.State.{state};
ghost use Rattle.model.specs.Kind.{kind};
ghost use Rattle.model.specs.Node.{wrap};
ghost use Rattle.model.specs.Calls.{reply};
ghost use Rattle.model.specs.Examined as count;
ghost use Rattle.model.specs.Examined.{counted};
ghost use Rattle.calls_read.specs.Lookup.{located_reply, hit_of, search_of, Stayed};

use model::answer::LocatedReply;
use model::head::{Cursor, Finger, Head};
use model::number::LeafNo;
use model::refusal::Refusal;
use model::way::{Broken, Searched};
use tree_finger::finger::served_by;
use tree_finger::search::from_root;
use tree_open::open::open;

// The finger found is kept; stayed: it is the one of before, moved within its leaf.
fn hit(head: Head, f: Finger, offset: u32, examined: u32, stayed: bool) -> LocatedReply
    ensures { result ≡ hit_of head f offset examined stayed }
{
    let at = Cursor {
        leaf: LeafNo(f.leaf),
        slot: f.slot,
        stamp: head.stamp,
    };
    let effect = f.effect.wrapping_add(f.effect_within);
    let prepare = f.prepare.wrapping_add(f.prepare_within);
    LocatedReply {
        head: Head {
            finger: Some(f),
            ..head
        },
        answer: Ok((at, offset, effect, prepare)),
        examined,
        stayed,
    }
}

fn refused(head: Head, why: Refusal) -> LocatedReply
    ensures { result ≡ located_reply head (Err why) 0 false }
{
    LocatedReply {
        head,
        answer: Err(why),
        examined: 0,
        stayed: false,
    }
}

// What the search from the root found, after the finger examined slots in vain; none means that the position is past the end.
fn by_search(head: Head, r: Searched, vain: u32) -> LocatedReply
    ensures { result ≡ search_of head r.found (wrap (vain + r.examined)) }
{
    match r.found {
        Ok(Some((f, offset))) => hit(head, f, offset, vain.wrapping_add(r.examined), false),
        Ok(None) => refused(head, Refusal::Position),
        Err(Broken) => refused(head, Refusal::Link),
    }
}

// The entry that holds a position in a view, the offset into it, and its effect and prepare positions; and how many slots were examined.
pub fn locate(
    views: usize,
    effect: usize,
    head: Head,
    leaves: &[u32],
    inners: &[u32],
    homes: &[u32],
    view: usize,
    index: u32,
) -> LocatedReply
    requires { (1 ≤ views) × (views ≤ 3) × (effect < views) × (view < views) }
    ensures { (reply (state result.head leaves.now inners.now homes.now) (counted (numbered result.answer) result.examined) ≡ count.locate (kind views effect) (state head leaves.now inners.now homes.now) view index) × (result.stayed ≡ true → Stayed head.finger result.head.finger) }
{
    let g = match open(views, head, leaves, inners, homes) {
        Ok(g) => g,
        Err(why) => return refused(head, why),
    };
    let used = head.leaves;
    let near = served_by(leaves, g, view, effect, head.finger, used, index);
    match near.found {
        Ok(Some((f, offset))) => hit(head, f, offset, near.examined, true),
        Ok(None) => {
            let far = from_root(
                leaves,
                inners,
                g,
                view,
                effect,
                head.levels,
                head.root,
                used,
                index,
            );
            by_search(head, far, near.examined)
        }
        Err(Broken) => refused(head, Refusal::Link),
    }
}
