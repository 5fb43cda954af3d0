// repair, of a tree with one to three lengths an entry.
ghost use Rattle.model.specs.Numbered.{numbered};
ghost use Rattle.std.specs.Prelude.{◌≡◌, ◌&&◌, ℕ, ◌<◌, ◌≤◌, length};
ghost use Rattle.model.specs.State.{state};
ghost use Rattle.model.specs.Kind.{kind_of};
ghost use Rattle.model.specs.Calls.{reply};
ghost use Rattle.model.specs.Mend.{no_finger, is_fit};
ghost use Rattle.model.specs.Repair.{mend_if, repair_if};
ghost use Rattle.calls_repair_test.specs.Fit.{FreshQueue};
ghost use Rattle.calls_repair.specs.Job.{Open};

use crate::mend::mend;
use calls_repair_test::fit::is_fit;
use model::answer::Reply;
use model::head::Head;
use model::refusal::Refusal;
use model::shape::Shape;
use tree_open::open::open_areas;

// The head without its finger.
fn without_finger(head: Head) -> Head
    ensures { result ≡ no_finger head }
{
    Head {
        finger: None,
        ..head
    }
}

// The tree put right where its trusted words, and the seats' by `fair`, are those of a sound tree, else refused by Unsound.
fn by_queue(
    ordered: bool,
    fair: bool,
    head: Head,
    leaves: &mut [u32],
    inners: &mut [u32],
    homes: &mut [u32],
    g: Shape,
    order: &mut [u16],
    upper: &mut [u8],
    lower: &mut [u8],
    named: &mut [u8],
) -> Reply<u32>
    requires { Open head g leaves.old inners.old homes.old × FreshQueue head g (length order.old) upper.old lower.old named.old }
    ensures { (effect : ℕ) (w : Open head g leaves.old inners.old homes.old) → reply (state result.head leaves.new inners.new homes.new) (numbered result.answer) ≡ mend_if (kind_of w.views effect ordered) (is_fit (kind_of w.views effect ordered) (state head leaves.old inners.old homes.old) && fair) (state head leaves.old inners.old homes.old) }
{
    let fit = is_fit(head, leaves, inners, g, ordered, order, upper, lower, named);
    if !fit.ok || !fair {
        return Reply {
            head,
            answer: Err(Refusal::Unsound),
        };
    }
    let n = mend(head, leaves, inners, homes, g, order, fit.start);
    Reply {
        head: without_finger(head),
        answer: Ok(n as u32),
    }
}

// With a queue that holds inner nodes, leaves and ids, and marks of a byte each: 384 KiB.
fn with_queue(
    ordered: bool,
    fair: bool,
    head: Head,
    leaves: &mut [u32],
    inners: &mut [u32],
    homes: &mut [u32],
    g: Shape,
) -> Reply<u32>
    requires { Open head g leaves.old inners.old homes.old }
    ensures { (effect : ℕ) (w : Open head g leaves.old inners.old homes.old) → reply (state result.head leaves.new inners.new homes.new) (numbered result.answer) ≡ mend_if (kind_of w.views effect ordered) (is_fit (kind_of w.views effect ordered) (state head leaves.old inners.old homes.old) && fair) (state head leaves.old inners.old homes.old) }
{
    let mut order: [u16; 131072] = [0; 131072];
    let mut upper: [u8; 32768] = [0; 32768];
    let mut lower: [u8; 32768] = [0; 32768];
    let mut named: [u8; 65536] = [0; 65536];
    by_queue(
        ordered, fair, head, leaves, inners, homes, g, &mut order, &mut upper, &mut lower,
        &mut named,
    )
}

// Repairs a tree with views lengths an entry, positions answered in view effect; ordered: the first two lengths are a lowest and a highest
// one; fair: whether the seats' words are those of a sound tree.
pub fn repair(
    views: usize,
    effect: usize,
    ordered: bool,
    fair: bool,
    head: Head,
    leaves: &mut [u32],
    inners: &mut [u32],
    homes: &mut [u32],
) -> Reply<u32>
    requires { (1 ≤ views) × (views ≤ 3) × (effect < views) }
    ensures { reply (state result.head leaves.new inners.new homes.new) (numbered result.answer) ≡ repair_if (kind_of views effect ordered) fair (state head leaves.old inners.old homes.old) }
{
    match open_areas(views, head.fan, head.limit, leaves, inners, homes) {
        Err(why) => Reply {
            head,
            answer: Err(why),
        },
        Ok(g) => with_queue(ordered, fair, head, leaves, inners, homes, g),
    }
}
