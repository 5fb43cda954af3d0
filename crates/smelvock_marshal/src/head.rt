// The head in the first nineteen of the thirty-six words that a host lends; its last two are the stamp, the low one first. Behind them
// stand the seats' seventeen words, the first of them 0 or 1.
ghost use Rattle.std.specs.Prelude.{◌≡◌, true, ◌||◌, ◌<◌, ltb, eqb, [], ◌∷◌, ◌++◌, length, get_or, take, drop, replicate};
ghost use Rattle.std.proofs.lemmas.List.Edits.{sets};
ghost use Rattle.model.specs.Place.{with_finger};
ghost use Rattle.smelvock_marshal.specs.Flat.{bad_head, bad_seats, bad_stored, stamp_from, held_from, head_from, present_of, finger_of, count_words, finger_words, stamp_words, head_words, head_after, InLeaf};

use model::head::{Finger, Head};
use model::number::NodeNo;

// Whether it isn't thirty-six words, or has neither 0 nor 1 for its finger.
pub fn bad_head(head: &[u32]) -> bool
    ensures { result ≡ bad_head head.now }
{
    head.len() != 36 || 1 < head[7]
}

// The same, or whether the seats' first word is neither 0 nor 1, for the calls that know seats.
pub fn bad_seats(head: &[u32]) -> bool
    ensures { result ≡ bad_seats head.now }
{
    bad_head(head) || 1 < head[19]
}

// Whether a stored head isn't thirty-six words, or has neither 0 nor 1 for its seats: its finger may be any words.
pub fn bad_stored(head: &[u32]) -> bool
    ensures { result ≡ bad_stored head.now }
{
    head.len() != 36 || 1 < head[19]
}

// A head or seats that are bad, or a flag that is neither 0 nor 1.
pub fn bad_seated_flag(head: &[u32], flag: u32) -> bool
    ensures { result ≡ (bad_seats head.now || ltb 1 flag) }
{
    bad_seats(head) || 1 < flag
}

// A bad head, or a flag that is neither 0 nor 1.
pub fn bad_flag(head: &[u32], flag: u32) -> bool
    ensures { result ≡ (bad_head head.now || ltb 1 flag) }
{
    bad_head(head) || 1 < flag
}

// A bad head, or a view that isn't 0, 1 or 2.
pub fn bad_view(head: &[u32], view: u32) -> bool
    ensures { result ≡ (bad_head head.now || ltb 2 view) }
{
    bad_head(head) || 2 < view
}

fn held_from(head: &[u32]) -> Option<Finger>
    requires { length head.now ≡ 36 }
    ensures { result ≡ held_from head.now }
{
    if head[7] == 0 {
        return None;
    }
    Some(Finger {
        view: head[8],
        leaf: head[9],
        start: head[10],
        effect: head[11],
        slot: head[12],
        within: head[13],
        effect_within: head[14],
        prepare: head[15],
        prepare_within: head[16],
    })
}

// A word as a wider number.
fn wide(x: u32) -> u64
    ensures { (result ≡ x) × (result < 4294967296) }
{
    x as u64
}

// The low one is a word, which writing the stamp back turns on.
fn stamp_from(head: &[u32]) -> u64
    requires { length head.now ≡ 36 }
    ensures { (result ≡ stamp_from head.now) × (get_or head.now 17 0 < 4294967296) }
{
    wide(head[17]) + 4294967296 * wide(head[18])
}

pub fn head_from(head: &[u32]) -> Head
    requires { length head.now ≡ 36 }
    ensures { (result ≡ head_from head.now) × (get_or head.now 17 0 < 4294967296) }
{
    let finger = held_from(head);
    let stamp = stamp_from(head);
    Head {
        fan: head[0],
        limit: head[1],
        root: NodeNo(head[2]),
        levels: head[3],
        leaves: head[4],
        inners: head[5],
        entries: head[6],
        stamp,
        finger,
    }
}

fn present_of(finger: Option<Finger>) -> u32
    ensures { result ≡ present_of finger }
{
    match finger {
        None => 0,
        Some(_) => 1,
    }
}

// Whether there is a finger.
pub fn is_held(finger: Option<Finger>) -> bool
    ensures { result ≡ eqb (present_of finger) 1 }
{
    present_of(finger) == 1
}

// The finger's words: zeros where there is none.
fn finger_of(finger: Option<Finger>) -> Finger
    ensures { result ≡ finger_of finger }
{
    match finger {
        None => Finger {
            view: 0,
            leaf: 0,
            start: 0,
            effect: 0,
            slot: 0,
            within: 0,
            effect_within: 0,
            prepare: 0,
            prepare_within: 0,
        },
        Some(f) => f,
    }
}

// The finger's ten words.
fn put_finger(head: &mut [u32], finger: Option<Finger>)
    requires { length head.old ≡ 36 }
    ensures { head.new ≡ take 7 head.old ++ finger_words finger ++ drop 17 head.old }
{
    let present = present_of(finger);
    let f = finger_of(finger);
    head[7] = present;
    head[8] = f.view;
    head[9] = f.leaf;
    head[10] = f.start;
    head[11] = f.effect;
    head[12] = f.slot;
    head[13] = f.within;
    head[14] = f.effect_within;
    head[15] = f.prepare;
    head[16] = f.prepare_within;
}

// Of those, the slot and what stands before it in the leaf.
fn put_slot(head: &mut [u32], f: Finger)
    requires { length head.old ≡ 36 }
    ensures { head.new ≡ sets (sets head.old 12 (f.slot ∷ f.within ∷ f.effect_within ∷ [])) 16 (f.prepare_within ∷ []) }
{
    head[12] = f.slot;
    head[13] = f.within;
    head[14] = f.effect_within;
    head[16] = f.prepare_within;
}

// The others: whether there is one, its view and leaf, and where that starts.
fn put_leaf(head: &mut [u32], present: u32, f: Finger)
    requires { length head.old ≡ 36 }
    ensures { head.new ≡ sets (sets head.old 7 (present ∷ f.view ∷ f.leaf ∷ f.start ∷ f.effect ∷ [])) 15 (f.prepare ∷ []) }
{
    head[7] = present;
    head[8] = f.view;
    head[9] = f.leaf;
    head[10] = f.start;
    head[11] = f.effect;
    head[15] = f.prepare;
}

// The ten words of a finger; of one that stayed in its leaf four are enough.
fn put_found(head: &mut [u32], finger: Option<Finger>, stayed: bool)
    requires { (length head.old ≡ 36) × (stayed ≡ true → InLeaf finger head.old) }
    ensures { head.new ≡ take 7 head.old ++ finger_words finger ++ drop 17 head.old }
{
    let present = present_of(finger);
    let f = finger_of(finger);
    put_slot(head, f);
    if !stayed {
        put_leaf(head, present, f);
    }
}

// Root, levels and the counts.
fn put_counts(head: &mut [u32], h: Head)
    requires { length head.old ≡ 36 }
    ensures { head.new ≡ take 2 head.old ++ count_words h ++ drop 7 head.old }
{
    head[2] = h.root.0;
    head[3] = h.levels;
    head[4] = h.leaves;
    head[5] = h.inners;
    head[6] = h.entries;
}

fn put_stamp(head: &mut [u32], stamp: u64)
    requires { length head.old ≡ 36 }
    ensures { head.new ≡ take 17 head.old ++ stamp_words stamp ++ drop 19 head.old }
{
    head[17] = (stamp % 4294967296) as u32;
    head[18] = (stamp / 4294967296) as u32;
}

// The seats' words stay.
pub fn put_head(head: &mut [u32], h: Head)
    requires { length head.old ≡ 36 }
    ensures { head.new ≡ head_words h ++ drop 19 head.old }
{
    let finger = h.finger;
    head[0] = h.fan;
    head[1] = h.limit;
    put_counts(head, h);
    put_finger(head, finger);
    put_stamp(head, h.stamp);
}

// The seats' words of a tree without seats.
fn clear_seats(head: &mut [u32])
    requires { length head.old ≡ 36 }
    ensures { head.new ≡ take 19 head.old ++ replicate 17 0 }
{
    head[19..].fill(0);
}

// A new head without seats.
pub fn put_unseated(head: &mut [u32], h: Head)
    requires { length head.old ≡ 36 }
    ensures { head.new ≡ head_words h ++ replicate 17 0 }
{
    put_head(head, h);
    clear_seats(head);
}

// The head after a call that answered so: a refused one leaves it.
pub fn settle(head: &mut [u32], number: u32, h: Head)
    requires { length head.old ≡ 36 }
    ensures { head.new ≡ head_after number h head.old }
{
    if number == 0 {
        put_head(head, h);
    }
}

// The same after a call that leaves fan and limit: what doesn't change isn't written.
pub fn settle_grown(head: &mut [u32], number: u32, h: Head)
    requires { (length head.old ≡ 36) × (number ≡ 0 → (h.fan ≡ get_or head.old 0 0) × (h.limit ≡ get_or head.old 1 0)) }
    ensures { head.new ≡ head_after number h head.old }
{
    if number == 0 {
        let finger = h.finger;
        put_counts(head, h);
        put_finger(head, finger);
        put_stamp(head, h.stamp);
    }
}

// The same after a call that leaves all but the finger.
pub fn settle_finger(head: &mut [u32], number: u32, h: Head)
    requires { (length head.old ≡ 36) × (get_or head.old 17 0 < 4294967296) × (number ≡ 0 → h ≡ with_finger h.finger (head_from head.old)) }
    ensures { head.new ≡ head_after number h head.old }
{
    if number == 0 {
        let finger = h.finger;
        put_finger(head, finger);
    }
}

// The same after a call that may leave the finger in its leaf; stayed: it did.
pub fn settle_found(head: &mut [u32], number: u32, h: Head, stayed: bool)
    requires { (length head.old ≡ 36) × (get_or head.old 17 0 < 4294967296) × (number ≡ 0 → h ≡ with_finger h.finger (head_from head.old)) × (stayed ≡ true → InLeaf h.finger head.old) }
    ensures { head.new ≡ head_after number h head.old }
{
    if number == 0 {
        let finger = h.finger;
        put_found(head, finger, stayed);
    }
}
