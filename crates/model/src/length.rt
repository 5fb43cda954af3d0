// Views, lengths and slots.
ghost use Rattle.std.specs.Prelude.{◌≡◌};
ghost use Rattle.model.specs.Length.{view_number, length_in_view, slot_of, list_of};
ghost use Rattle.model.specs.Kind.{base, too_many_lines};

use crate::number::NONE;

// What a length or a position is measured in: the characters of either version, or visible line ends.
#[derive(Clone, Copy)]
pub enum View {
    Prepare,
    Effect,
    Lines,
}

impl View {
    // The column of a slot's lengths that holds this view's.
    pub fn number(self) -> usize
        ensures { result ≡ view_number self }
    {
        match self {
            View::Prepare => 0,
            View::Effect => 1,
            View::Lines => 2,
        }
    }
}

// A length in each view.
#[derive(Clone, Copy)]
pub struct Lengths {
    pub prepare: u32,
    pub effect: u32,
    pub lines: u32,
}

impl Lengths {
    pub fn of(self, view: View) -> u32
        ensures { result ≡ length_in_view self view }
    {
        match view {
            View::Prepare => self.prepare,
            View::Effect => self.effect,
            View::Lines => self.lines,
        }
    }

    // More line ends than an entry may have.
    pub fn overlong(self) -> bool
        ensures { result ≡ too_many_lines base (list_of self) }
    {
        65535 < self.lines
    }
}

// A child and its lengths: an entry in a leaf, a node and its totals in an inner node.
#[derive(Clone, Copy)]
pub struct Slot {
    pub child: u32,
    pub prepare_len: u32,
    pub effect_len: u32,
    pub line_ends: u32,
}

impl Slot {
    // What an unused slot holds; its child also marks the root's missing parent.
    pub const EMPTY: Slot = Slot {
        child: NONE,
        prepare_len: 0,
        effect_len: 0,
        line_ends: 0,
    };

    pub fn new(child: u32, lengths: Lengths) -> Slot
        ensures { result ≡ slot_of child lengths }
    {
        Slot {
            child: child,
            prepare_len: lengths.prepare,
            effect_len: lengths.effect,
            line_ends: lengths.lines,
        }
    }
}
