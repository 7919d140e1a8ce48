// Sets of slots of a column table.
ghost use Rattle.std.specs.Prelude.{◌≡◌, ℕ, ◌&&◌, ◌==◌, if◌then◌else◌, nat_eq};
ghost use Rattle.covers.specs.Digits.{digit};

use super::table_slot::TableSlot;

// A set of slots, each slot a bit: 128 of them, where `has_one` of the numbers is over 64 digits.
#[derive(Clone, Copy)]
pub struct SlotSet {
    pub(super) bits: u128,
}

impl SlotSet {
    // No slot.
    pub(super) const EMPTY: SlotSet = SlotSet { bits: 0 };

    pub(super) fn is_empty(self) -> bool
        ensures value { result ≡ (self.bits == 0) }
    {
        self.bits == 0
    }

    // Whether the slot is in the set.
    pub(super) fn has(self, slot: TableSlot) -> bool
        ensures value { result ≡ digit slot.index self.bits }
    {
        (self.bits >> slot.index) & 1 == 1
    }

    // Puts the slot into the set, or takes it out.
    pub(super) fn set(&mut self, slot: TableSlot, inside: bool)
        ensures value { (i : ℕ) → digit i self.new.bits ≡ (if nat_eq i slot.index then inside else digit i self.old.bits) }
    {
        let bit = 1u128 << slot.index;
        if inside {
            self.bits |= bit;
        } else {
            self.bits &= !bit;
        }
    }

    // Keeps only the slots that are in the other set, too.
    pub(super) fn intersect(&mut self, other: SlotSet)
        ensures value { (i : ℕ) → digit i self.new.bits ≡ (digit i self.old.bits && digit i other.bits) }
    {
        self.bits &= other.bits;
    }
}
