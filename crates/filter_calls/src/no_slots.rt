// A device with no slots.
ghost use Rattle.std.specs.Prelude.{[]};
ghost use Rattle.rows.specs.Widths.{places_of};

use device::checks::check_number;
use device::device::RowDevice;
use rows::refusal::Refusal;
use rows::row::Row;
use rows::width::Width;

// It holds nothing: a filter over it is opened for its token alone.
#[derive(Drop)]
pub(super) struct NoSlots {
    width: Width,
    muted: bool,
}

impl NoSlots {
    pub(super) fn new(width: Width) -> NoSlots {
        NoSlots {
            width,
            muted: false,
        }
    }
}

impl RowDevice for NoSlots {
    ghost use Rattle.rows.proofs.Widths.{places_some, places_most};
    ghost use Rattle.std.proofs.Common.{lit≤};

    ghost state = { λ d. record { width = places_of d.width; slots = []; muted = d.muted } };

    ghost lawful = { λ d. record {
      some_place = places_some d.width;
      few_places = places_most d.width;
      few_slots = lit≤ tt;
      rows_within = tt;
    } };

    ghost levels = { λ _. [] };

    ghost beneath = { λ _. tt };

    // nothing lies beside its meaning
    ghost keeps = { λ _ _ _. Unit {0} };

    ghost keeps_at_rest = { λ _. tt };

    ghost keeps_on = { λ _ _ _ _ _ _ _. tt };

    fn put(&mut self, _slot: usize, _row: Row) -> Result<(), Refusal> {
        Err(Refusal::NoSuchSlot)
    }

    fn empty(&mut self, _slot: usize) -> Result<(), Refusal> {
        Err(Refusal::NoSuchSlot)
    }

    fn read(&self, _slot: usize) -> Result<Option<Row>, Refusal> {
        Err(Refusal::NoSuchSlot)
    }

    fn mute(&mut self, on: bool) {
        self.muted = on;
    }

    fn ask(&self, number: u64) -> Result<bool, Refusal> {
        check_number(number, self.width)?;
        Ok(false)
    }

    fn width(&self) -> Width {
        self.width
    }

    fn slot_count(&self) -> usize {
        0
    }
}
