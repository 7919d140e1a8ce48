// The slots of a device as they are printed.
ghost use Rattle.std.specs.Prelude.{Some};
ghost use Rattle.rows.specs.Widths.{places_of};
ghost use Rattle.shown.specs.Slots.{slot_text, slots_text};

use device::device::RowDevice;
use rows::row::Row;
use rows::width::Width;
use std::fmt;

// What a slot holds at a width: a space and the row's symbols, or " empty".
#[derive(Clone, Copy)]
pub struct ShownSlot {
    pub width: Width,
    pub held: Option<Row>,
}

impl fmt::Display for ShownSlot {
    ghost output = { λ slot. Some (slot_text (places_of slot.width) slot.held) };

    fn fmt<W: fmt::Write>(&self, f: &mut fmt::Formatter<W>) -> fmt::Result {
        match self.held {
            Some(row) => write!(f, " {}", row.text(self.width)),
            None => write!(f, " empty"),
        }
    }
}

// What each slot of a device holds, from slot 0 upward.
#[derive(Clone, Copy)]
pub struct ShownSlots<'a, D> {
    pub device: &'a D,
}

impl<D: RowDevice> fmt::Display for ShownSlots<'_, D> {
    ghost output = { λ slots. Some (slots_text (D.state slots.device.now)) };

    fn fmt<W: fmt::Write>(&self, f: &mut fmt::Formatter<W>) -> fmt::Result {
        let width = self.device.width();
        for slot in 0..self.device.slot_count() {
            let held = self.device.read(slot).unwrap();
            write!(f, "{}", ShownSlot { width, held })?;
        }
        Ok(())
    }
}
