// A device of one slot, written from outside the crate of the interface.
ghost use Rattle.std.specs.Prelude.{◌^◌, ◌<◌, [], IfSome};
ghost use Rattle.std.proofs.Props.{props};
ghost use Rattle.rows.specs.Widths.{places_of};

use device::checks::{check_number, check_row, check_slot};
use device::device::RowDevice;
use rows::refusal::Refusal;
use rows::row::Row;
use rows::width::Width;

#[derive(Drop)]
struct OneSlot {
    width: Width,
    row: Option<Row>,
    muted: bool,
    ghost fits: { IfSome row (λ r. r.care < 2 ^ places_of width) } by { Prim.hlevel props },
}

impl OneSlot {
    fn new(width: Width) -> OneSlot {
        OneSlot {
            width,
            row: None,
            muted: false,
        }
    }
}

impl RowDevice for OneSlot {
    ghost use Rattle.device_tests.specs.OneSlots.{one_slot_state, one_slot_lawful};

    ghost state = { λ d. one_slot_state d.width d.row d.muted };

    ghost lawful = { λ d. one_slot_lawful d.width d.row d.muted d.fits };

    ghost levels = { λ _. [] };

    ghost beneath = { λ _. tt };

    // nothing lies beside its meaning
    ghost keeps = { λ _ _ _. Unit {0} };

    ghost keeps_at_rest = { λ _. tt };

    ghost keeps_on = { λ _ _ _ _ _ _ _. tt };

    fn put(&mut self, slot: usize, row: Row) -> Result<(), Refusal> {
        check_slot(slot, 1)?;
        check_row(row, self.width)?;
        self.row = Some(row);
        Ok(())
    }

    fn empty(&mut self, slot: usize) -> Result<(), Refusal> {
        check_slot(slot, 1)?;
        self.row = None;
        Ok(())
    }

    fn read(&self, slot: usize) -> Result<Option<Row>, Refusal> {
        check_slot(slot, 1)?;
        Ok(self.row)
    }

    fn mute(&mut self, on: bool) {
        self.muted = on;
    }

    fn ask(&self, number: u64) -> Result<bool, Refusal> {
        check_number(number, self.width)?;
        Ok(!self.muted && self.row.is_some_and(|row| row.takes(number)))
    }

    fn width(&self) -> Width {
        self.width
    }

    fn slot_count(&self) -> usize {
        1
    }
}

#[cfg(test)]
mod tests {
    use super::OneSlot;
    use device::call::DeviceCall;
    use device::replay::answer_alike;
    use rows::row::Row;
    use rows::width::Width;
    use slot_table::{SlotRecord, SlotTable};
    use std::test::Fail;

    #[test]
    fn answers_as_a_table_of_one_record(rt: HostRuntime) -> Result<(), Fail> {
        let width = Width::try_from(5)?;
        let mut one = OneSlot::new(width);
        let mut records = [SlotRecord::EMPTY; 1];
        let mut table = SlotTable::new(width, &mut records);
        let calls = [
            DeviceCall::Put {
                slot: 0,
                row: Row::new(0b10010, 0b11011),
            },
            DeviceCall::Put {
                slot: 1,
                row: Row::new(0, 0),
            },
            DeviceCall::Ask { number: 0b10110 },
            DeviceCall::Ask { number: 32 },
            DeviceCall::Mute { on: true },
            DeviceCall::Ask { number: 0b10110 },
            DeviceCall::Read { slot: 0 },
            DeviceCall::Empty { slot: 0 },
            DeviceCall::Read { slot: 0 },
        ];
        assert!(rt; answer_alike(&mut one, &mut table, &calls));
        Ok(())
    }
}
