// A device that counts what is written to the device below it, from outside the crate of the interface.
ghost use Rattle.std.specs.Prelude.{◌≡◌, ◌+◌, ◌<◌, min, replicate, slice_index, slice_set};
ghost use Rattle.std.specs.List.{Contains};
ghost use Rattle.device.specs.Exchanges.{calls_of};
ghost use Rattle.device.specs.KeptBeside.{KeptBeside};
ghost use Rattle.device.specs.KeptBesideLaws.{kept_at_rest, kept_on};
ghost use Rattle.device.specs.Replays.{answered, writes_of};
ghost use Rattle.device_tests.specs.Counts.{KeepsCounts};
ghost use Rattle.device_tests.specs.CountLaws.{counts_at_rest, counts_kept_on};

use device::call::DeviceExchange;
use device::device::RowDevice;
use device::replay::replay;
use rows::refusal::Refusal;
use rows::row::Row;
use rows::slots::MOST_SLOTS;
use rows::width::Width;

// It means what the device below means, and beside that tells of each slot how often it was put or emptied.
#[derive(Drop)]
struct Counting<D> {
    counts: [u32; MOST_SLOTS],
    below: D,
}

impl<D: RowDevice> Counting<D> {
    fn new(below: D) -> Counting<D>
        ensures counts { result.counts ≡ replicate 120 0 }
        ensures below { result.below ≡ below }
    {
        Counting {
            counts: [0; MOST_SLOTS],
            below,
        }
    }

    // How often the slot was put or emptied.
    fn count(&self, slot: usize) -> u32
        requires within { slot < 120 }
        ensures value { result ≡ slice_index self.now.counts slot }
    {
        self.counts[slot]
    }

    // The slot was put or emptied.
    fn count_write(&mut self, slot: usize)
        requires within { slot < 120 }
        ensures counted { self.new.counts ≡ slice_set self.old.counts slot (min (slice_index self.old.counts slot + 1) u32.MAX) }
        ensures below { self.new.below ≡ self.old.below }
    {
        self.counts[slot] = self.counts[slot].saturating_add(1);
    }
}

impl<D: RowDevice> RowDevice for Counting<D> {
    ghost state = { λ c. D.state c.below };

    ghost lawful = { λ c. D.lawful c.below };

    ghost levels = { λ c. D.levels c.below };

    ghost beneath = { λ c. D.beneath c.below };

    // the counts of the other slots stay, and so does what the device below keeps
    ghost keeps = { λ c written e. KeepsCounts c.counts written e.counts × KeptBeside D.RowDevice c.below written e.below };

    ghost keeps_at_rest = { λ c. (counts_at_rest c.counts, kept_at_rest D.RowDevice c.below) };

    ghost keeps_on = { λ c e f before after g h. (counts_kept_on c.counts e.counts f.counts before after g.0 h.0, kept_on D.RowDevice c.below e.below f.below before after g.1 h.1) };

    fn put(&mut self, slot: usize, row: Row) -> Result<(), Refusal> {
        self.below.put(slot, row)?;
        self.count_write(slot);
        Ok(())
    }

    fn empty(&mut self, slot: usize) -> Result<(), Refusal> {
        self.below.empty(slot)?;
        self.count_write(slot);
        Ok(())
    }

    fn read(&self, slot: usize) -> Result<Option<Row>, Refusal> {
        let held = self.below.read(slot)?;
        Ok(held)
    }

    fn mute(&mut self, on: bool) {
        self.below.mute(on);
    }

    fn ask(&self, number: u64) -> Result<bool, Refusal> {
        let said = self.below.ask(number)?;
        Ok(said)
    }

    fn width(&self) -> Width {
        self.below.width()
    }

    fn slot_count(&self) -> usize {
        self.below.slot_count()
    }
}

// Makes the calls, and tells how often the slot was put or emptied: as often as before, if they write only other slots.
// That follows from what devices keep, whichever device lies below.
fn count_after<D: RowDevice>(
    counting: &mut Counting<D>,
    exchanges: &mut [DeviceExchange],
    slot: usize,
) -> u32
    requires within { slot < 120 }
    ensures answers { exchanges.new ≡ answered (D.state counting.old.below) exchanges.old }
    ensures untouched { ¬ Contains (writes_of (D.state counting.old.below) (calls_of exchanges.old)) slot →
        result ≡ slice_index counting.old.counts slot }
{
    replay(counting, exchanges);
    counting.count(slot)
}

#[cfg(test)]
mod tests {
    use super::{Counting, count_after};
    use column_table::ColumnTable;
    use device::call::{DeviceAnswer, DeviceCall, DeviceExchange};
    use device::device::RowDevice;
    use device::new_device::NewDevice;
    use device::replay::answer_alike;
    use rows::refusal::Refusal;
    use rows::row::Row;
    use rows::width::Width;
    use slot_table::{SlotRecord, SlotTable};
    use std::process::Abort;
    use std::test::Fail;

    // Of three slots and four places: what is refused counts nothing, and neither does a look nor the mute.
    fn counts_granted_writes<D: RowDevice + Drop>(rt: &impl Abort, below: D) {
        let mut counting = Counting::new(below);
        let row = Row::new(0b1001, 0b1101);
        assert_eq!(rt; counting.put(0, row), Ok(()));
        assert_eq!(rt; counting.put(2, row), Ok(()));
        assert_eq!(rt; counting.empty(2), Ok(()));
        assert_eq!(rt; counting.empty(2), Ok(()));
        let wide = Row::new(0, 0b10000);
        assert_eq!(rt; counting.put(0, wide), Err(Refusal::RowOutsideWidth));
        assert_eq!(rt; counting.put(3, row), Err(Refusal::NoSuchSlot));
        assert_eq!(rt; counting.empty(3), Err(Refusal::NoSuchSlot));
        counting.mute(true);
        assert_eq!(rt; counting.ask(0b1011), Ok(false));
        counting.mute(false);
        assert_eq!(rt; counting.ask(0b1011), Ok(true));
        assert_eq!(rt; counting.read(0), Ok(Some(row)));
        assert_eq!(rt; counting.read(2), Ok(None));
        assert_eq!(rt; counting.count(0), 1);
        assert_eq!(rt; counting.count(1), 0);
        assert_eq!(rt; counting.count(2), 3);
        assert_eq!(rt; counting.count(3), 0);
    }

    #[test]
    fn counts_over_both_tables(rt: HostRuntime) -> Result<(), Fail> {
        let width = Width::try_from(4)?;
        counts_granted_writes(&rt, ColumnTable::new(width, 3));
        let mut records = [SlotRecord::EMPTY; 3];
        counts_granted_writes(&rt, SlotTable::new(width, &mut records));
        Ok(())
    }

    #[test]
    fn answers_as_a_table_that_does_not_count(rt: HostRuntime) -> Result<(), Fail> {
        let width = Width::try_from(4)?;
        let calls = [
            DeviceCall::Put {
                slot: 1,
                row: Row::new(0b1001, 0b1101),
            },
            DeviceCall::Put {
                slot: 2,
                row: Row::new(0, 0b10000),
            },
            DeviceCall::Read { slot: 1 },
            DeviceCall::Mute { on: false },
            DeviceCall::Ask { number: 0b1011 },
            DeviceCall::Empty { slot: 1 },
            DeviceCall::Empty { slot: 3 },
        ];
        let mut counting = Counting::new(ColumnTable::new(width, 3));
        let mut table = ColumnTable::new(width, 3);
        assert!(rt; answer_alike(&mut counting, &mut table, &calls));
        assert_eq!(rt; counting.count(0), 0);
        assert_eq!(rt; counting.count(1), 2);
        assert_eq!(rt; counting.count(2), 0);
        Ok(())
    }

    #[test]
    fn a_slot_that_is_not_written_has_its_count(rt: HostRuntime) -> Result<(), Fail> {
        let width = Width::try_from(4)?;
        let mut counting = Counting::new(ColumnTable::new(width, 3));
        let row = Row::new(0b1001, 0b1101);
        assert_eq!(rt; counting.put(0, row), Ok(()));
        let calls = [
            DeviceCall::Put { slot: 1, row },
            DeviceCall::Put { slot: 3, row },
            DeviceCall::Read { slot: 0 },
        ];
        let mut exchanges = calls.map(|call| DeviceExchange {
            call,
            answer: Err(Refusal::RowOutsideWidth),
        });
        assert_eq!(rt; count_after(&mut counting, &mut exchanges, 0), 1);
        assert_eq!(rt; count_after(&mut counting, &mut exchanges, 1), 2);
        assert_eq!(rt; exchanges[2].answer, Ok(DeviceAnswer::Holds(Some(row))));
        Ok(())
    }
}
