// A filter hands each question to its device.
ghost use Rattle.device.specs.KeptBeside.{KeptBeside};
ghost use Rattle.device.specs.KeptBesideLaws.{kept_at_rest, kept_on};

use super::calls::TAG;
use column_table::ColumnTable;
use device::device::RowDevice;
use device::new_device::NewDevice;
use filter::filter::Filter;
use rows::range::Range;
use rows::refusal::Refusal;
use rows::row::Row;
use rows::width::Width;
use std::cell::Cell;
use std::test::Fail;

// It means what the device below means, and counts the questions that it is asked.
#[derive(Drop)]
struct Asked<D> {
    questions: Cell<u32>,
    below: D,
}

impl<D: RowDevice> RowDevice for Asked<D> {
    ghost state = { λ a. D.state a.below };

    ghost lawful = { λ a. D.lawful a.below };

    ghost levels = { λ a. D.levels a.below };

    ghost beneath = { λ a. D.beneath a.below };

    ghost keeps = { λ a written e. KeptBeside D.RowDevice a.below written e.below };

    ghost keeps_at_rest = { λ a. kept_at_rest D.RowDevice a.below };

    ghost keeps_on = { λ a e f before after g h.
        kept_on D.RowDevice a.below e.below f.below before after g h };

    fn put(&mut self, slot: usize, row: Row) -> Result<(), Refusal> {
        self.below.put(slot, row)
    }

    fn empty(&mut self, slot: usize) -> Result<(), Refusal> {
        self.below.empty(slot)
    }

    fn read(&self, slot: usize) -> Result<Option<Row>, Refusal> {
        self.below.read(slot)
    }

    fn mute(&mut self, on: bool) {
        self.below.mute(on);
    }

    fn ask(&self, number: u64) -> Result<bool, Refusal> {
        self.questions.set(self.questions.get().saturating_add(1));
        self.below.ask(number)
    }

    fn width(&self) -> Width {
        self.below.width()
    }

    fn slot_count(&self) -> usize {
        self.below.slot_count()
    }
}

#[test]
fn each_question_goes_to_the_device(rt: HostRuntime) -> Result<(), Fail> {
    let below = ColumnTable::new(Width::try_from(3)?, 8);
    let mut filter = Filter::open(
        Asked {
            questions: Cell::new(0),
            below,
        },
        TAG,
    );
    let token = filter.hold().unwrap();
    assert_eq!(rt; filter.add(&token, Range::new(1, 4)), Ok(3));
    assert_eq!(rt; filter.ask(1), Err(Refusal::FilterHeld));
    filter.release(token).unwrap();
    for number in 0..8 {
        assert_eq!(rt; filter.ask(number), Ok(Range::new(1, 4).contains(number)));
    }
    assert_eq!(rt; filter.ask(8), Err(Refusal::NumberOutsideWidth));
    let asked = filter.into_device();
    assert_eq!(rt; asked.questions.get(), 9);
    Ok(())
}
