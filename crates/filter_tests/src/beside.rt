// A filter in one value with memory that is lent.
ghost use Rattle.std.specs.Prelude.{[]};
ghost use Rattle.rows.specs.Widths.{places_of};

use super::calls::TAG;
use device::checks::check_number;
use device::device::RowDevice;
use filter::filter::Filter;
use rows::refusal::Refusal;
use rows::row::Row;
use rows::width::Width;
use std::test::Fail;

// A device with no slots, which counts in lent memory how often its mute is turned.
#[derive(Drop)]
struct Counted<'a> {
    width: Width,
    muted: bool,
    count: &'a mut u32,
}

impl RowDevice for Counted<'_> {
    ghost use Rattle.rows.proofs.Widths.{places_some, places_most};
    ghost use Rattle.std.proofs.Common.{lit≤};

    ghost state = { λ d. record { width = places_of d.width; slots = []; muted = d.muted } };

    ghost lawful = { λ d. record {
      some_place = places_some d.width;
      few_places = places_most d.width;
      few_slots = lit≤ tt;
      rows_within = tt;
    } };

    ghost levels = { λ _. [] };

    ghost beneath = { λ _. tt };

    ghost keeps = { λ _ _ _. Unit {0} };

    ghost keeps_at_rest = { λ _. tt };

    ghost keeps_on = { λ _ _ _ _ _ _ _. tt };

    fn put(&mut self, _slot: usize, _row: Row) -> Result<(), Refusal> {
        Err(Refusal::NoSuchSlot)
    }

    fn empty(&mut self, _slot: usize) -> Result<(), Refusal> {
        Err(Refusal::NoSuchSlot)
    }

    fn read(&self, _slot: usize) -> Result<Option<Row>, Refusal> {
        Err(Refusal::NoSuchSlot)
    }

    fn mute(&mut self, on: bool) {
        *self.count = self.count.saturating_add(1);
        self.muted = on;
    }

    fn ask(&self, number: u64) -> Result<bool, Refusal> {
        check_number(number, self.width)?;
        Ok(false)
    }

    fn width(&self) -> Width {
        self.width
    }

    fn slot_count(&self) -> usize {
        0
    }
}

// A filter, and beside it where questions to it are counted; nothing if the places are no width.
fn opened<'a>(
    places: u64,
    turns: &'a mut u32,
    questions: &'a mut u32,
) -> Option<(Filter<Counted<'a>>, &'a mut u32)> {
    let width = Width::try_from(places).ok()?;
    let muted = true;
    let device = Counted {
        width,
        muted,
        count: turns,
    };
    Some((Filter::open(device, TAG), questions))
}

// A filter by itself that is asked, and ends.
fn asked(filter: Filter<Counted<'_>>, number: u64) -> Option<bool> {
    filter.ask(number).ok()
}

// A filter that ends in an option.
fn let_go(filter: Option<Filter<Counted<'_>>>) -> bool {
    filter.is_some()
}

#[test]
fn a_filter_and_a_count_are_one_value(rt: HostRuntime) -> Result<(), Fail> {
    let mut turns = 0;
    let mut questions = 0;
    if let Some((filter, questions)) = opened(4, &mut turns, &mut questions) {
        *questions = questions.saturating_add(1);
        assert_eq!(rt; asked(filter, 15), Some(false));
    }
    assert_eq!(rt; turns, 1);
    assert_eq!(rt; questions, 1);
    Ok(())
}

#[test]
fn a_filter_ends_in_an_option(rt: HostRuntime) -> Result<(), Fail> {
    let mut turns = 0;
    let device = Counted {
        width: Width::try_from(4)?,
        muted: true,
        count: &mut turns,
    };
    let filter = Filter::open(device, TAG);
    assert!(rt; let_go(Some(filter)));
    assert_eq!(rt; turns, 1);
    Ok(())
}
