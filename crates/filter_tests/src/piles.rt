// The same through a pile of layers.
use super::calls::{TAG, refused, run};
use column_table::ColumnTable;
use device::device::RowDevice;
use device::new_device::NewDevice;
use filter_calls::alike::answer_alike;
use filter_calls::call::{FilterAnswer, FilterCall};
use filter_calls::closing::replay_and_close;
use layers::flip::Flip;
use layers::layer::Layer;
use layers::turn::Turn;
use rows::range::Range;
use rows::refusal::Refusal;
use rows::row::Row;
use rows::width::Width;
use std::test::Fail;

// A flip of the second place over a turn over a column table.
fn pile(width: Width, slots: usize) -> Layer<Flip, Layer<Turn, ColumnTable>> {
    let table = ColumnTable::new(width, slots);
    Layer::new(Flip { mask: 0b0100 }, Layer::new(Turn, table))
}

#[test]
fn a_pile_answers_as_a_table_does(rt: HostRuntime) -> Result<(), Fail> {
    let width = Width::try_from(4)?;
    let mut exchanges = [
        FilterCall::Hold,
        FilterCall::add(TAG, Range::new(12, 15)),
        FilterCall::add(TAG, Range::new(0, 1)),
        FilterCall::add(TAG, Range::new(5, 5)),
        FilterCall::ReportRun { index: 0 },
        FilterCall::ReportSlot { slot: 1 },
    ]
    .map(FilterCall::unanswered);
    let mut beside = exchanges;
    let table = ColumnTable::new(width, 2);
    let (_, table) = answer_alike(pile(width, 2), table, TAG, &mut exchanges, &mut beside);
    assert_eq!(rt; exchanges[2].answer, Ok(FilterAnswer::Rows(2)));
    assert_eq!(rt; exchanges[3].answer, refused(Refusal::TooManyRows));
    assert_eq!(rt; exchanges[4].answer, run((12, 1)));
    assert_eq!(rt; exchanges[5].answer, beside[5].answer);
    assert_eq!(rt; table.read(1), Ok(Some(Row::new(0b0000, 0b1110))));
    Ok(())
}

#[test]
fn rows_lie_carried_beneath_a_pile(rt: HostRuntime) -> Result<(), Fail> {
    let width = Width::try_from(4)?;
    let mut exchanges = [
        FilterCall::Hold,
        FilterCall::add(TAG, Range::new(0, 15)),
        FilterCall::drop(TAG, Range::new(2, 11)),
        FilterCall::ReportSlot { slot: 0 },
    ]
    .map(FilterCall::unanswered);
    let pile = replay_and_close(pile(width, 3), TAG, &mut exchanges);
    let on_top = FilterAnswer::Slot(Some(Row::new(0b1100, 0b1100)));
    assert_eq!(rt; exchanges[3].answer, Ok(on_top));
    assert_eq!(rt; pile.ask(12), Ok(true));
    assert_eq!(rt; pile.ask(2), Ok(false));
    let (_, turn) = pile.into_parts();
    let (_, table) = turn.into_parts();
    assert_eq!(rt; table.read(0), Ok(Some(Row::new(0b0001, 0b0011))));
    assert_eq!(rt; table.read(1), Ok(Some(Row::new(0b0010, 0b0111))));
    assert_eq!(rt; table.read(2), Ok(None));
    Ok(())
}
