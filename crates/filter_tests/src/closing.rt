// Filters that are closed after their calls: what the device holds then.
use super::calls::TAG;
use super::edits::seventeen_runs;
use column_table::ColumnTable;
use device::device::RowDevice;
use device::new_device::NewDevice;
use filter_calls::call::FilterCall;
use filter_calls::closing::replay_and_close;
use filter_calls::replay::{Replayed, replay};
use rows::range::Range;
use rows::row::Row;
use rows::width::Width;
use std::test::Fail;

#[test]
fn a_filter_closed_while_held_hears_again(rt: HostRuntime) -> Result<(), Fail> {
    let device = ColumnTable::new(Width::try_from(4)?, 2);
    let mut exchanges = [FilterCall::Hold, FilterCall::add(TAG, Range::new(8, 11))].map(
        FilterCall::unanswered,
    );
    let device = replay_and_close(device, TAG, &mut exchanges);
    assert_eq!(rt; device.ask(9), Ok(true));
    Ok(())
}

#[test]
fn sixteen_runs_have_a_row_each(rt: HostRuntime) -> Result<(), Fail> {
    let device = ColumnTable::new(Width::try_from(6)?, 120);
    let device = replay_and_close(device, TAG, &mut seventeen_runs());
    assert_eq!(rt; device.read(15), Ok(Some(Row::new(48, 0b111111))));
    assert_eq!(rt; device.read(16), Ok(None));
    Ok(())
}

#[test]
fn a_filter_goes_on_after_its_calls(rt: HostRuntime) -> Result<(), Fail> {
    let device = ColumnTable::new(Width::try_from(4)?, 2);
    let mut exchanges = [FilterCall::Hold, FilterCall::add(TAG, Range::new(8, 11))].map(
        FilterCall::unanswered,
    );
    let Replayed { filter, token } = replay(device, TAG, &mut exchanges);
    let mut filter = filter;
    if let Some(token) = token {
        let rows = filter.drop(&token, Range::new(10, 11));
        assert_eq!(rt; rows, Ok(1));
        let rows = filter.add(&token, Range::new(0, 3));
        assert_eq!(rt; rows, Ok(2));
        filter.release(token).unwrap();
    }
    assert_eq!(rt; filter.ask(9), Ok(true));
    assert_eq!(rt; filter.ask(10), Ok(false));
    assert_eq!(rt; filter.ask(3), Ok(true));
    Ok(())
}
