// Edits: joined runs, the whole circle, too many runs, too many rows.
use super::calls::{TAG, answered, refused, run};
use column_table::ColumnTable;
use device::device::RowDevice;
use device::new_device::NewDevice;
use filter_calls::call::{FilterAnswer, FilterCall, FilterExchange};
use filter_calls::closing::replay_and_close;
use rows::range::Range;
use rows::refusal::Refusal;
use rows::row::Row;
use rows::width::Width;
use std::test::Fail;

#[test]
fn runs_join_over_the_highest_number(rt: HostRuntime) -> Result<(), Fail> {
    let device = ColumnTable::new(Width::try_from(4)?, 8);
    let mut exchanges = [
        FilterCall::Hold,
        FilterCall::add(TAG, Range::new(12, 15)),
        FilterCall::add(TAG, Range::new(0, 1)),
        FilterCall::ReportRun { index: 0 },
        FilterCall::ReportRun { index: 1 },
        FilterCall::Release { tag: TAG },
        FilterCall::Ask { number: 15 },
        FilterCall::Ask { number: 2 },
    ]
    .map(FilterCall::unanswered);
    let device = replay_and_close(device, TAG, &mut exchanges);
    let expected = [
        Ok(FilterAnswer::Token { tag: TAG }),
        Ok(FilterAnswer::Rows(1)),
        Ok(FilterAnswer::Rows(2)),
        run((12, 1)),
        Ok(FilterAnswer::Run(None)),
        Ok(FilterAnswer::Released),
        Ok(FilterAnswer::Says(true)),
        Ok(FilterAnswer::Says(false)),
    ];
    assert_eq!(rt; exchanges.map(answered), expected);
    assert_eq!(rt; device.read(2), Ok(None));
    Ok(())
}

#[test]
fn the_whole_circle_by_pieces_and_back(rt: HostRuntime) -> Result<(), Fail> {
    let device = ColumnTable::new(Width::try_from(4)?, 8);
    let mut exchanges = [
        FilterCall::Hold,
        FilterCall::add(TAG, Range::new(5, 9)),
        FilterCall::add(TAG, Range::new(10, 4)),
        FilterCall::ReportRun { index: 0 },
        FilterCall::ReportSlot { slot: 0 },
        FilterCall::drop(TAG, Range::new(3, 3)),
        FilterCall::ReportRun { index: 0 },
        FilterCall::drop(TAG, Range::new(4, 2)),
        FilterCall::ReportRun { index: 0 },
    ]
    .map(FilterCall::unanswered);
    let device = replay_and_close(device, TAG, &mut exchanges);
    let answers = exchanges.map(answered);
    let expected = [
        Ok(FilterAnswer::Rows(1)),
        run((0, 15)),
        Ok(FilterAnswer::Slot(Some(Row::new(0, 0)))),
        Ok(FilterAnswer::Rows(4)),
        run((4, 2)),
        Ok(FilterAnswer::Rows(0)),
        Ok(FilterAnswer::Run(None)),
    ];
    assert_eq!(rt; answers[2..], expected[..]);
    assert_eq!(rt; device.read(0), Ok(None));
    Ok(())
}

#[test]
fn two_runs_keep_their_own_rows(rt: HostRuntime) -> Result<(), Fail> {
    let device = ColumnTable::new(Width::try_from(4)?, 2);
    let mut exchanges = [
        FilterCall::Hold,
        FilterCall::add(TAG, Range::new(8, 11)),
        FilterCall::add(TAG, Range::new(0, 3)),
        FilterCall::add(TAG, Range::new(5, 5)),
        FilterCall::ReportRun { index: 2 },
    ]
    .map(FilterCall::unanswered);
    let device = replay_and_close(device, TAG, &mut exchanges);
    assert_eq!(rt; exchanges[2].answer, Ok(FilterAnswer::Rows(2)));
    // a third row has no slot, and nothing changes
    assert_eq!(rt; exchanges[3].answer, refused(Refusal::TooManyRows));
    assert_eq!(rt; exchanges[4].answer, Ok(FilterAnswer::Run(None)));
    assert_eq!(rt; device.read(0), Ok(Some(Row::new(0b0000, 0b1100))));
    assert_eq!(rt; device.read(1), Ok(Some(Row::new(0b1000, 0b1100))));
    Ok(())
}

// A hold, seventeen single numbers added, three apart, and the reports of the last two runs.
pub(super) fn seventeen_runs() -> [FilterExchange; 20] {
    let mut exchanges = [FilterCall::Hold.unanswered(); 20];
    for (number, exchange) in (3u64..).step_by(3).zip(&mut exchanges[1..18]) {
        exchange.call = FilterCall::add(TAG, Range::new(number, number));
    }
    exchanges[18].call = FilterCall::ReportRun { index: 15 };
    exchanges[19].call = FilterCall::ReportRun { index: 16 };
    exchanges
}

#[test]
fn seventeen_runs_are_refused(rt: HostRuntime) -> Result<(), Fail> {
    let device = ColumnTable::new(Width::try_from(6)?, 120);
    let mut exchanges = seventeen_runs();
    let _ = replay_and_close(device, TAG, &mut exchanges);
    assert_eq!(rt; exchanges[16].answer, Ok(FilterAnswer::Rows(16)));
    assert_eq!(rt; exchanges[17].answer, refused(Refusal::TooManyRuns));
    assert_eq!(rt; exchanges[18].answer, run((48, 48)));
    assert_eq!(rt; exchanges[19].answer, Ok(FilterAnswer::Run(None)));
    Ok(())
}
