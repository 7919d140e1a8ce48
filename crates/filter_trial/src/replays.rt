// Calls replayed on filters over several devices: the answers, and what the slots hold afterwards.
use super::records::replay_on_records;
use super::talk::{ShownAnswers, ShownCall, ShownRecord};
use column_table::ColumnTable;
use device::new_device::NewDevice;
use filter_calls::alike::answer_alike;
use filter_calls::call::{FilterAnswer, FilterCall, FilterExchange};
use filter_calls::layered::replay_over_layers;
use filter_calls::replay::{Replayed, replay};
use layers::flip::Flip;
use layers::layer::Layer;
use layers::turn::Turn;
use rows::range::Range;
use rows::width::Width;
use shown::slots::ShownSlots;
use slot_table::{SlotRecord, SlotTable};
use std::io;

// The tag of every filter here.
const TAG: u64 = 7;

pub(super) fn two_runs(rt: &impl Print) -> io::Result<()> {
    println!(rt;
        "A filter of two runs at width 4: each keeps its own rows, though -0-- alone would do"
    )?;
    let width = Width::try_from(4).unwrap();
    let mut exchanges = [
        FilterCall::Hold,
        FilterCall::add(TAG, Range::new(8, 11)),
        FilterCall::add(TAG, Range::new(0, 3)),
    ]
    .map(FilterCall::unanswered);
    let Replayed { filter, token } = replay(ColumnTable::new(width, 4), TAG, &mut exchanges);
    let mut filter = filter;
    // the calls left the filter held, and it goes on by hand
    if let Some(token) = token {
        filter.release(token).unwrap();
    }
    for FilterExchange { call, answer } in exchanges {
        let answers = &[answer];
        println!(rt; "{}:{}", ShownCall(call), ShownAnswers { width, answers })?;
    }
    for index in 0..3 {
        let call = FilterCall::ReportRun { index };
        let answers = &[Ok(FilterAnswer::Run(filter.report_run(index)))];
        println!(rt; "{}:{}", ShownCall(call), ShownAnswers { width, answers })?;
    }
    let device = filter.into_device();
    println!(rt; "slots:{}", ShownSlots { device: &device })
}

// Calls of every kind, granted and refused.
fn calls() -> [FilterExchange; 19] {
    [
        FilterCall::Ask { number: 3 },
        FilterCall::add(TAG, Range::new(0, 3)),
        FilterCall::Hold,
        FilterCall::Ask { number: 3 },
        FilterCall::add(8, Range::new(0, 3)),
        FilterCall::add(TAG, Range::new(0, 16)),
        FilterCall::add(TAG, Range::new(8, 11)),
        FilterCall::add(TAG, Range::new(0, 3)),
        FilterCall::ReportSlot { slot: 0 },
        FilterCall::ReportSlot { slot: 4 },
        FilterCall::Release { tag: 8 },
        FilterCall::Release { tag: TAG },
        FilterCall::Ask { number: 9 },
        FilterCall::Hold,
        FilterCall::add(TAG, Range::new(13, 15)),
        FilterCall::add(TAG, Range::new(5, 5)),
        FilterCall::drop(TAG, Range::new(8, 14)),
        FilterCall::ReportRun { index: 0 },
        FilterCall::ReportRun { index: 1 },
    ]
    .map(FilterCall::unanswered)
}

pub(super) fn mixture(rt: &impl Print) -> io::Result<()> {
    println!(rt;
        "A mixture of calls at width 4 with 4 slots, over a slot table | a column table | a flip of 0001 over a turn over a column table"
    )?;
    let width = Width::try_from(4).unwrap();
    // each filter answers a list of its own; an array pattern cannot take the three from a `map`
    let mut over_slots = calls();
    let mut over_columns = calls();
    let mut over_pile = calls();
    let mut records = [SlotRecord::EMPTY; 4];
    let slots = SlotTable::new(width, &mut records);
    let columns = ColumnTable::new(width, 4);
    let (slots, columns) = answer_alike(slots, columns, TAG, &mut over_slots, &mut over_columns);
    let table = ColumnTable::new(width, 4);
    let flip = Flip { mask: 0b0001 };
    let (flip, turn, table) = replay_over_layers(flip, Turn, table, TAG, &mut over_pile);
    for ((a, b), c) in over_slots.iter().zip(&over_columns).zip(&over_pile) {
        let answers = &[a.answer, b.answer, c.answer];
        println!(rt; "{}:{}", ShownCall(a.call), ShownAnswers { width, answers })?;
    }
    println!(rt; "slot table:{}", ShownSlots { device: &slots })?;
    println!(rt; "column table:{}", ShownSlots { device: &columns })?;
    print_levels(rt, Layer::new(flip, Layer::new(turn, table)))
}

// What the slots hold on top of the pile, below the flip and at the bottom: the pile is taken apart, so no `Display` can.
fn print_levels(rt: &impl Print, pile: Layer<Flip, Layer<Turn, ColumnTable>>) -> io::Result<()> {
    println!(rt; "pile, on top:{}", ShownSlots { device: &pile })?;
    let (_, turn) = pile.into_parts();
    println!(rt; "pile, below the flip:{}", ShownSlots { device: &turn })?;
    let (_, table) = turn.into_parts();
    println!(rt; "pile, at the bottom:{}", ShownSlots { device: &table })
}

// Records lent to a table beneath two layers, and what lies in them when filter, layers and table have ended.
pub(super) fn lent_records(rt: &impl Print) -> io::Result<()> {
    println!(rt;
        "122 marked records at width 4, lent to a filter over a flip of 0001 over a turn over a slot table"
    )?;
    let width = Width::try_from(4).unwrap();
    let mark = SlotRecord {
        filled: true,
        value: 5,
        care: 7,
    };
    let mut records = [mark; 122];
    let mut exchanges = [
        FilterCall::Hold,
        FilterCall::add(TAG, Range::new(1, 3)),
        FilterCall::add(TAG, Range::new(8, 11)),
    ]
    .map(FilterCall::unanswered);
    let flip = Flip { mask: 0b0001 };
    replay_on_records(flip, Turn, width, &mut records, TAG, &mut exchanges);
    for FilterExchange { call, answer } in exchanges {
        let answers = &[answer];
        println!(rt; "{}:{}", ShownCall(call), ShownAnswers { width, answers })?;
    }
    for index in [0, 1, 2, 3, 119, 120, 121] {
        println!(rt; "record {index}: {}", ShownRecord(records[index]))?;
    }
    Ok(())
}
