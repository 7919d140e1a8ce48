// The memory that the public types take.
use column_table::ColumnTable;
use console::console::Console;
use console::failure::Failure;
use console::session::Session;
use covers::symbol::Symbol;
use device::call::{DeviceAnswer, DeviceCall, DeviceExchange};
use device::lent_device::LentDevice;
use filter::filter::Filter;
use filter::hold_token::{HoldToken, RefusedRelease};
use filter_calls::call::{FilterAnswer, FilterCall, FilterExchange, RefusedCall};
use filter_calls::replay::Replayed;
use layers::flip::Flip;
use layers::layer::Layer;
use layers::turn::Turn;
use lines::command::{Command, Setup};
use lines::line_buffer::LineBuffer;
use lines::print::PrintedLine;
use lines::reply::{Reply, ReplyText};
use ranges::runs::RunRows;
use rows::edit::Edit;
use rows::range::Range;
use rows::refusal::Refusal;
use rows::row::{Row, RowText};
use rows::row_words::RowWords;
use rows::width::Width;
use run_table::table::RunTable;
use sheet::sheet_size::SheetSize;
use slot_table::{SlotRecord, SlotTable};
use std::io;
use std::mem::size_of;

// Prints the name of each type beside the bytes that a value of it takes.
fn print_all(rt: &impl Print, sizes: &[(&str, usize)]) -> io::Result<()> {
    for (name, bytes) in sizes {
        println!(rt; "{name}: {bytes} bytes")?;
    }
    Ok(())
}

pub(super) fn print(rt: &impl Print) -> io::Result<()> {
    print_all(rt, &of_rows())?;
    print_all(rt, &of_devices())?;
    print_all(rt, &of_filters())?;
    print_all(rt, &of_the_console())
}

fn of_rows() -> [(&'static str, usize); 9] {
    [
        ("Symbol", size_of::<Symbol>()),
        ("Refusal", size_of::<Refusal>()),
        ("Width", size_of::<Width>()),
        ("Range", size_of::<Range>()),
        ("Row", size_of::<Row>()),
        ("RowWords, a row in memory", size_of::<RowWords>()),
        ("RowText, a row as it is written", size_of::<RowText>()),
        ("RunRows, the rows of runs", size_of::<RunRows>()),
        ("SheetSize", size_of::<SheetSize>()),
    ]
}

fn of_devices() -> [(&'static str, usize); 10] {
    [
        ("SlotRecord, a slot in memory", size_of::<SlotRecord>()),
        ("SlotTable, without its records", size_of::<SlotTable>()),
        ("ColumnTable, with all its slots", size_of::<ColumnTable>()),
        (
            "LentDevice, of any device",
            size_of::<LentDevice<ColumnTable>>(),
        ),
        ("DeviceCall", size_of::<DeviceCall>()),
        ("DeviceAnswer", size_of::<DeviceAnswer>()),
        ("DeviceExchange", size_of::<DeviceExchange>()),
        ("Flip", size_of::<Flip>()),
        ("Turn", size_of::<Turn>()),
        (
            "Layer of a flip over a slot table",
            size_of::<Layer<Flip, SlotTable>>(),
        ),
    ]
}

fn of_filters() -> [(&'static str, usize); 12] {
    [
        ("Edit", size_of::<Edit>()),
        ("RunTable", size_of::<RunTable>()),
        ("HoldToken", size_of::<HoldToken>()),
        ("RefusedRelease", size_of::<RefusedRelease>()),
        ("Filter over a slot table", size_of::<Filter<SlotTable>>()),
        (
            "Filter over a column table",
            size_of::<Filter<ColumnTable>>(),
        ),
        ("FilterCall", size_of::<FilterCall>()),
        ("FilterAnswer", size_of::<FilterAnswer>()),
        ("RefusedCall", size_of::<RefusedCall>()),
        ("FilterExchange", size_of::<FilterExchange>()),
        (
            "Replayed over a slot table",
            size_of::<Replayed<SlotTable>>(),
        ),
        (
            "Replayed over a column table",
            size_of::<Replayed<ColumnTable>>(),
        ),
    ]
}

fn of_the_console() -> [(&'static str, usize); 9] {
    [
        ("Command", size_of::<Command>()),
        ("Setup", size_of::<Setup>()),
        ("Reply", size_of::<Reply>()),
        ("ReplyText", size_of::<ReplyText>()),
        ("PrintedLine", size_of::<PrintedLine>()),
        ("Failure", size_of::<Failure>()),
        ("LineBuffer", size_of::<LineBuffer>()),
        (
            "Console over a column table",
            size_of::<Console<ColumnTable>>(),
        ),
        ("Session", size_of::<Session<ColumnTable>>()),
    ]
}
