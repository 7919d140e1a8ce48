// A console by itself, over a device that is lent.
use column_table::ColumnTable;
use console::console::Console;
use device::lent_device::LentDevice;
use device::new_device::NewDevice;
use lines::reply::Reply;
use rows::refusal::Refusal;
use rows::width::Width;
use std::test::Fail;

// What the second line is answered; the console ends.
fn answered(
    console: Console<LentDevice<'_, ColumnTable>>,
    first: &[u8],
    second: &[u8],
) -> Result<Reply, Refusal> {
    let mut console = console;
    let _ = console.answer(first);
    console.answer(second)
}

#[test]
fn a_console_is_taken_by_value(rt: HostRuntime) -> Result<(), Fail> {
    let mut table = ColumnTable::new(Width::try_from(3)?, 4);
    let console = Console::open(LentDevice::new(&mut table));
    assert_eq!(rt; answered(console, b"+ 1 4", b"? 4"), Ok(Reply::Says(true)));
    let console = Console::open(LentDevice::new(&mut table));
    assert_eq!(rt;
        answered(console, b"+ 1 4", b"? 8"),
        Err(Refusal::NumberOutsideWidth)
    );
    Ok(())
}
