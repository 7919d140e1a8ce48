// Sessions of the console, each beside the output that an independent model computed for it.
#![tactic(auto)]

use column_table::ColumnTable;
use console::failure::Failure;
use console::run::run;
use std::io::ErrorKind;
use std::{fs, io};

const SESSIONS: [&str; 14] = [
    "width-1",
    "width-3",
    "width-3-two-slots",
    "width-16",
    "width-16-many-slots",
    "width-32",
    "malformed",
    "no-slots",
    "first-line-absent",
    "first-line-empty",
    "first-line-two-spaces",
    "first-line-too-long",
    "width-0",
    "width-33",
];

// Replays a session, and says whether the console printed what the model says.
fn replay(rt: &HostRuntime, name: &str) -> io::Result<()> {
    let heap = rt.alloc();
    let input = fs::read(rt, format!(in heap; "{name}.in")?)?;
    let expected = fs::read(rt, format!(in heap; "{name}.out")?)?;
    let mut unread = input.as_slice();
    let mut output = Vec::new(heap);
    run::<ColumnTable, _, _>(&mut unread, &mut output).map_err(as_error)?;
    let verdict = if output.as_slice() == expected.as_slice() {
        "as the model says"
    } else {
        "NOT as the model says"
    };
    let taken = input.len();
    let printed = output.len();
    println!(rt; "{name}: {taken} bytes in, {printed} bytes out, {verdict}")
}

// A session that fails ends the program with the error.
fn as_error(failure: Failure) -> io::Error {
    match failure {
        Failure::CannotRead(kind) | Failure::CannotWrite(kind) => io::Error::from(kind),
        Failure::TooManyTries => io::Error::from(ErrorKind::Other),
    }
}

fn main(rt: HostRuntime) -> io::Result<()> {
    for name in SESSIONS {
        replay(&rt, name)?;
    }
    Ok(())
}
