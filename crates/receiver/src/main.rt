// The console on standard input and output.
#![tactic(auto)]

use column_table::ColumnTable;
use console::failure::Failure;
use console::help::{HELP, HINT};
use console::run::run;
use std::env;
use std::io::{BufWriter, IsTerminal};
use std::process::ExitCode;

fn main(rt: HostRuntime) -> ExitCode {
    if asks_for_help(&rt) {
        help(&rt)
    } else {
        session(&rt)
    }
}

// Whether the first argument asks for the help. Any other is passed over, and so are all where one cannot be read: no
// argument keeps a session from running.
fn asks_for_help(rt: &HostRuntime) -> bool {
    let Ok(mut arguments) = env::args(rt) else {
        return false;
    };
    let first = arguments.nth(1);
    first.is_some_and(|first| matches!(first.as_str(), "--help" | "-h"))
}

// A session over the standard streams, where a hint stands on standard error if a user is to type.
fn session(rt: &HostRuntime) -> ExitCode {
    let mut input = rt.stdin();
    if input.is_terminal() {
        let _ = rt.eprintln(HINT);
    }
    let ended = match BufWriter::new(rt.alloc(), rt.stdout()) {
        Ok(mut output) => run::<ColumnTable, _, _>(&mut input, &mut output),
        Err(error) => Err(Failure::CannotWrite(error.kind())),
    };
    match ended {
        Ok(()) => ExitCode::SUCCESS,
        Err(failure) => failed(rt, failure),
    }
}

fn help(rt: &HostRuntime) -> ExitCode {
    match rt.print(HELP) {
        Ok(()) => ExitCode::SUCCESS,
        Err(error) => failed(rt, Failure::CannotWrite(error.kind())),
    }
}

fn failed(rt: &HostRuntime, failure: Failure) -> ExitCode {
    let _ = rt.eprintln(format_args!("receiver: {failure}"));
    ExitCode::FAILURE
}
