// Times of the calls that a receiver makes. With no argument it does nothing; with one it measures and prints.
#![tactic(auto)]

mod asks;
mod edits;
mod ranges_timed;
mod sheets_timed;
mod sizes;
mod stopwatch;

use std::{env, io};

fn main(rt: HostRuntime) -> io::Result<()> {
    if env::args(&rt)?.count() < 2 {
        return Ok(());
    }
    ranges_timed::measure(&rt)?;
    edits::measure(&rt)?;
    asks::measure(&rt)?;
    sheets_timed::measure(&rt)?;
    sizes::print(&rt)
}
