// A printed account of filters over several devices: the calls and answers, and what the slots hold afterwards.
#![tactic(auto)]

mod records;
mod replays;
mod talk;

use std::io;

fn main(rt: HostRuntime) -> io::Result<()> {
    replays::two_runs(&rt)?;
    replays::mixture(&rt)?;
    replays::lent_records(&rt)
}
