// A printed account: ranges and their rows, witnesses, packed sheets, a pile of layers, and what is refused.
#![tactic(auto)]

mod packed_sheets;
mod piles;
mod range_rows;
mod show;
mod witnesses;

use std::io;

fn main(rt: HostRuntime) -> io::Result<()> {
    range_rows::worked_ranges(&rt)?;
    range_rows::wide_ranges(&rt)?;
    range_rows::refused_ranges(&rt)?;
    packed_sheets::packed_ranges(&rt)?;
    packed_sheets::unpacked_rows(&rt)?;
    witnesses::rows_and_witnesses(&rt)?;
    piles::flip_over_turn(&rt)
}
