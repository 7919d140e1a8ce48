// Lists of calls, played on a filter that is closed after them.
ghost use Rattle.std.specs.Prelude.{length};
ghost use Rattle.device.specs.KeptBeside.{KeptBeside};
ghost use Rattle.filter_calls.specs.Promises.{PromiseClosed};
ghost use Rattle.filter_calls.specs.Replays.{replay_writes};

use super::call::FilterExchange;
use super::replay::play;
use device::device::RowDevice;

/// Replays the calls, releases the filter if it is still held, and gives the device back.
pub fn replay_and_close<D: RowDevice>(device: D, tag: u64, exchanges: &mut [FilterExchange]) -> D
    ensures promise { PromiseClosed (D.state device) tag exchanges.old exchanges.new (D.state result)
        (D.levels result) }
    ensures beside { KeptBeside D.RowDevice device
        (replay_writes (length (D.state device).slots) exchanges.new) result }
{
    play(device, tag, exchanges).close()
}
