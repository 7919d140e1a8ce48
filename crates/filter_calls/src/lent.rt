// Lists of calls, played on a filter over layers on a device that is lent for them.
ghost use Rattle.std.specs.Prelude.{length};
ghost use Rattle.device.specs.KeptBeside.{KeptBeside};
ghost use Rattle.filter_calls.specs.Promises.{PromiseOverLayers};
ghost use Rattle.filter_calls.specs.Replays.{replay_writes};

use super::call::FilterExchange;
use super::layered::replay_over_layers;
use device::device::RowDevice;
use device::lent_device::LentDevice;
use layers::line_map::LineMap;

// Replays the calls on a filter over a layer on a layer on the device, which is lent for them: filter and layers end.
pub fn replay_on_lent<M: LineMap + Drop, N: LineMap + Drop, D: RowDevice>(
    outer: M,
    inner: N,
    device: &mut D,
    tag: u64,
    exchanges: &mut [FilterExchange],
)
    ensures promise { PromiseOverLayers (M.carrying outer) (N.carrying inner) (D.state device.old) tag
        exchanges.old exchanges.new (D.state device.new) (D.levels device.new) }
    ensures beside { KeptBeside D.RowDevice device.old
        (replay_writes (length (D.state device.old).slots) exchanges.new) device.new }
{
    let lent = LentDevice::new(device);
    let _lent = replay_and_end(outer, inner, lent, tag, exchanges);
}

// Replays the calls over two layers, and gives the device alone back.
fn replay_and_end<M: LineMap + Drop, N: LineMap + Drop, D: RowDevice>(
    outer: M,
    inner: N,
    device: D,
    tag: u64,
    exchanges: &mut [FilterExchange],
) -> D
    ensures promise { PromiseOverLayers (M.carrying outer) (N.carrying inner) (D.state device) tag
        exchanges.old exchanges.new (D.state result) (D.levels result) }
    ensures beside { KeptBeside D.RowDevice device
        (replay_writes (length (D.state device).slots) exchanges.new) result }
{
    let (_outer, _inner, device) = replay_over_layers(outer, inner, device, tag, exchanges);
    device
}
