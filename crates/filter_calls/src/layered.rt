// Lists of calls, played on a filter over layers, and told by the maps and the device below them.
ghost use Rattle.std.specs.Prelude.{◌≡◌, length};
ghost use Rattle.device.specs.KeptBeside.{KeptBeside};
ghost use Rattle.layers.specs.Layers.{composed};
ghost use Rattle.filter_calls.specs.Promises.{PromiseBeneath, PromiseOverLayer, PromiseOverLayers, closed_ledger};
ghost use Rattle.filter_calls.specs.Replays.{replay_writes};

use super::call::FilterExchange;
use super::closing::replay_and_close;
use device::device::RowDevice;
use layers::layer::Layer;
use layers::line_map::LineMap;

/// Replays the calls on a filter over a layer, releases it if it is still held, and gives the map and the device below
/// back. The rows in that device take precisely the ledger's numbers, as the map carries them.
pub fn replay_over_layer<M: LineMap, D: RowDevice>(
    map: M,
    device: D,
    tag: u64,
    exchanges: &mut [FilterExchange],
) -> (M, D)
    ensures promise { PromiseOverLayer (M.carrying map) (D.state device) tag exchanges.old
        exchanges.new (D.state result.1) (D.levels result.1) }
    ensures below { PromiseBeneath (closed_ledger (D.state device) tag exchanges.old) (record {
      carrying = M.carrying map (D.state device).width;
      slots = (D.state result.1).slots;
    }) }
    ensures map { result.0 ≡ map }
    ensures beside { KeptBeside D.RowDevice device
        (replay_writes (length (D.state device).slots) exchanges.new) result.1 }
{
    replay_and_close(Layer::new(map, device), tag, exchanges).into_parts()
}

// The same over a layer on a layer: the outer map is that of the layer on top, the inner one that of the layer on the device.
pub fn replay_over_layers<M: LineMap, N: LineMap, D: RowDevice>(
    outer: M,
    inner: N,
    device: D,
    tag: u64,
    exchanges: &mut [FilterExchange],
) -> (M, N, D)
    ensures promise { PromiseOverLayers (M.carrying outer) (N.carrying inner) (D.state device) tag
        exchanges.old exchanges.new (D.state result.2) (D.levels result.2) }
    ensures below { PromiseBeneath (closed_ledger (D.state device) tag exchanges.old) (record {
      carrying = composed (M.carrying outer (D.state device).width) (N.carrying inner (D.state device).width);
      slots = (D.state result.2).slots;
    }) }
    ensures outer_map { result.0 ≡ outer }
    ensures inner_map { result.1 ≡ inner }
    ensures beside { KeptBeside D.RowDevice device
        (replay_writes (length (D.state device).slots) exchanges.new) result.2 }
{
    let layer = Layer::new(inner, device);
    let (outer, layer) = replay_over_layer(outer, layer, tag, exchanges);
    let (inner, device) = layer.into_parts();
    (outer, inner, device)
}
