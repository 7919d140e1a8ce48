// What holds of every device, each the contract of a small function.
ghost use Rattle.covers.specs.Equality.{IsEquality};
ghost use Rattle.device.specs.SymbolLaws.{TakenBySymbols};

use super::call::DeviceAnswer;

fn slots_take_by_symbols()
    ensures holds { TakenBySymbols }
{}

// `==` of answers is equality.
fn equality()
    ensures device_answer { IsEquality ⟦<DeviceAnswer as PartialEq>⟧.eq }
{}
