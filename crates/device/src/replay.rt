// Lists of calls, played on any device: the answers hang on what the device means, and on nothing else.
ghost use Rattle.std.specs.Prelude.{◌≡◌, true};
ghost use Rattle.device.specs.KeptBeside.{KeptBeside};
ghost use Rattle.device.specs.Exchanges.{calls_of};
ghost use Rattle.device.specs.Replays.{answers_to, after_calls, answered, call_writes, device_step, writes_of};

use super::call::{DeviceAnswer, DeviceCall, DeviceExchange};
use super::device::RowDevice;
use rows::refusal::Refusal;

// Makes one call.
pub fn perform<D: RowDevice>(device: &mut D, call: DeviceCall) -> Result<DeviceAnswer, Refusal>
    ensures answer { result ≡ (device_step call (D.state device.old)).0 }
    ensures after { D.state device.new ≡ (device_step call (D.state device.old)).1 }
    ensures beside { KeptBeside D.RowDevice device.old (call_writes (D.state device.old) call)
        device.new }
{
    match call {
        DeviceCall::Put { slot, row } => {
            device.put(slot, row)?;
            Ok(DeviceAnswer::Done)
        }
        DeviceCall::Empty { slot } => {
            device.empty(slot)?;
            Ok(DeviceAnswer::Done)
        }
        DeviceCall::Read { slot } => {
            let content = device.read(slot)?;
            Ok(DeviceAnswer::Holds(content))
        }
        DeviceCall::Mute { on } => {
            device.mute(on);
            Ok(DeviceAnswer::Done)
        }
        DeviceCall::Ask { number } => {
            let yes = device.ask(number)?;
            Ok(DeviceAnswer::Says(yes))
        }
    }
}

// Makes the calls in their order, and writes each answer beside its call.
pub fn replay<D: RowDevice>(device: &mut D, exchanges: &mut [DeviceExchange])
    ensures answers { exchanges.new ≡ answered (D.state device.old) exchanges.old }
    ensures after { D.state device.new ≡ after_calls (D.state device.old) (calls_of exchanges.old) }
    ensures beside { KeptBeside D.RowDevice device.old
        (writes_of (D.state device.old) (calls_of exchanges.old)) device.new }
{
    // as in the replayed calls of a filter, whose answers follow from a ledger: one loop for both would be longer
    for exchange in exchanges.iter_mut() {
        exchange.answer = perform(device, exchange.call);
    }
}

// Makes the calls on both devices, and tells whether they answered alike: devices of equal meaning always do.
pub fn answer_alike<A: RowDevice, B: RowDevice>(
    first: &mut A,
    second: &mut B,
    calls: &[DeviceCall],
) -> bool
    ensures same_meaning { A.state first.old ≡ B.state second.old → result ≡ true }
    ensures alike { answers_to (A.state first.old) calls.now ≡ answers_to (B.state second.old) calls.now → result ≡ true }
    ensures only_alike { result ≡ true → answers_to (A.state first.old) calls.now ≡ answers_to (B.state second.old) calls.now }
    ensures first_after { A.state first.new ≡ after_calls (A.state first.old) calls.now }
    ensures second_after { B.state second.new ≡ after_calls (B.state second.old) calls.now }
    ensures first_beside { KeptBeside A.RowDevice first.old
        (writes_of (A.state first.old) calls.now) first.new }
    ensures second_beside { KeptBeside B.RowDevice second.old
        (writes_of (B.state second.old) calls.now) second.new }
{
    let mut alike = true;
    for call in calls {
        // a loop that goes on after a difference, since both devices get every call
        alike &= perform(first, *call) == perform(second, *call);
    }
    alike
}
