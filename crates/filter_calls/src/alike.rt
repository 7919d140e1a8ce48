// Two filters over different devices, given the same calls.
ghost use Rattle.std.specs.Prelude.{◌≡◌, length};
ghost use Rattle.filter_calls.specs.Promises.{PromiseClosed};
ghost use Rattle.filter_calls.specs.Replays.{replay_writes};
ghost use Rattle.device.specs.Exchanges.{calls_of};
ghost use Rattle.device.specs.KeptBeside.{KeptBeside};

use super::call::FilterExchange;
use super::closing::replay_and_close;
use device::device::RowDevice;

// Replays calls on a filter over each device, and gives both devices back. The answers depend on nothing but the width,
// the number of slots and the calls: where these are the same, so are the exchanges, rows of slots included.
pub fn answer_alike<A: RowDevice, B: RowDevice>(
    first: A,
    second: B,
    tag: u64,
    exchanges: &mut [FilterExchange],
    beside: &mut [FilterExchange],
) -> (A, B)
    ensures alike { (A.state first).width ≡ (B.state second).width →
        length (A.state first).slots ≡ length (B.state second).slots →
        calls_of exchanges.old ≡ calls_of beside.old → exchanges.new ≡ beside.new }
    ensures first_promise { PromiseClosed (A.state first) tag exchanges.old exchanges.new
        (A.state result.0) (A.levels result.0) }
    ensures second_promise { PromiseClosed (B.state second) tag beside.old beside.new
        (B.state result.1) (B.levels result.1) }
    ensures first_beside { KeptBeside A.RowDevice first
        (replay_writes (length (A.state first).slots) exchanges.new) result.0 }
    ensures second_beside { KeptBeside B.RowDevice second
        (replay_writes (length (B.state second).slots) beside.new) result.1 }
{
    let first = replay_and_close(first, tag, exchanges);
    let second = replay_and_close(second, tag, beside);
    (first, second)
}
