// Lists of calls, played on a filter over any device.
ghost use Rattle.std.specs.Prelude.{length};
ghost use Rattle.device.specs.KeptBeside.{KeptBeside};
ghost use Rattle.filter.specs.StandsFor.{AtHand, StandsFor};
ghost use Rattle.filter_calls.specs.Promises.{Promise, last_ledger};
ghost use Rattle.filter_calls.specs.Replays.{replay_writes};

use super::call::FilterExchange;
use super::player::Player;
use device::device::RowDevice;
use filter::filter::Filter;
use filter::hold_token::HoldToken;

// A filter after some calls, and the token that is at hand.
pub struct Replayed<D: RowDevice> {
    pub filter: Filter<D>,
    pub token: Option<HoldToken>,
}

// Opens a filter over the device with this tag, makes the calls in their order, and writes each answer beside its call. A
// call that shows a token is given the one at hand if it has the tag, else that of another filter, opened with the tag
// and held.
pub fn replay<D: RowDevice>(device: D, tag: u64, exchanges: &mut [FilterExchange]) -> Replayed<D>
    ensures promise { Promise (D.state device) tag exchanges.old exchanges.new
        (D.state result.filter.device) (D.levels result.filter.device) }
    ensures stands { StandsFor D.RowDevice result.filter (last_ledger (D.state device) tag exchanges.old) }
    ensures token { AtHand (last_ledger (D.state device) tag exchanges.old) result.token }
    ensures beside { KeptBeside D.RowDevice device
        (replay_writes (length (D.state device).slots) exchanges.new) result.filter.device }
{
    let Player { filter, token } = play(device, tag, exchanges);
    Replayed { filter, token }
}

// The same, and gives back what made the calls.
pub(super) fn play<D: RowDevice>(device: D, tag: u64, exchanges: &mut [FilterExchange]) -> Player<D>
    ensures promise { Promise (D.state device) tag exchanges.old exchanges.new
        (D.state result.filter.device) (D.levels result.filter.device) }
    ensures stands { StandsFor D.RowDevice result.filter (last_ledger (D.state device) tag exchanges.old) }
    ensures token { AtHand (last_ledger (D.state device) tag exchanges.old) result.token }
    ensures beside { KeptBeside D.RowDevice device
        (replay_writes (length (D.state device).slots) exchanges.new) result.filter.device }
{
    let mut player = Player {
        filter: Filter::open(device, tag),
        token: None,
    };
    for exchange in exchanges.iter_mut() {
        exchange.answer = player.perform(exchange.call);
    }
    player
}
