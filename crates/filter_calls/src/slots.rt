// What holds of every filter at any time, and so of one whose calls were made by hand.
ghost use Rattle.std.specs.Prelude.{◌≡◌, length};
ghost use Rattle.ledger.specs.Ledger.{Ledger};
ghost use Rattle.filter.specs.StandsFor.{StandsFor, StandsForOne};
ghost use Rattle.filter_calls.specs.Promises.{PromiseKept};

use device::device::RowDevice;
use filter::filter::Filter;

// How many slots there are. Whatever calls were made before, the rows in them are right: for the ledger that made the same
// calls, they are exact, shortest for one run and bounded for several, also beneath layers, as after a replay.
#[tactic(auto, using(crate::proofs::Kept::promise_kept))]
pub fn slots_kept<D: RowDevice>(filter: &Filter<D>) -> usize
    ensures count { result ≡ length (D.state filter.now.device).slots }
    ensures kept { (b : Ledger) → StandsFor D.RowDevice filter.now b →
        PromiseKept (D.state filter.now.device) (D.levels filter.now.device) b }
    ensures stands { StandsForOne D.RowDevice filter.now }
{
    filter.slot_count()
}
