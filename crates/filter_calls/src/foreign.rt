// Another filter, held for the token of its tag.
ghost use Rattle.std.specs.Prelude.{◌≡◌, [], true};
ghost use Rattle.device.specs.KeptBeside.{KeptBeside};
ghost use Rattle.ledger.specs.Ledger.{Ledger, freed};
ghost use Rattle.filter.specs.StandsFor.{StandsFor};
ghost use Rattle.filter_calls.specs.Promises.{PromiseKept};

use device::device::RowDevice;
use filter::filter::Filter;
use filter::hold_token::HoldToken;

// A filter that is held, and its token.
pub(super) struct HeldFilter<D: RowDevice> {
    pub(super) filter: Filter<D>,
    pub(super) token: HoldToken,
    ghost held: { filter.held ≡ true },
    ghost fits: { token.tag ≡ filter.tag },
}

impl<D: RowDevice> HeldFilter<D> {
    // Opens a filter with this tag, and holds it.
    pub(super) fn open(device: D, tag: u64) -> HeldFilter<D>
        ensures tag { result.token.tag ≡ tag }
    {
        let mut filter = Filter::open(device, tag);
        let token = filter.hold().unwrap();
        HeldFilter { filter, token }
    }

    // Releases the filter with its token, and gives its device back.
    pub(super) fn let_go(self) -> D
        ensures kept { (b : Ledger) → StandsFor D.RowDevice self.filter b →
            PromiseKept (D.state result) (D.levels result) (freed b) }
        ensures beside { KeptBeside D.RowDevice self.filter.device [] result }
    {
        let HeldFilter { filter, token } = self;
        let mut filter = filter;
        filter.release(token).unwrap();
        filter.into_device()
    }
}
