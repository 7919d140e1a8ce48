// What makes calls on a filter.
ghost use Rattle.std.specs.Prelude.{◌≡◌, [], length, true, false, Err, MatchOption};
ghost use Rattle.std.proofs.Props.{props};

use super::call::{FilterAnswer, FilterCall, RefusedCall};
use super::foreign::HeldFilter;
use super::no_slots::NoSlots;
use device::device::RowDevice;
use filter::filter::Filter;
use filter::hold_token::{HoldToken, RefusedRelease};
use rows::edit::Edit;
use rows::refusal::Refusal;

// A filter, and the token that is at hand: there is one just while the filter is held.
pub(super) struct Player<D: RowDevice> {
    pub(super) filter: Filter<D>,
    pub(super) token: Option<HoldToken>,
    ghost at_hand: { MatchOption token (filter.held ≡ false) (λ t. (filter.held ≡ true) × (t.tag ≡ filter.tag)) } by { Prim.hlevel props },
}

impl<D: RowDevice> Player<D> {
    ghost use Rattle.ledger.specs.Ledger.{Ledger, freed};
    ghost use Rattle.ledger.specs.Steps.{hold_step, edit_step, release_step, told};
    ghost use Rattle.filter.specs.StandsFor.{Follows, StandsFor};
    ghost use Rattle.filter.specs.Writes.{edit_writes};
    ghost use Rattle.device.specs.KeptBeside.{KeptBeside};
    ghost use Rattle.filter_calls.specs.Promises.{PromiseKept};
    ghost use Rattle.filter_calls.specs.Replays.{answer_writes, call_step, compared, full_step, released_by, token_has_tag};

    // Makes one call.
    pub(super) fn perform(&mut self, call: FilterCall) -> Result<FilterAnswer, RefusedCall>
        ensures step { Follows D.RowDevice self.old.filter (call_step call) (compared result) self.new.filter }
        ensures in_full { Follows D.RowDevice self.old.filter (full_step call) result self.new.filter }
        ensures beside { KeptBeside D.RowDevice self.old.filter.device
            (answer_writes (length (D.state self.old.filter.device).slots) result)
            self.new.filter.device }
    {
        match call {
            FilterCall::Hold => {
                let tag = self.hold()?;
                Ok(FilterAnswer::Token { tag })
            }
            FilterCall::Edit { tag, edit } => {
                let rows = self.edit(tag, edit)?;
                Ok(FilterAnswer::Rows(rows))
            }
            FilterCall::Release { tag } => {
                self.release(tag)?;
                Ok(FilterAnswer::Released)
            }
            FilterCall::Ask { number } => {
                let said = self.filter.ask(number)?;
                Ok(FilterAnswer::Says(said))
            }
            FilterCall::ReportSlot { slot } => {
                let content = self.filter.report_slot(slot)?;
                Ok(FilterAnswer::Slot(content))
            }
            FilterCall::ReportRun { index } => Ok(FilterAnswer::Run(self.filter.report_run(index))),
        }
    }

    // Holds the filter, keeps the token, and tells its tag.
    fn hold(&mut self) -> Result<u64, Refusal>
        ensures step { Follows D.RowDevice self.old.filter hold_step result self.new.filter }
        ensures beside { KeptBeside D.RowDevice self.old.filter.device [] self.new.filter.device }
    {
        let token = self.filter.hold()?;
        let tag = token.tag();
        // an assignment would let go of a token that was there, which the language refuses; there is none
        match self.token.replace(token) {
            None => Ok(tag),
            Some(_) => unreachable(),
        }
    }

    // Shows a token of this tag for an edit: the one at hand if it has the tag, else that of another filter.
    fn edit(&mut self, tag: u64, edit: Edit) -> Result<usize, Refusal>
        ensures step { Follows D.RowDevice self.old.filter (edit_step tag edit) result self.new.filter }
        ensures beside { KeptBeside D.RowDevice self.old.filter.device
            (edit_writes result (length (D.state self.old.filter.device).slots))
            self.new.filter.device }
    {
        if let Some(token) = self.token.as_ref().filter(|token| token.tag() == tag) {
            return self.filter.edit(token, edit);
        }
        let another = HeldFilter::open(NoSlots::new(self.filter.width()), tag);
        let answer = self.filter.edit(&another.token, edit);
        let _ = another.let_go();
        answer
    }

    // Shows a token of this tag for a release: the one at hand if it has the tag, else that of another filter.
    fn release(&mut self, tag: u64) -> Result<(), RefusedCall>
        ensures step { Follows D.RowDevice self.old.filter (told (released_by tag) (release_step tag)) result
            self.new.filter }
        ensures beside { KeptBeside D.RowDevice self.old.filter.device [] self.new.filter.device }
    {
        match self.token.take_if(|token| token.tag() == tag) {
            Some(token) => {
                self.filter.release(token).unwrap();
                Ok(())
            }
            None => Err(self.release_with_another(tag)),
        }
    }

    // Shows the token of another filter for a release: it is refused, and hands the token back.
    fn release_with_another(&mut self, tag: u64) -> RefusedCall
        requires not_at_hand { token_has_tag self.old.token tag ≡ false }
        ensures step { Follows D.RowDevice self.old.filter (told (released_by tag) (release_step tag)) (Err result)
            self.new.filter }
        ensures beside { KeptBeside D.RowDevice self.old.filter.device [] self.new.filter.device }
    {
        let HeldFilter {
            filter: other,
            token,
        } = HeldFilter::open(NoSlots::new(self.filter.width()), tag);
        let RefusedRelease { refusal, token } = self.filter.release(token).unwrap_err();
        let handed_back = Some(token.tag());
        let another = HeldFilter {
            filter: other,
            token,
        };
        let _ = another.let_go();
        RefusedCall {
            refusal,
            handed_back,
        }
    }

    // Releases the filter if it is held, and gives its device back.
    pub(super) fn close(self) -> D
        ensures kept { (b : Ledger) → StandsFor D.RowDevice self.filter b →
            PromiseKept (D.state result) (D.levels result) (freed b) }
        ensures beside { KeptBeside D.RowDevice self.filter.device [] result }
    {
        let Player { filter, token } = self;
        let mut filter = filter;
        if let Some(token) = token {
            filter.release(token).unwrap();
        }
        filter.into_device()
    }
}
