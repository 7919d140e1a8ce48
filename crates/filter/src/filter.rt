//! The filter.
use super::hold_token::{HoldToken, RefusedRelease};
use super::placing::{empty_from, place_rows};
use device::device::RowDevice;
use ranges::runs::{RunRows, add_rows_of_runs};
use rows::edit::Edit;
use rows::range::Range;
use rows::refusal::Refusal;
use rows::row::Row;
use rows::width::Width;
use run_table::table::RunTable;
use std::marker::Model;

/// Holds a set of numbers as rows in the slots of a device; edited only while it is held.
#[derive(Drop)]
pub struct Filter<D: RowDevice> {
    pub(super) device: D,
    pub(super) runs: RunTable,
    pub(super) held: bool,
    pub(super) tag: u64,
}

impl<D: RowDevice> Model for Filter<D> {
    ghost use Rattle.ledger.specs.Ledger.{Ledger};
    ghost use Rattle.filter.specs.Parts.{FilterParts};
    ghost use Rattle.filter.specs.Standing.{Standing};

    ghost Value = { FilterParts D };

    ghost view = { λ f. record { device = f.device; runs = f.runs; held = f.held; tag = f.tag } };

    // it stands for a ledger, whatever was called
    ghost invariant = { λ f. ∥ ((b : Ledger) × Standing (D.state f.device) f.runs f.held f.tag b) ∥₁ };
}

impl<D: RowDevice> Filter<D> {
    ghost use Rattle.std.specs.Prelude.{◌≡◌, true, false, not, ◌&&◌, ◌==◌, [], is_err, length, Ok, Err, IfOk};
    ghost use Rattle.rows.specs.declared.edit.Edit.TheVariants.{Add, Drop};
    ghost use Rattle.rows.specs.declared.refusal.Refusal.TheVariants.{FilterHeld};
    ghost use Rattle.rows.specs.Widths.{places_of};
    ghost use Rattle.device.specs.Answers.{ask_answer, read_answer};
    ghost use Rattle.device.specs.KeptBeside.{KeptBeside};
    ghost use Rattle.ledger.specs.Ledger.{opened};
    ghost use Rattle.ledger.specs.Steps.{hold_step, release_step, edit_step, ask_step, run_step, slot_step, full_slot_step};
    ghost use Rattle.filter.specs.Compared.{granted_only, tag_of, refusal_of, HandedBack};
    ghost use Rattle.filter.specs.Holds.{HoldGiven, SameHold, TokenOf};
    ghost use Rattle.filter.specs.StandsFor.{StandsFor, StandsForOne, Follows};
    ghost use Rattle.filter.specs.Writes.{all_slots, edit_writes};

    /// A filter over the device with this tag: every slot is emptied, and it holds no numbers.
    pub fn open(device: D, tag: u64) -> Filter<D>
        ensures opened { StandsFor D.RowDevice result
            (opened (D.state device).width (length (D.state device).slots) tag) }
        ensures beside { KeptBeside D.RowDevice device (all_slots (length (D.state device).slots))
            result.device }
    {
        let mut device = device;
        empty_from(&mut device, 0);
        device.mute(false);
        Filter {
            device,
            runs: RunTable::empty(),
            held: false,
            tag,
        }
    }

    /// Ends the filter and gives the device back as it is.
    pub fn into_device(self) -> D
        ensures device { result ≡ self.device }
        ensures stands { StandsForOne D.RowDevice self }
    {
        let Filter {
            device,
            runs: _,
            held: _,
            tag: _,
        } = self;
        device
    }

    /// Mutes the device and hands out a token. Refused 8 if the filter is held.
    pub fn hold(&mut self) -> Result<HoldToken, Refusal>
        ensures step { Follows D.RowDevice self.old hold_step (tag_of result) self.new }
        ensures untouched_when_refused { is_err result ≡ true → self.new ≡ self.old }
        ensures refused_if_held { is_err result ≡ self.old.held }
        ensures token { HoldGiven self.new result }
        ensures beside { KeptBeside D.RowDevice self.old.device [] self.new.device }
        ensures stood { StandsForOne D.RowDevice self.old }
    {
        if self.held {
            return Err(Refusal::FilterHeld);
        }
        self.device.mute(true);
        self.held = true;
        Ok(HoldToken { tag: self.tag })
    }

    /// Takes the token back and turns the mute off. Refused 9 if the filter is not held or the token is another
    /// filter's; the token is handed back then.
    pub fn release(&mut self, token: HoldToken) -> Result<(), RefusedRelease>
        ensures step { Follows D.RowDevice self.old (release_step token.tag) (refusal_of result) self.new }
        ensures untouched_when_refused { is_err result ≡ true → self.new ≡ self.old }
        ensures handed_back_when_refused { HandedBack token result }
        ensures refused_unless_it_fits { is_err result ≡ not (self.old.held && token.tag == self.old.tag) }
        ensures granted { TokenOf self.old token → result ≡ Ok tt }
        ensures free_when_granted { IfOk result (λ _. self.new.held ≡ false) }
        ensures beside { KeptBeside D.RowDevice self.old.device [] self.new.device }
        ensures stood { StandsForOne D.RowDevice self.old }
    {
        if !self.held_by(&token) {
            return Err(RefusedRelease {
                refusal: Refusal::NotHeld,
                token,
            });
        }
        let HoldToken { tag: _ } = token;
        self.device.mute(false);
        self.held = false;
        Ok(())
    }

    // Whether the filter is held and the token is its own.
    fn held_by(&self, token: &HoldToken) -> bool
        ensures value { result ≡ (self.now.held && token.now.tag == self.now.tag) }
        ensures stands { StandsForOne D.RowDevice self.now }
    {
        self.held && token.tag == self.tag
    }

    /// The held numbers gain the range; answers how many rows they need. Refused as an edit.
    pub fn add(&mut self, token: &HoldToken, range: Range) -> Result<usize, Refusal>
        ensures step { Follows D.RowDevice self.old (edit_step token.now.tag (Add range)) result self.new }
        ensures untouched_when_refused { is_err result ≡ true → self.new ≡ self.old }
        ensures hold_stays { SameHold self.old self.new }
        ensures beside { KeptBeside D.RowDevice self.old.device
            (edit_writes result (length (D.state self.old.device).slots)) self.new.device }
        ensures stood { StandsForOne D.RowDevice self.old }
    {
        self.edit(token, Edit::Add(range))
    }

    /// The held numbers lose the range; answers how many rows they need. Refused as an edit.
    pub fn drop(&mut self, token: &HoldToken, range: Range) -> Result<usize, Refusal>
        ensures step { Follows D.RowDevice self.old (edit_step token.now.tag (Drop range)) result self.new }
        ensures untouched_when_refused { is_err result ≡ true → self.new ≡ self.old }
        ensures hold_stays { SameHold self.old self.new }
        ensures beside { KeptBeside D.RowDevice self.old.device
            (edit_writes result (length (D.state self.old.device).slots)) self.new.device }
        ensures stood { StandsForOne D.RowDevice self.old }
    {
        self.edit(token, Edit::Drop(range))
    }

    /// The held numbers after the edit; answers how many rows they need. Refused 9 if the filter is not held or the
    /// token is another filter's, then 2 if an end of the range is no number of the width, 6 if over 16 runs would be
    /// held, and 7 if their rows outnumber the slots. All of this is known before the device is written.
    pub fn edit(&mut self, token: &HoldToken, edit: Edit) -> Result<usize, Refusal>
        ensures step { Follows D.RowDevice self.old (edit_step token.now.tag edit) result self.new }
        ensures untouched_when_refused { is_err result ≡ true → self.new ≡ self.old }
        ensures hold_stays { SameHold self.old self.new }
        ensures beside { KeptBeside D.RowDevice self.old.device
            (edit_writes result (length (D.state self.old.device).slots)) self.new.device }
        ensures stood { StandsForOne D.RowDevice self.old }
    {
        if !self.held_by(token) {
            return Err(Refusal::NotHeld);
        }
        let width = self.device.width();
        let runs = self.runs.after_edit(width, edit)?;
        let mut rows = RunRows::new();
        add_rows_of_runs(width, runs.runs(), self.device.slot_count(), &mut rows)?;
        place_rows(&mut self.device, &rows);
        self.runs = runs;
        Ok(rows.len())
    }

    /// Whether the number is held: what the device answers. Refused 8 while the filter is held, then 2 if it is no
    /// number of the width.
    pub fn ask(&self, number: u64) -> Result<bool, Refusal>
        ensures answer { Follows D.RowDevice self.now (ask_step number) result self.now }
        ensures as_the_device { self.now.held ≡ false →
            result ≡ ask_answer (D.state self.now.device) number }
        ensures refused_if_held { self.now.held ≡ true → result ≡ Err FilterHeld }
        ensures stands { StandsForOne D.RowDevice self.now }
    {
        if !self.held {
            let said = self.device.ask(number)?;
            return Ok(said);
        }
        Err(Refusal::FilterHeld)
    }

    /// The row in a slot, or nothing. Refused 4 if there are not so many slots.
    pub fn report_slot(&self, slot: usize) -> Result<Option<Row>, Refusal>
        ensures content { result ≡ read_answer (D.state self.now.device) slot }
        ensures answer { Follows D.RowDevice self.now (slot_step slot) (granted_only result) self.now }
        ensures in_full { Follows D.RowDevice self.now (full_slot_step slot) result self.now }
        ensures stands { StandsForOne D.RowDevice self.now }
    {
        let content = self.device.read(slot)?;
        Ok(content)
    }

    /// Both ends of a run of the held numbers, as a pair, or nothing beyond the last.
    pub fn report_run(&self, index: usize) -> Option<(u64, u64)>
        ensures answer { Follows D.RowDevice self.now (run_step index) result self.now }
        ensures stands { StandsForOne D.RowDevice self.now }
    {
        self.runs.get(index)
    }

    /// The width of the numbers, as the device has it.
    pub fn width(&self) -> Width
        ensures answer { places_of result ≡ (D.state self.now.device).width }
        ensures stands { StandsForOne D.RowDevice self.now }
    {
        self.device.width()
    }

    /// How many slots the device has.
    pub fn slot_count(&self) -> usize
        ensures answer { result ≡ length (D.state self.now.device).slots }
        ensures stands { StandsForOne D.RowDevice self.now }
    {
        self.device.slot_count()
    }
}
