// A device that is lent.
ghost use Rattle.std.specs.Prelude.{◌≡◌};

use super::device::RowDevice;
use rows::refusal::Refusal;
use rows::row::Row;
use rows::width::Width;

// Another's device, for as long as it is lent: what is called here is called there. So a filter can go over a device that
// somebody else keeps.
#[derive(Drop)]
pub struct LentDevice<'a, D> {
    device: &'a mut D,
}

impl<'a, D: RowDevice> LentDevice<'a, D> {
    pub fn new(device: &'a mut D) -> LentDevice<'a, D>
        ensures means { ⟦<LentDevice<'a, D> as RowDevice>⟧.state result ≡ D.state device.old }
        ensures levels { ⟦<LentDevice<'a, D> as RowDevice>⟧.levels result ≡ D.levels device.old }
        ensures same_device { result.device.ghost_name ≡ device.entry.ghost_name }
        ensures as_it_was { result.device.now ≡ device.old }
    {
        LentDevice { device }
    }
}

impl<D: RowDevice> RowDevice for LentDevice<'_, D> {
    ghost use Rattle.std.specs.Prelude.{refl};
    ghost use Rattle.std.proofs.Common.{◌∙◌};
    ghost use Rattle.device.specs.KeptBeside.{KeptBeside};
    ghost use Rattle.device.specs.KeptBesideLaws.{kept_at_rest, kept_on};

    ghost state = { λ l. D.state l.device.now };

    ghost lawful = { λ l. D.lawful l.device.now };

    ghost levels = { λ l. D.levels l.device.now };

    ghost beneath = { λ l. D.beneath l.device.now };

    // it is the very device that was lent, and keeps what that keeps
    ghost keeps = { λ k written l. (l.device.ghost_name ≡ k.device.ghost_name) × KeptBeside D.RowDevice k.device.now written l.device.now };

    ghost keeps_at_rest = { λ l. (refl, kept_at_rest D.RowDevice l.device.now) };

    ghost keeps_on = { λ k l m before after g h. (h.0 ∙ g.0, kept_on D.RowDevice k.device.now l.device.now m.device.now before after g.1 h.1) };

    fn put(&mut self, slot: usize, row: Row) -> Result<(), Refusal> {
        self.device.put(slot, row)?;
        Ok(())
    }

    fn empty(&mut self, slot: usize) -> Result<(), Refusal> {
        self.device.empty(slot)?;
        Ok(())
    }

    fn read(&self, slot: usize) -> Result<Option<Row>, Refusal> {
        let held = self.device.read(slot)?;
        Ok(held)
    }

    fn mute(&mut self, on: bool) {
        self.device.mute(on);
    }

    fn ask(&self, number: u64) -> Result<bool, Refusal> {
        let said = self.device.ask(number)?;
        Ok(said)
    }

    fn width(&self) -> Width {
        self.device.width()
    }

    fn slot_count(&self) -> usize {
        self.device.slot_count()
    }
}
