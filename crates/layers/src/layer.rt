// The layer: a device that carries everything to the lines of the device below it.
ghost use Rattle.std.specs.Prelude.{◌≡◌, refl};
ghost use Rattle.std.proofs.Common.{◌∙◌};
ghost use Rattle.device.specs.KeptBeside.{KeptBeside};
ghost use Rattle.device.specs.KeptBesideLaws.{kept_at_rest, kept_on};
ghost use Rattle.layers.specs.Layers.{layer_state, layer_levels, number_below, row_below};
ghost use Rattle.layers.specs.LayerLaws.{layer_lawful, layer_beneath};

use super::line_map::LineMap;
use device::checks::{check_number, check_row};
use device::device::RowDevice;
use rows::refusal::Refusal;
use rows::row::Row;
use rows::width::Width;

// A device over another one, which holds each row as the map carries it.
#[derive(Drop)]
pub struct Layer<M, D> {
    map: M,
    below: D,
}

impl<M: LineMap, D: RowDevice> Layer<M, D> {
    pub fn new(map: M, device: D) -> Layer<M, D>
        ensures map { result.map ≡ map }
        ensures below { result.below ≡ device }
        ensures means { ⟦<Layer<M, D> as RowDevice>⟧.state result ≡
            layer_state (M.carrying map) (D.state device) }
        ensures levels { ⟦<Layer<M, D> as RowDevice>⟧.levels result ≡
            layer_levels (M.carrying map) (D.state device) (D.levels device) }
    {
        Layer { map, below: device }
    }

    // The map and the device below.
    pub fn into_parts(self) -> (M, D)
        ensures map { result.0 ≡ self.map }
        ensures below { result.1 ≡ self.below }
        ensures means { ⟦<Layer<M, D> as RowDevice>⟧.state self ≡
            layer_state (M.carrying result.0) (D.state result.1) }
        ensures levels { ⟦<Layer<M, D> as RowDevice>⟧.levels self ≡
            layer_levels (M.carrying result.0) (D.state result.1) (D.levels result.1) }
    {
        let Layer { map, below } = self;
        (map, below)
    }

    // The number as the device below is asked it: carried, unless it lies outside the width.
    fn number_below(&self, number: u64) -> u64
        ensures value { result ≡ number_below (M.carrying self.now.map) (D.state self.now.below) number }
    {
        let width = self.below.width();
        if check_number(number, width).is_ok() {
            self.map.number_there(width, number)
        } else {
            number
        }
    }

    // The row as it is put below: carried, unless it cares beyond the width.
    fn row_below(&self, row: Row) -> Row
        ensures value { result ≡ row_below (M.carrying self.now.map) (D.state self.now.below) row }
    {
        let width = self.below.width();
        if check_row(row, width).is_ok() {
            self.map.row_there(width, row)
        } else {
            row
        }
    }

    // A row of the device below as it is read here.
    fn row_above(&self, row: Row) -> Row
        ensures value { result ≡ (M.carrying self.now.map (D.state self.now.below).width).row_back row }
    {
        self.map.row_back(self.below.width(), row)
    }
}

#[tactic(auto, using(crate::proofs::Ways::ways_after_put, crate::proofs::Ways::ways_after_empty, crate::proofs::Ways::ways_same))]
impl<M: LineMap, D: RowDevice> RowDevice for Layer<M, D> {
    ghost state = { λ l. layer_state (M.carrying l.map) (D.state l.below) };

    ghost lawful = { λ l. layer_lawful (M.carrying l.map) (D.state l.below) (M.carries l.map) (D.lawful l.below) };

    ghost levels = { λ l. layer_levels (M.carrying l.map) (D.state l.below) (D.levels l.below) };

    ghost beneath = { λ l. layer_beneath (M.carrying l.map) (D.state l.below) (D.levels l.below) (M.carries l.map) (D.lawful l.below) (D.beneath l.below) };

    // the map stays, and so does what the device below keeps
    ghost keeps = { λ k written l. (l.map ≡ k.map) × KeptBeside D.RowDevice k.below written l.below };

    ghost keeps_at_rest = { λ l. (refl, kept_at_rest D.RowDevice l.below) };

    ghost keeps_on = { λ k l m before after g h. (h.0 ∙ g.0, kept_on D.RowDevice k.below l.below m.below before after g.1 h.1) };

    fn put(&mut self, slot: usize, row: Row) -> Result<(), Refusal> {
        let carried = self.row_below(row);
        self.below.put(slot, carried)?;
        Ok(())
    }

    fn empty(&mut self, slot: usize) -> Result<(), Refusal> {
        self.below.empty(slot)?;
        Ok(())
    }

    fn read(&self, slot: usize) -> Result<Option<Row>, Refusal> {
        let held = self.below.read(slot)?;
        Ok(held.map(|row| self.row_above(row)))
    }

    fn mute(&mut self, on: bool) {
        self.below.mute(on);
    }

    fn ask(&self, number: u64) -> Result<bool, Refusal> {
        let carried = self.number_below(number);
        let said = self.below.ask(carried)?;
        Ok(said)
    }

    fn width(&self) -> Width {
        self.below.width()
    }

    fn slot_count(&self) -> usize {
        self.below.slot_count()
    }
}
