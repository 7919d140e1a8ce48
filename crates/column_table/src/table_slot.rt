// A slot of a column table.
ghost use Rattle.std.specs.Prelude.{◌<◌};

// The index of a slot: a table has at most 120 slots, and a set of slots 128 bits.
#[derive(Clone, Copy)]
pub struct TableSlot {
    pub(super) index: usize,
    ghost within: { index < 128 },
}
