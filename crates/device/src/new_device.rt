// Devices that can be made anew.
ghost use Rattle.std.specs.Prelude.{◌≡◌, [], min};
ghost use Rattle.rows.specs.Widths.{places_of};
ghost use Rattle.device.specs.States.{blank_state};

use super::device::RowDevice;
use rows::width::Width;

/// A device that is made of a width and a wish for slots alone, so that a caller may choose the device by its type.
pub trait NewDevice: RowDevice {
    /// A device of so many slots, or of 120 if more are wished, its slots empty and the mute off. It lies over no other.
    fn new(width: Width, slots: usize) -> Self
        ensures begins { Self.state result ≡ blank_state (places_of width) (min 120 slots) }
        ensures no_levels { Self.levels result ≡ [] };
}
