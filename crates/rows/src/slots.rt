// The slots of a device.

/// The most slots of a device, and so the most rows that are made for one.
pub const MOST_SLOTS: usize = 120;
