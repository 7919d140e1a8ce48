// What holds of the records, as the contract of a small function.
ghost use Rattle.covers.specs.Equality.{IsEquality};

use super::record::SlotRecord;

// `==` of records is equality.
fn equality()
    ensures slot_record { IsEquality ⟦<SlotRecord as PartialEq>⟧.eq }
{}
