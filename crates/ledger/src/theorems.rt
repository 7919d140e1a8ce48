//! The theorems, each the contract of a small function.
ghost use Rattle.ledger.specs.Ledger.{Ledger};
ghost use Rattle.ledger.specs.Theorems.{LedgerExample, RowsOfALedger};

#[tactic(auto, using(crate::proofs::Rows::ledger_rows_right))]
fn rows_of_a_ledger()
    ensures holds { (b : Ledger) → RowsOfALedger b }
{}

#[tactic(auto, using(crate::proofs::Example::example))]
fn steps_by_example()
    ensures holds { LedgerExample }
{}
