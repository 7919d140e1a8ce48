// The theorems, each the contract of a small function.
ghost use Rattle.circle.specs.Theorems.{LastsDetermined, RowsOfRuns, RunsAreRuns, RunsDetermined, RunsOfEqualSets, RunsUntouched, UntouchedAsWritten, UntouchedBounded};

fn lasts_are_determined()
    ensures holds { LastsDetermined }
{}

fn runs_are_runs()
    ensures holds { RunsAreRuns }
{}

fn runs_are_determined()
    ensures holds { RunsDetermined }
{}

fn equal_sets_have_equal_runs()
    ensures holds { RunsOfEqualSets }
{}

fn runs_do_not_touch()
    ensures holds { RunsUntouched }
{}

fn touching_as_written()
    ensures holds { UntouchedAsWritten }
{}

fn untouched_runs_are_bounded()
    ensures holds { UntouchedBounded }
{}

fn rows_of_runs_are_exact_and_few()
    ensures holds { RowsOfRuns }
{}
