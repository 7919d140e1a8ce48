// The theorems, each the contract of a small function.
ghost use Rattle.sheets.specs.Theorems.{OneReading, WorkedExample};

fn sheets_have_one_reading()
    ensures holds { OneReading }
{}

fn worked_example()
    ensures holds { WorkedExample }
{}
