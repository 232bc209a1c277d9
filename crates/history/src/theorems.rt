// What holds of the definitions of runs.
ghost use Rattle.history.specs.Worked.{WorkedCases, WorkedListing};

// The worked listing comes out.
pub fn listing_stands()
    ensures { WorkedListing }
{}

// The worked cases come out: readings, steps, and the listing of ten calls.
pub fn worked_cases_stand()
    ensures { WorkedCases }
{}
