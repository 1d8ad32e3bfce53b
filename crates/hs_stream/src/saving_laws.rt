//! Laws of saved streams: each is the contract of a function that does nothing.
ghost use Rattle.hs_stream.specs.SavingLaws.{ExpandedGoesOn, ExpandedStands, FaultsAreOfThePlan};
ghost use Rattle.hs_stream.specs.SavingLaws.{HistoriesAreTaken, HistoriesHaveOneFile, SavedIsTaken};

/// What bytes hold of a stream of the database `expand` takes as that stream, unless memory is wanted.
pub fn saved_is_taken()
    ensures { SavedIsTaken }
{}

/// So it takes what was saved of any stream of bytes.
pub fn histories_are_taken()
    ensures { HistoriesAreTaken }
{}

/// A stream that was saved and expanded stands where it stood.
pub fn expanded_stands()
    ensures { ExpandedStands }
{}

/// A saved stream that is expanded reports what it would have reported, keeps the same region, and reports the same at
/// an end.
pub fn expanded_goes_on()
    ensures { ExpandedGoesOn }
{}

/// A stream of bytes is saved as one file, in whatever pieces they were written.
pub fn histories_have_one_file()
    ensures { HistoriesHaveOneFile }
{}

/// The place that is told of a region is the first one by the plan of the database.
pub fn faults_are_of_the_plan()
    ensures { FaultsAreOfThePlan }
{}
