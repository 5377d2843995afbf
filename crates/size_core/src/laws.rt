//! The laws that follow from the definitions of sizes.
ghost use Rattle.size_core.specs.Laws.{SizesAreDetermined, SizesAreOfTheRun};

/// The results of a sizing of a whole run are the sizes of the run's outcomes.
pub fn sizes_are_of_the_run()
    ensures { SizesAreOfTheRun }
{}

/// A run has one result: any two have the same nodes, entries and overflow.
pub fn sizes_are_determined()
    ensures { SizesAreDetermined }
{}
