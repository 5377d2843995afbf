//! The laws that follow from the definitions of sums.
ghost use Rattle.summary_core.specs.Laws.{DelaysAreOfTheDepartures, GroupsAreDetermined, GroupsAreOfTheRun, TimestampsAreKept};

/// The timestamp stored for a packet until it departs is the packet's own. So the sums depend on
/// the outcomes alone.
pub fn kept_timestamps_are_those_of_the_packets()
    ensures { TimestampsAreKept }
{}

/// The groups of a summary of a run are those of the run's outcomes, if each sum had room and there
/// are no more labels than leaves and classes.
pub fn groups_are_of_the_run()
    ensures { GroupsAreOfTheRun }
{}

/// The delays of a part, class by class, are those of its departures in another order.
pub fn delays_are_those_of_the_departures()
    ensures { DelaysAreOfTheDepartures }
{}

/// Outcomes determine their groups. So their sums have one text, and one JSON object.
pub fn groups_are_determined()
    ensures { GroupsAreDetermined }
{}
