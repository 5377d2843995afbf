//! The laws of forwarded captures.
ghost use Rattle.forward_defs.specs.Keeping.{RecordsAreForwarded};
ghost use Rattle.forward_defs.specs.Laws.{ForwardedAreReadBack, LateEndsRuns, ForwardedRunsAreReadBack, OneLinkIsWhole};

/// The capture forwarded from outcomes is whole. It holds the departures that aren't late, packet
/// by packet, and nothing else.
pub fn forwarded_departures_are_read_back()
    ensures law { ForwardedAreReadBack }
{}

/// The events up to the first late departure are a prefix of a run's events.
pub fn a_late_departure_ends_a_run()
    ensures law { LateEndsRuns }
{}

/// The capture forwarded from a link's run is whole, and holds its departures up to the first late
/// one.
pub fn forwarded_runs_are_read_back()
    ensures law { ForwardedRunsAreReadBack }
{}

/// A capture whose packets have one link type is whole.
pub fn captures_of_one_link_are_whole()
    ensures law { OneLinkIsWhole }
{}

/// Writing the outcomes one by one gives the bytes forwarded from all of them. The captured bytes
/// of a packet are kept until it departs.
pub fn records_in_turn_are_forwarded()
    ensures law { RecordsAreForwarded }
{}
