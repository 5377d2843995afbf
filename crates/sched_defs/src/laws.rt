//! Laws of states and events.
ghost use Rattle.sched_defs.specs.Laws.{StartIsSound, ArrivalsKeepSound, DeparturesKeepSound, EventsKeepSound, HeldStandInLeaves, PushesAddOne, DeparturesTakeOne, NoneIsLost, NothingIsDroppedWithoutLimits, ClassicLimitsFillLeaves, ArrivalsComeToLeaves, NothingLeavesWhereNothingIsHeld, PacketsLeaveTheirLeaves, EventsJoin, DeparturesCanBeMade, CoursesCanBeMade, CoursesAreShort, DrainsLeaveNothing, EachDrainLeavesNothing, LastDrainsLeaveNothing, LinksCanRun, LinksSendAll, LinksSendWhatIsDue, LinksSendBeforeEach};

/// Arrivals and departures keep a state sound, from the start on.
pub fn events_keep_states_sound()
    ensures start { StartIsSound }
    ensures arrivals { ArrivalsKeepSound }
    ensures departures { DeparturesKeepSound }
    ensures events { EventsKeepSound }
{}

/// In a sound state, as many packets are queued as are in the leaves. A push adds one, and a
/// departure takes one.
pub fn held_packets_stand_in_leaves()
    ensures count { HeldStandInLeaves }
    ensures pushes { PushesAddOne }
    ensures departures { DeparturesTakeOne }
    ensures events { NoneIsLost }
    ensures drops { NothingIsDroppedWithoutLimits }
{}

/// With a policy that version 1 or 2 of the language can write, a packet is dropped exactly if its
/// leaf has a limit that is reached.
pub fn classic_limits_fill_leaves()
    ensures { ClassicLimitsFillLeaves }
{}

/// Packets arrive at the leaves of their classes and depart from them. No packet departs exactly if
/// none is queued.
pub fn packets_keep_to_their_leaves()
    ensures arrivals { ArrivalsComeToLeaves }
    ensures departures { PacketsLeaveTheirLeaves }
    ensures none { NothingLeavesWhereNothingIsHeld }
{}

/// Events in a row have the effect of a prefix of them, followed by the others.
pub fn events_join()
    ensures joined { EventsJoin }
    ensures departures { DeparturesCanBeMade }
{}

/// The events of a script can be made over packets in the order of a capture. There are at most as
/// many as the script asks for, plus two for each packet.
pub fn courses_can_be_made()
    ensures made { CoursesCanBeMade }
    ensures short { CoursesAreShort }
{}

/// A `drain` step takes each packet that is queued, makes no departure that finds nothing, and
/// leaves no packet queued. The clause `step` says it of each sound state of an accepted policy.
/// `each` says it of each `drain` of a script, and `last` of a run after a script that ends with
/// one. Their premises hold in each run: every `Policy` is accepted, the start is sound, and the
/// packets arrive in the order of a capture.
pub fn drains_leave_nothing()
    ensures step { DrainsLeaveNothing }
    ensures each { EachDrainLeavesNothing }
    ensures last { LastDrainsLeaveNothing }
{}

/// The events that a link paces can be made over packets in the order of a capture. Each packet is
/// pushed or dropped, no departure finds nothing, and after a whole capture all is sent.
pub fn links_send_all()
    ensures made { LinksCanRun }
    ensures sent { LinksSendAll }
{}

/// Before a packet arrives, a link stops sending only if no packet is queued or the link isn't free
/// before the packet's timestamp. It starts no departure at that timestamp or later. The clause
/// `due` says it of each sound state of an accepted policy, and `each` of each packet of a run, by
/// the premises of `drains_leave_nothing`.
pub fn links_send_what_is_due()
    ensures due { LinksSendWhatIsDue }
    ensures each { LinksSendBeforeEach }
{}
