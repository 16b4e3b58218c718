//! The laws of lowered netlists.
ghost use Rattle.lowered_designs.specs.Cycles.{LoweredListsRun};
ghost use Rattle.lowered_designs.specs.FifoPipe.{FifosAreReady};
ghost use Rattle.lowered_designs.specs.Pipe.{PipesStand, PipesAreLowered, PipesAreReady};
ghost use Rattle.lowered_designs.specs.Planned.{PlannedDesignsAreReady};
ghost use Rattle.lowered_designs.specs.Designs.{LoweredListsStand, LoweredDesignsFollowFlow, LoweredLoadsFall};
ghost use Rattle.lowered_designs.specs.Sessions.{SessionsHandPrefixes, SessionsHandAll};
ghost use Rattle.lowered_designs.specs.Signals.{FittingListsAreSignalledWell};

use flat_design::flat_law;

/// In the netlist of a pipe of one stage of octets, as the table of lowering gives it by hand, the flat list of that one stage stands
/// between its two channels. It is the netlist to which that list is lowered, and the list meets all that the laws here ask of one.
pub fn pipes_stand()
    ensures stands { PipesStand }
    ensures lowered { PipesAreLowered }
    ensures ready { PipesAreReady }
{}

/// So does the flat list of a FIFO with an as_vr behind it, between which a channel has FIFO signalling.
pub fn fifos_are_ready()
    ensures { FifosAreReady }
{}

/// A flat list that can be lowered, and whose channels are signalled well, stands in the netlist that it is lowered to.
pub fn lowered_lists_stand()
    ensures { LoweredListsStand }
{}

/// In every run of that netlist in which each to-server channel keeps its refused offers: each channel keeps its refused offers, and what
/// was offered and what was transferred there are the beginning of the stream function of the flat list, of the words that went over the
/// to-server channels, each list followed by the word that was refused in the newest cycle.
pub fn lowered_designs_follow_flow()
    ensures { LoweredDesignsFollowFlow }
{}

/// Where no element is a join and the to-server channels offer values that stand in line, no cycle lets the load of that flat list rise,
/// and it falls in each cycle in which all to-client channels are ready and load is left.
pub fn lowered_loads_fall()
    ensures { LoweredLoadsFall }
{}

/// A good flat list whose parts pass the test `signals_test`, and which hands out no channel with FIFO signalling, has its channels
/// signalled well.
pub fn fitting_lists_are_signalled_well()
    ensures { FittingListsAreSignalledWell }
{}

/// In cycles of any kind that have the words of all nets, such a flat list runs as a row of elements. Where no element is a join nothing is
/// missing: after as many cycles with all to-client channels ready and nothing joining the lines as the load was before them, what was
/// transferred on each channel is the whole stream of what was transferred on the to-server channels; and a session that ends with more
/// quiet cycles than 1 + W for each value that was put misses nothing, W the greatest weight of a to-server channel.
pub fn lowered_lists_run<C>()
    ensures { LoweredListsRun C }
{}

/// What `flat_design` lays out of good plans, over good parts that fit the widths and the signalling of their channels, can be lowered, and
/// its channels are signalled well, where the words of the given channels are of widths that there are and no channel with FIFO signalling
/// is handed out.
pub fn planned_designs_are_ready()
    ensures { PlannedDesignsAreReady }
{
    flat_law();
}

/// In every session over that netlist, at each moment, what was handed of a channel so far is the beginning of the stream function of the
/// flat list, of the values that were taken: values are taken into rings before the to-server channels, which offer their fronts, and handed
/// out of rings behind the to-client channels (`begins`). Where no element is a join and the session ends with more quiet cycles than 1 + W
/// for each value that was put, W the greatest weight of a to-server channel, what was handed of each to-client channel is all of that
/// stream (`whole`).
pub fn sessions_hand_prefixes<C>()
    ensures begins { SessionsHandPrefixes C }
    ensures whole { SessionsHandAll C }
{}
