//! The laws of netlists in which the elements of a flat list stand.
ghost use Rattle.lowered_laws.specs.Rows.{StandingRowsFollow, StandingRowsRun, StandingLoadsFall};

/// In every run of a netlist in which a flat list stands, and in which each to-server channel keeps its refused offers: each channel keeps
/// its refused offers, and what was offered and what was transferred there are the beginning of the stream function of the flat list, of the
/// words that went over the to-server channels, each list followed by the word that was refused in the newest cycle.
pub fn standing_rows_follow_flow()
    ensures { StandingRowsFollow }
{}

/// Each flat list that stands in a netlist runs there as a row of elements. Where no element is a join and the to-server channels offer
/// values that stand in line, no cycle lets the load of that row rise, and it falls in each cycle in which all to-client channels are ready
/// and load is left.
pub fn standing_loads_fall()
    ensures rows { StandingRowsRun }
    ensures falls { StandingLoadsFall }
{}
