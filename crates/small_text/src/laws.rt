//! What readers of small texts may rely on, each as the contract of a function that does nothing.
ghost use Rattle.small_text.specs.HexadecimalLaws.{ReadAgain};
ghost use Rattle.small_text.specs.LineLaws.{EachAscends, PartsAreRuns, PlacesAreRight};

/// The first part of a line stands before its other parts, and each of these before the next.
pub fn parts_ascend_law()
    ensures { EachAscends }
{}

/// Octets are read again as they were printed, and nothing else is read as octets.
pub fn octets_again_law()
    ensures { ReadAgain }
{}

/// The parts of a line are its longest runs of octets other than space, and all of them.
pub fn parts_are_runs_law()
    ensures { PartsAreRuns }
{}

/// The place of each part is the place of its first octet in the text.
pub fn places_law()
    ensures { PlacesAreRight }
{}
