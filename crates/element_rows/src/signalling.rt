//! Who reads a channel with FIFO signalling.
ghost use Rattle.element_rows.specs.Signalling.{FifosAreReadWell};

/// In a flat list whose channels are taken as they signal, each fifo is read only where it is not empty,
/// since only an `as_vr` reads it; so each element is in each cycle what it is where it is read well.
pub fn fifos_are_read_well<C>()
    ensures { FifosAreReadWell C }
{}
