//! The inputs and the ports of lowered netlists.
ghost use Rattle.std.specs.Prelude.{◌≡◌, ℕ, ◌++◌, List, length};
ghost use Rattle.netlist.specs.declared.part.Part.{Part};
ghost use Rattle.flat_design.specs.declared.element.Flat.{Flat};
ghost use Rattle.channel_lower.specs.Lowering.{lowered};
ghost use Rattle.session_rules.specs.Ports.{two_each};
ghost use Rattle.lowered_ports.specs.InputWidths.{input_widths};
ghost use Rattle.lowered_ports.specs.LoweredPorts.{LoweredHavePorts};
ghost use Rattle.lowered_ports.specs.PassInputs.{channel_widths, one_each};

/// The inputs of the netlist of a flat list are, in order: for each to-server channel one of a bit and one as wide as the channel, then
/// one of a bit for each to-client endpoint. Elements have none.
pub fn only_ports_are_inputs()
    ensures { (parts : List Part) (flat : Flat) (servers : ℕ) (clients : List ℕ)
        → input_widths (lowered parts flat servers clients).netlist.nets ≡ two_each (channel_widths flat.widths servers) ++ one_each (length clients) }
{}

/// A lowered flat list of at most 32 channels on each side has its ports, so that a session can run it.
pub fn lowered_lists_have_ports()
    ensures { LoweredHavePorts }
{}
