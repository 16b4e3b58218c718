//! The declarations before the top: bundles, services and modules.
use crate::leaves::Name;
use crate::statements::Statement;
use channel_types::EsiType;
use esi_base::List;

/// Which way a bundle's channel goes.
#[derive(Clone, Copy, Debug, PartialEq, Eq)]
pub enum Direction {
    /// `to_hw`: from the host to the hardware.
    ToHardware,
    /// `from_hw`: from the hardware to the host.
    FromHardware,
}

impl Direction {
    ghost use Rattle.std.specs.Prelude.{◌≡◌};
    ghost use Rattle.design_tree.specs.Words.{direction_word};

    /// The word with which the direction is written.
    pub fn word(self) -> &'static [u8]
        ensures { result.now ≡ direction_word self }
    {
        match self {
            Direction::ToHardware => b"to_hw",
            Direction::FromHardware => b"from_hw",
        }
    }
}

/// A channel of a bundle.
#[derive(Debug, Drop)]
pub struct Member {
    /// The channel's name in the bundle.
    pub name: Name,
    /// Which way it goes.
    pub direction: Direction,
    /// The type of its values.
    pub ty: EsiType,
}

/// A bundle: channels under one name.
#[derive(Debug, Drop)]
pub struct Bundle {
    /// The bundle's name.
    pub name: Name,
    /// Its channels, in the text's order, one at least.
    pub members: List<Member>,
}

/// A port of a service, at which a bundle of channels may be requested.
#[derive(Debug, Drop)]
pub struct ServicePort {
    /// The port's name in the service.
    pub name: Name,
    /// The name of the bundle that a request of the port gives.
    pub bundle: Name,
}

/// A service that a top may implement.
#[derive(Debug, Drop)]
pub struct Service {
    /// The service's name.
    pub name: Name,
    /// Its ports, in the text's order, one at least.
    pub ports: List<ServicePort>,
}

/// Which way a module's port goes.
#[derive(Clone, Copy, Debug, PartialEq, Eq)]
pub enum PortDirection {
    /// `in`: into the module.
    In,
    /// `out`: out of the module.
    Out,
}

impl PortDirection {
    ghost use Rattle.std.specs.Prelude.{◌≡◌};
    ghost use Rattle.design_tree.specs.Words.{port_direction_word};

    /// The word with which the direction is written.
    pub fn word(self) -> &'static [u8]
        ensures { result.now ≡ port_direction_word self }
    {
        match self {
            PortDirection::In => b"in",
            PortDirection::Out => b"out",
        }
    }
}

/// A port of a module.
#[derive(Debug, Drop)]
pub struct ModulePort {
    /// Which way the port goes.
    pub direction: PortDirection,
    /// The port's name in the module.
    pub name: Name,
    /// The type of its values.
    pub ty: EsiType,
}

/// A module: a part of a design, of which there may be any number of instances.
#[derive(Debug, Drop)]
pub struct Module {
    /// The module's name.
    pub name: Name,
    /// Its ports, in the text's order, maybe none.
    pub ports: List<ModulePort>,
    /// The statements of its body, in the text's order, maybe none.
    pub body: List<Statement>,
}

/// A declaration before the top.
#[derive(Debug, Drop)]
pub enum Declaration {
    /// A bundle of channels.
    Bundle(Bundle),
    /// A service that a top may implement.
    Service(Service),
    /// A module.
    Module(Module),
}
