//! The statements of a body, and the operations that make channels.
use crate::expression::Expression;
use crate::leaves::{ApplicationId, Name, Number, Reference};
use channel_types::EsiType;
use esi_base::List;

/// What an instance's port is bound to.
#[derive(Debug, Drop)]
pub struct Binding {
    /// The port of the module.
    pub port: Name,
    /// What it is bound to.
    pub source: Reference,
}

/// An operation, which makes channels from others.
#[derive(Debug, Drop)]
pub enum Operation {
    /// A register stage.
    Stage(Reference),
    /// Copies of a channel.
    Fork(Reference),
    /// FIFO signalling from valid and ready.
    AsFifo(Reference),
    /// Valid and ready from FIFO signalling.
    AsVr(Reference),
    /// A number of stages in a row.
    Buffer {
        /// How many stages.
        stages: Number,
        /// The channel that goes through them.
        source: Reference,
    },
    /// A queue that holds up to a number of values.
    Fifo {
        /// How many values the queue holds.
        depth: Number,
        /// The channel that goes through it.
        source: Reference,
    },
    /// Two channels in step.
    Join {
        /// The first channel.
        left: Reference,
        /// The second channel.
        right: Reference,
    },
    /// A function of each value.
    Map {
        /// The channel of the values.
        source: Reference,
        /// The name of the value in the body.
        variable: Name,
        /// The expression that gives the result for each value.
        body: Expression,
    },
    /// A function of a state and each value, which is the next state too.
    Scan {
        /// The channel of the values.
        source: Reference,
        /// The name of the state in the body.
        state: Name,
        /// The type of the state.
        ty: EsiType,
        /// The first state.
        initial: Number,
        /// The name of the value in the body.
        variable: Name,
        /// The expression that gives the result for each value, which is the next state too.
        body: Expression,
    },
}

/// A statement of a module's body, or of the top's.
#[derive(Debug, Drop)]
pub enum Statement {
    /// Requests the channels of a service's port under an application id.
    Request {
        /// The offset of the first octet of `request`.
        at: usize,
        /// The name of the service.
        service: Name,
        /// The name of the service's port.
        port: Name,
        /// The application id of the channels.
        id: ApplicationId,
    },
    /// An instance of a module.
    Instance {
        /// The offset of the first octet of `inst`.
        at: usize,
        /// The application id of the instance.
        id: ApplicationId,
        /// The name of the module.
        module: Name,
        /// What its ports are bound to, in the text's order, maybe none.
        bindings: List<Binding>,
    },
    /// Names for the channels that an operation makes.
    Channels {
        /// The offset of the first octet of `chan`.
        at: usize,
        /// The names of the channels, in the text's order, one at least.
        names: List<Name>,
        /// The operation that makes them.
        operation: Operation,
    },
    /// Drives an output.
    Drive {
        /// The offset of the first octet of `drive`.
        at: usize,
        /// The output that is driven.
        sink: Reference,
        /// What it is driven by.
        source: Reference,
    },
}
