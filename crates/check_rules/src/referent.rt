//! What a reference of a statement may refer to.

/// What a reference refers to, and which way it goes.
#[derive(Clone, Copy, Debug, PartialEq, Eq)]
pub enum Referent {
    /// An `in` port of the module whose body it is.
    InPort,
    /// An `out` port of the module whose body it is.
    OutPort,
    /// A channel of the body.
    Channel,
    /// A `to_hw` member of a request's bundle.
    ToHardware,
    /// A `from_hw` member of a request's bundle.
    FromHardware,
    /// An `in` port of an instance.
    InstanceIn,
    /// An `out` port of an instance.
    InstanceOut,
}

/// What becomes of a name that is looked up.
#[derive(Clone, Copy, Debug, PartialEq, Eq)]
pub enum Resolution {
    /// It is declared, and refers to this.
    To(Referent),
    /// A name in it is declared nowhere.
    Undeclared {
        /// The offset of that name.
        at: usize,
    },
    /// What it is to be a part of is declared nowhere itself, so that nothing is said of it.
    Silent,
}
