//! The statuses of answers, by their names.

/// Statuses of calls ("gRPC over HTTP/2", Status; the numbers are those of gRPC's list of status codes).
pub mod grpc {
    /// The call was answered.
    pub const OK: u8 = 0;

    const _: () = prove!(OK == 0);

    /// What the call was made with is none of what it takes.
    pub const INVALID_ARGUMENT: u8 = 3;

    const _: () = prove!(INVALID_ARGUMENT == 3);

    /// There is no channel of the name.
    pub const NOT_FOUND: u8 = 5;

    const _: () = prove!(NOT_FOUND == 5);

    /// The channel is attached already.
    pub const ALREADY_EXISTS: u8 = 6;

    const _: () = prove!(ALREADY_EXISTS == 6);

    /// A limit is reached.
    pub const RESOURCE_EXHAUSTED: u8 = 8;

    const _: () = prove!(RESOURCE_EXHAUSTED == 8);

    /// The channel goes the other way.
    pub const FAILED_PRECONDITION: u8 = 9;

    const _: () = prove!(FAILED_PRECONDITION == 9);

    /// The server does not do this.
    pub const UNIMPLEMENTED: u8 = 12;

    const _: () = prove!(UNIMPLEMENTED == 12);
}

/// Statuses of HTTP (RFC 9110, section 15).
pub mod http {
    /// The request was understood (section 15.3.1).
    pub const OK: u16 = 200;

    const _: () = prove!(OK == 200);

    /// The method is none that the server has for this (section 15.5.6).
    pub const METHOD_NOT_ALLOWED: u16 = 405;

    const _: () = prove!(METHOD_NOT_ALLOWED == 405);

    /// The content is none of the kind that the server takes (section 15.5.16).
    pub const UNSUPPORTED_MEDIA_TYPE: u16 = 415;

    const _: () = prove!(UNSUPPORTED_MEDIA_TYPE == 415);
}
