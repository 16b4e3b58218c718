//! What a call asks for, and the rules that it breaks otherwise.
ghost use Rattle.std.specs.Prelude.{◌≡◌};

use crate::status::{grpc, http};
use esi_base::Word;

/// What a whole call asks for, or what it is answered.
#[derive(Clone, Copy, Debug)]
pub enum Asking {
    /// It is answered by this status of HTTP alone.
    Http(u16),
    /// It is answered by this status of gRPC.
    Status(u8),
    /// The list of the channels.
    Listing,
    /// This value for the to-server channel of this index: it waits until it is taken.
    Put { channel: u32, word: Word },
    /// What comes out of the to-client channel of this index.
    Attach { channel: u32 },
}

/// The rules of calls, in the order in which they are checked.
#[derive(Clone, Copy, Debug, PartialEq, Eq)]
pub enum CallRule {
    /// The method is POST ("gRPC over HTTP/2", Requests: Method).
    Method,
    /// There is a content type, and each one begins with `application/grpc` (Content-Type).
    ContentType,
    /// The path is that of a procedure of the service (Path).
    Path,
    /// The procedure is one that this server has: not GetManifest.
    Procedure,
    /// The content has the five octets of a message's prefix (Length-Prefixed-Message).
    Prefix,
    /// The message is not compressed: its flag is not 1 (Compressed-Flag).
    Uncompressed,
    /// The flag is one that gRPC has: not above 1.
    Flag,
    /// The length in the prefix is that of what stands after it (Message-Length).
    Length,
    /// What stands there is the message that the procedure takes.
    Message,
    /// Some endpoint has the name.
    Name,
    /// The channel of the name goes the way that the procedure asks for.
    Side,
    /// The octets to be sent are those of a value of the channel's type.
    Value,
}

impl CallRule {
    ghost use Rattle.grpc_calls.specs.CallRules.{answer_of};

    /// What a call is answered that breaks the rule.
    pub fn answer(self) -> Asking
        ensures { result ≡ answer_of self }
    {
        match self {
            CallRule::Method => Asking::Http(http::METHOD_NOT_ALLOWED),
            CallRule::ContentType => Asking::Http(http::UNSUPPORTED_MEDIA_TYPE),
            CallRule::Path => Asking::Status(grpc::UNIMPLEMENTED),
            CallRule::Procedure => Asking::Status(grpc::UNIMPLEMENTED),
            CallRule::Prefix => Asking::Status(grpc::INVALID_ARGUMENT),
            CallRule::Uncompressed => Asking::Status(grpc::UNIMPLEMENTED),
            CallRule::Flag => Asking::Status(grpc::INVALID_ARGUMENT),
            CallRule::Length => Asking::Status(grpc::INVALID_ARGUMENT),
            CallRule::Message => Asking::Status(grpc::INVALID_ARGUMENT),
            CallRule::Name => Asking::Status(grpc::NOT_FOUND),
            CallRule::Side => Asking::Status(grpc::FAILED_PRECONDITION),
            CallRule::Value => Asking::Status(grpc::INVALID_ARGUMENT),
        }
    }
}
