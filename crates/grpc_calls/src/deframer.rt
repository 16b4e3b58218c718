//! The messages of a stream that arrives in pieces.
ghost use Rattle.std.specs.Prelude.{◌≡◌, ◌↔◌, ◌+◌, ◌≤◌, [], length, take, drop, IfOk, IfErr, OnOk, OnErr};
ghost use Rattle.grpc_calls.specs.Messages.{IsCompressed, IsTooLong, IsUnfinished, HoldsMessage};
ghost use Rattle.grpc_calls.specs.declared.prefix.TheConstants.{PREFIX_OCTETS};
ghost use Rattle.grpc_calls.specs.Calls.{Feeds, HandsOut};
ghost use Rattle.grpc_calls.specs.Answers.{IfMessage, OnNoMessage, IsPending, IsStop};

use crate::prefix::{Front, PREFIX_OCTETS, read_front};
use esi_base::{NoMemory, OctetQueue, Octets, Poll};
use std::alloc::Global;
use std::marker::Model;

/// Why no message is given.
#[derive(Clone, Copy, Debug, PartialEq, Eq)]
pub enum DeframeStop {
    /// The flag of the next message's prefix is not 0: the message is compressed, or the flag none
    /// that gRPC has.
    Compressed,
    /// The length of the next message passes the limit.
    TooLong,
    /// Out of memory.
    NoMemory,
}

/// Reads the messages of a stream, whose octets it is fed piece by piece. Contracts see the limit and
/// the octets that were fed and not yet given.
#[derive(Drop)]
pub struct Deframer {
    alloc: Global,
    limit: u32,
    unread: OctetQueue,
}

impl Model for Deframer {
    ghost use Rattle.grpc_calls.specs.Calls.{Deframing};

    ghost Value = { Deframing };

    ghost view = { λ d. record { limit = d.limit; unread = d.unread } };
}

impl Deframer {
    /// A deframer that was fed nothing, for messages of at most `limit` octets. It takes no memory.
    pub fn new(alloc: Global, limit: u32) -> Deframer
        ensures { result ≡ record { limit = limit; unread = [] } }
    {
        Deframer {
            alloc,
            limit,
            unread: OctetQueue::new(alloc),
        }
    }

    /// Takes the next octets of the stream. It fails only when it runs out of memory, and then the
    /// deframer is as before. The time that all calls take is linear in the octets, whatever the pieces.
    pub fn feed(&mut self, octets: &[u8]) -> Result<(), NoMemory>
        ensures fed { OnOk result (Feeds self.old octets.now self.new) }
        ensures unchanged { OnErr result (self.new ≡ self.old) }
    {
        self.unread.push_all(octets)
    }

    /// The next message of the stream, without its prefix. `Compressed` and `TooLong` come as soon as
    /// the five octets of a prefix stand, the flag checked before the length; neither reads on, so
    /// each later call answers the same. Pending comes exactly where neither comes and no whole
    /// message stands. When memory runs out the message stays, and the next call gives it.
    pub fn poll_message(&mut self) -> Poll<Result<Octets, DeframeStop>>
        ensures message { IfMessage result (λ message. HandsOut self.old message self.new) }
        ensures compressed { IsStop DeframeStop.Compressed result ↔ IsCompressed self.old.unread }
        ensures too_long { IsStop DeframeStop.TooLong result
            ↔ IsTooLong self.old.limit self.old.unread }
        ensures pending { IsPending result ↔ IsUnfinished self.old.limit self.old.unread }
        ensures no_memory { IsStop DeframeStop.NoMemory result
            → HoldsMessage self.old.limit self.old.unread }
        ensures unchanged { OnNoMessage result (self.new ≡ self.old) }
    {
        match read_front(self.limit, self.unread.as_slice()) {
            Front::Unfinished => Poll::Pending,
            Front::Compressed => Poll::Ready(Err(DeframeStop::Compressed)),
            Front::TooLong => Poll::Ready(Err(DeframeStop::TooLong)),
            Front::Whole(count) => Poll::Ready(self.take_message(count)),
        }
    }

    /// Takes the message of `count` octets that stands first, whole. It fails only when it runs out of
    /// memory, and then takes nothing.
    fn take_message(&mut self, count: usize) -> Result<Octets, DeframeStop>
        requires { PREFIX_OCTETS + count ≤ length self.old.unread }
        ensures message { IfOk result (λ message. message ≡ take count (drop PREFIX_OCTETS self.old.unread)) }
        ensures taken { OnOk result (self.new ≡ record self.old { unread = drop (PREFIX_OCTETS + count) self.old.unread }) }
        ensures no_memory { IfErr result (λ stop. stop ≡ DeframeStop.NoMemory) }
        ensures unchanged { OnErr result (self.new ≡ self.old) }
    {
        let after_prefix = &self.unread.as_slice()[PREFIX_OCTETS..];
        match Octets::from_slice(self.alloc, &after_prefix[..count]) {
            Ok(message) => {
                self.unread.skip(PREFIX_OCTETS + count);
                Ok(message)
            }
            Err(_failed) => Err(DeframeStop::NoMemory),
        }
    }
}
