//! Octets that wait to be sent.
ghost use Rattle.std.specs.Prelude.{◌≡◌, ◌+◌, ◌≤◌, ◌++◌, [], length, drop, vec_capacity, IfOk};
ghost use Rattle.h2_layouts.specs.Written.{framed, header_octets};
ghost use Rattle.h2_layouts.specs.declared.limit.TheConstants.{LONGEST_PAYLOAD};
ghost use Rattle.h2_output.specs.declared.limits.TheConstants.{MOST_UNSENT};

use crate::limits::MOST_UNSENT;
use esi_base::NoMemory;
use h2_layouts::FrameType;
use h2_layouts::header::HEADER_OCTETS;
use std::alloc::Global;
use std::marker::Model;

/// The octets that were written and not sent yet, which contracts see as their list.
///
/// Those that were sent stay in front of them until they are as many. Then the unsent ones move to the
/// front: so each octet that is sent pays for the move of one, and memory for twice as many as may be
/// unsent is enough.
#[derive(Drop)]
pub struct Output {
    held: Vec<u8>,
    sent: usize,
}

impl Model for Output {
    ghost use Rattle.std.specs.Prelude.{ℕ, ◌+◌, ◌≤◌, List, length, drop, vec_capacity};
    ghost use Rattle.h2_output.specs.declared.limits.TheConstants.{MOST_UNSENT};

    ghost Value = { List ℕ };

    ghost view = { λ o. drop o.sent o.held.items };

    ghost invariant = { λ o. (o.sent + o.sent ≤ length o.held.items)
        × (MOST_UNSENT + MOST_UNSENT ≤ vec_capacity o.held)
        × (length o.held.items ≤ MOST_UNSENT + o.sent) };
}

impl Output {
    /// No octet. It takes all the memory that the output will ever need.
    pub fn new(alloc: Global) -> Result<Output, NoMemory>
        ensures { IfOk result (λ output. output ≡ []) }
    {
        Ok(Output {
            held: Vec::with_capacity(alloc, 2 * MOST_UNSENT)?,
            sent: 0,
        })
    }

    /// The octets, in the order in which they were written.
    pub fn as_slice(&self) -> &[u8]
        ensures octets { result.now ≡ self.now }
        ensures few { length result.now ≤ MOST_UNSENT }
    {
        &self.held[self.sent..]
    }

    /// How many octets there are.
    pub fn len(&self) -> usize
        ensures octets { result ≡ length self.now }
        ensures few { result ≤ MOST_UNSENT }
    {
        self.held.len() - self.sent
    }

    /// Writes octets behind the others, no more than there is room for.
    pub fn push_all(&mut self, octets: &[u8])
        requires room { length self.old + length octets.now ≤ MOST_UNSENT }
        ensures written { self.new ≡ self.old ++ octets.now }
    {
        match self.held.extend_from_slice(octets) {
            Ok(()) => {}
            Err(_full) => unreachable!(),
        }
    }

    /// Writes a frame behind the others, where there is room for its header and its payload.
    pub fn push_frame(&mut self, kind: FrameType, flags: u8, stream: u32, payload: &[u8])
        requires small { length payload.now ≤ LONGEST_PAYLOAD }
        requires room { length self.old + 9 + length payload.now ≤ MOST_UNSENT }
        ensures written { self.new ≡ self.old ++ framed kind flags stream payload.now }
    {
        let header = header_octets(kind, flags, stream, payload.len());
        self.push_all(&header);
        self.push_all(payload);
    }

    /// Lets the first `count` octets go, which were sent; at most as many as there are. It takes no
    /// memory.
    pub fn skip(&mut self, count: usize)
        requires { count ≤ length self.old }
        ensures { self.new ≡ drop count self.old }
    {
        let sent = self.sent + count;
        if sent <= self.held.len() - sent {
            self.sent = sent;
        } else {
            move_to_front(&mut self.held, sent);
            self.sent = 0;
        }
    }
}

/// The nine octets of the header of a frame with a payload of so many octets.
fn header_octets(kind: FrameType, flags: u8, stream: u32, len: usize) -> [u8; HEADER_OCTETS]
    requires small { len ≤ LONGEST_PAYLOAD }
    ensures { result ≡ header_octets (record { length = len; kind = kind; flags = flags; stream = stream }) }
{
    let [_, a, b, c] = (len as u32).to_be_bytes();
    let [s, t, u, v] = stream.to_be_bytes();
    [a, b, c, kind.number(), flags, s, t, u, v]
}

/// Moves the octets behind the first `sent` ones to the front.
fn move_to_front(held: &mut Vec<u8>, sent: usize)
    requires { sent ≤ length held.old.items }
    ensures moved { held.new.items ≡ drop sent held.old.items }
    ensures kept { vec_capacity held.old ≤ vec_capacity held.new }
{
    let unsent = held.len() - sent;
    held.copy_within(sent.., 0);
    held.truncate(unsent);
}
