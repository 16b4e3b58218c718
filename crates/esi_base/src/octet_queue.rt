//! Octets that arrived and were not read yet, however finely they were cut.
ghost use Rattle.std.specs.Prelude.{◌≡◌, ◌≤◌, ◌++◌, [], length, drop, OnOk, OnErr};

use crate::stop::NoMemory;
use std::alloc::Global;
use std::marker::Model;

/// How many octets of memory are kept at least, once they were had.
const KEPT_OCTETS: usize = 4_096;

/// A queue of octets, which contracts see as the list of those that were not read yet.
///
/// The octets that were read stay in front of them until they are as many. Then the unread ones move
/// to the front: so each octet that is read pays for the move of one, and at most half of the octets
/// held were read.
#[derive(Drop)]
pub struct OctetQueue {
    held: Vec<u8>,
    read: usize,
}

impl Model for OctetQueue {
    ghost use Rattle.std.specs.Prelude.{ℕ, ◌+◌, ◌≤◌, List, length, drop};

    ghost Value = { List ℕ };

    ghost view = { λ u. drop u.read u.held.items };

    ghost invariant = { λ u. u.read + u.read ≤ length u.held.items };
}

impl OctetQueue {
    /// No octet. It takes no memory.
    pub fn new(alloc: Global) -> OctetQueue
        ensures { result ≡ [] }
    {
        OctetQueue {
            held: Vec::new(alloc),
            read: 0,
        }
    }

    /// The octets, in the order in which they arrived.
    pub fn as_slice(&self) -> &[u8]
        ensures { result.now ≡ self.now }
    {
        &self.held[self.read..]
    }

    /// Adds octets at the end. It fails only when it runs out of memory, and then leaves the queue as it
    /// was.
    pub fn push_all(&mut self, octets: &[u8]) -> Result<(), NoMemory>
        ensures pushed { OnOk result (self.new ≡ self.old ++ octets.now) }
        ensures unchanged { OnErr result (self.new ≡ self.old) }
    {
        Ok(self.held.extend_from_slice(octets)?)
    }

    /// Reads past the first `count` octets, at most as many as there are. It takes no memory.
    pub fn skip(&mut self, count: usize)
        requires { count ≤ length self.old }
        ensures { self.new ≡ drop count self.old }
    {
        let read = self.read + count;
        if read <= self.held.len() - read {
            self.read = read;
        } else {
            move_to_front(&mut self.held, read);
            self.read = 0;
        }
    }
}

/// Moves the octets behind the first `read` ones to the front, and gives back memory that is no
/// longer needed.
fn move_to_front(held: &mut Vec<u8>, read: usize)
    requires { read ≤ length held.old.items }
    ensures { held.new.items ≡ drop read held.old.items }
{
    let unread = held.len() - read;
    held.copy_within(read.., 0);
    held.truncate(unread);
    held.shrink_to(KEPT_OCTETS);
}
