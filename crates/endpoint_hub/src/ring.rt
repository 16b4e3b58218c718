//! A ring of words, which contracts see as the list of the words in it.
ghost use Rattle.std.specs.Prelude.{◌≡◌, ◌<◌, ◌≤◌, ◌++◌, ◌∷◌, [], length, drop, slice_get, IfOk};

use circular_buffer::HeapCircularBuffer;
use cycle_rules::RING_VALUES;
use esi_base::Word;
use std::alloc::{AllocError, Global};
use std::marker::Model;

/// The words that stand between an endpoint and the circuit, at most `RING_VALUES`.
#[derive(Drop)]
pub struct Ring {
    words: HeapCircularBuffer<Word>,
}

impl Model for Ring {
    ghost use Rattle.std.specs.Prelude.{◌≡◌, ◌≤◌, List, Bool, length};
    ghost use Rattle.cycle_rules.specs.declared.limits.TheConstants.{RING_VALUES};

    ghost Value = { List (List Bool) };

    ghost view = { λ r. r.words.items };

    ghost invariant = { λ r. (r.words.capacity ≡ RING_VALUES) × (length r.words.items ≤ RING_VALUES) };
}

impl Ring {
    /// An empty ring. It takes all the memory that the ring will ever need.
    pub fn new(alloc: Global) -> Result<Ring, AllocError>
        ensures { IfOk result (λ ring. ring ≡ []) }
    {
        Ok(Ring {
            words: HeapCircularBuffer::with_capacity(alloc, RING_VALUES)?,
        })
    }

    /// How many words stand in the ring.
    pub fn len(&self) -> usize
        ensures count { result ≡ length self.now }
        ensures within { length self.now ≤ RING_VALUES }
    {
        self.words.len()
    }

    /// The oldest word; None exactly where the ring is empty.
    pub fn front(&self) -> Option<Word>
        ensures word { result ≡ slice_get self.now 0 }
        ensures within { length self.now ≤ RING_VALUES }
    {
        self.words.front().copied()
    }

    /// Adds a word after the others.
    pub fn push(&mut self, word: Word)
        requires { length self.old < RING_VALUES }
        ensures { self.new ≡ self.old ++ word ∷ [] }
    {
        self.words.push_back(word);
    }

    /// Takes the oldest word out; None exactly where the ring is empty.
    pub fn pop(&mut self) -> Option<Word>
        ensures first { result ≡ slice_get self.old 0 }
        ensures rest { self.new ≡ drop 1 self.old }
    {
        self.words.pop_front()
    }
}
