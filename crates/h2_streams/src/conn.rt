//! A connection: what it keeps, how it begins, what goes in and out.
ghost use Rattle.std.specs.Prelude.{◌≡◌, ◌↔◌, ◌+◌, ◌≤◌, length, drop, IsTrue, IsSome, OnOk, OnErr};
ghost use Rattle.h2_frames.specs.Reading.{fed_with};
ghost use Rattle.h2_history.specs.Puts.{kept};
ghost use Rattle.h2_output.specs.declared.limits.TheConstants.{MOST_UNSENT};

use esi_base::{NoMemory, Octets};
use h2_flow::Ledger;
use h2_frames::{FrameReader, Role};
use h2_history::HeaderBlock;
use h2_output::Output;
use hpack::{Decoder, Encoder};
use std::alloc::Global;
use std::marker::Model;
use stream_table::StreamTable;

/// One end of a connection. It is fed what the peer sends and asked what happens; what it puts in answer,
/// and what it is asked to put, waits in its output. Contracts see how it stands, which is a function of
/// its history.
#[derive(Drop)]
pub struct Conn {
    pub(crate) alloc: Global,
    pub(crate) role: Role,
    pub(crate) reader: FrameReader,
    pub(crate) decoder: Decoder,
    pub(crate) encoder: Encoder,
    pub(crate) ledger: Ledger,
    pub(crate) streams: StreamTable,
    pub(crate) greatest: u32,
    pub(crate) most: u32,
    pub(crate) away: bool,
    pub(crate) block: Option<HeaderBlock>,
    pub(crate) broken: Option<u32>,
    pub(crate) failed: bool,
    pub(crate) output: Output,
    /// The memory of the last header block that was put, for the next one. No contract sees it.
    pub(crate) spare: Option<Octets>,
}

impl Model for Conn {
    ghost use Rattle.std.specs.Prelude.{◌+◌, ◌≤◌, length};
    ghost use Rattle.h2_history.specs.Puts.{kept};
    ghost use Rattle.h2_history.specs.Standing.{Standing, tables_of, writing_of};
    ghost use Rattle.h2_output.specs.declared.limits.TheConstants.{MOST_UNSENT};

    ghost Value = { Standing };

    ghost view = { λ c. record {
      role = c.role;
      reading = c.reader;
      tables = tables_of c.decoder;
      writing = writing_of c.broken c.encoder;
      flow = c.ledger;
      streams = c.streams;
      greatest = c.greatest;
      most = c.most;
      away = c.away;
      block = c.block;
      broken = c.broken;
      failed = c.failed;
      output = c.output;
    } };

    ghost invariant = { λ c. length c.output + kept c.broken ≤ MOST_UNSENT };
}

impl Conn {
    /// Takes the next octets of the peer. It fails only when it runs out of memory, and then nothing has
    /// changed.
    pub fn feed(&mut self, octets: &[u8]) -> Result<(), NoMemory>
        ensures fed { OnOk result (self.new ≡ record self.old { reading = fed_with octets.now self.old.reading }) }
        ensures unchanged { OnErr result (self.new ≡ self.old) }
    {
        self.reader.feed(octets)
    }

    /// The octets that wait to be sent, in order: at most `MOST_UNSENT`, with room for the GOAWAY with which the
    /// connection would end.
    pub fn output(&self) -> &[u8]
        ensures octets { result.now ≡ self.now.output }
        ensures limit { length result.now + kept self.now.broken ≤ MOST_UNSENT }
    {
        self.output.as_slice()
    }

    /// Lets the first octets of the output go, which were sent; at most as many as there are. It takes no
    /// memory.
    pub fn take_output(&mut self, octets: usize)
        requires { octets ≤ length self.old.output }
        ensures { self.new ≡ record self.old { output = drop octets self.old.output } }
    {
        self.output.skip(octets);
    }

    /// Whether the connection has ended with an error.
    pub fn is_broken(&self) -> bool
        ensures { IsTrue result ↔ IsSome self.now.broken }
    {
        self.broken.is_some()
    }
}
