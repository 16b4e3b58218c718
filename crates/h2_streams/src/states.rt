//! The states of streams, with their windows.
ghost use Rattle.std.specs.Prelude.{◌≡◌};
ghost use Rattle.h2_history.specs.Standing.{was_opened, last_stream};
ghost use Rattle.h2_history.specs.Puts.{shut, opened, ended_here, ended_by_peer};

use crate::conn::Conn;
use h2_frames::Role;
use stream_table::OpenStream;

impl Conn {
    /// Whether the stream was opened on this connection.
    pub fn was_opened(&self, stream: u32) -> bool
        ensures { result ≡ was_opened stream self.now }
    {
        stream % 2 == 1 && stream <= self.greatest
    }

    /// The last stream that the peer has opened.
    pub(crate) fn last_stream(&self) -> u32
        ensures { result ≡ last_stream self.now }
    {
        match self.role {
            Role::Server => self.greatest,
            Role::Client => 0,
        }
    }

    /// Opens a stream, where there is room for one more.
    pub(crate) fn open(&mut self, stream: u32)
        ensures { self.new ≡ opened stream self.old }
    {
        self.greatest = stream;
        self.streams.open(stream);
        self.ledger.open_stream(stream);
    }

    /// Nothing more is said on the stream.
    pub(crate) fn shut(&mut self, stream: u32)
        ensures { self.new ≡ shut stream self.old }
    {
        self.streams.close(stream);
        self.ledger.close_stream(stream);
    }

    /// This end has ended the stream.
    pub(crate) fn end_here(&mut self, stream: u32)
        ensures { self.new ≡ ended_here stream self.old }
    {
        match self.streams.get(stream) {
            None => {}
            Some(row) if row.peer_ended => self.shut(stream),
            Some(row) => self.streams.put(OpenStream {
                here_ended: true,
                ..row
            }),
        }
    }

    /// The peer has ended the stream.
    pub(crate) fn end_by_peer(&mut self, stream: u32)
        ensures { self.new ≡ ended_by_peer stream self.old }
    {
        match self.streams.get(stream) {
            None => {}
            Some(row) if row.here_ended => self.shut(stream),
            Some(row) => self.streams.put(OpenStream {
                peer_ended: true,
                ..row
            }),
        }
    }
}
