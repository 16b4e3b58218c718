//! The open streams, in the order in which they were opened.
ghost use Rattle.std.specs.Prelude.{◌≡◌, [], length, IfOk, IfNone, IfSome};
ghost use Rattle.h2_flow.specs.KeyedRows.{IsAbsent, IsIndexOf};
ghost use Rattle.stream_table.specs.Rows.{is_open as is_open_in, row_of, with_row, without_stream, stream_of, after_opening};

use crate::open_stream::OpenStream;
use esi_base::NoMemory;
use h2_flow::OPEN_STREAMS;
use std::alloc::Global;
use std::marker::Model;

/// The open streams of a connection, at most `OPEN_STREAMS`. Contracts see the list of them.
#[derive(Drop)]
pub struct StreamTable {
    rows: Vec<OpenStream>,
}

impl Model for StreamTable {
    ghost use Rattle.std.specs.Prelude.{List, ◌≤◌, vec_capacity};
    ghost use Rattle.h2_flow.specs.declared.limits.TheConstants.{OPEN_STREAMS};
    ghost use Rattle.stream_table.specs.declared.open_stream.OpenStream.{OpenStream as Row};

    ghost Value = { List Row };

    ghost view = { λ t. t.rows.items };

    ghost invariant = { λ t. OPEN_STREAMS ≤ vec_capacity t.rows };
}

impl StreamTable {
    /// No stream. It takes all the memory that the table will ever need.
    pub fn new(alloc: Global) -> Result<StreamTable, NoMemory>
        ensures { IfOk result (λ table. table ≡ []) }
    {
        Ok(StreamTable {
            rows: Vec::with_capacity(alloc, OPEN_STREAMS)?,
        })
    }

    /// How many streams are open.
    pub fn len(&self) -> usize
        ensures { result ≡ length self.now }
    {
        self.rows.len()
    }

    /// Whether the stream is open.
    #[tactic(auto, using(crate::specs::IndexLaws::open_by_index))]
    pub fn is_open(&self, stream: u32) -> bool
        ensures { result ≡ is_open_in stream self.now }
    {
        index_of(&self.rows, stream).is_some()
    }

    /// The state of the stream, None where it is not open.
    pub fn get(&self, stream: u32) -> Option<OpenStream>
        ensures { result ≡ row_of stream self.now }
    {
        match index_of(&self.rows, stream) {
            None => None,
            Some(at) => Some(self.rows[at]),
        }
    }

    /// Opens a stream, while fewer than `OPEN_STREAMS` are open; else it changes nothing.
    pub fn open(&mut self, stream: u32)
        ensures { self.new ≡ after_opening stream self.old }
    {
        if self.rows.len() < OPEN_STREAMS {
            self.rows.push_reserved(OpenStream {
                stream,
                peer_ended: false,
                here_ended: false,
                begun: false,
            });
        }
    }

    /// Puts a stream's state in place of the one before; it changes nothing where the stream is not open.
    pub fn put(&mut self, row: OpenStream)
        ensures { self.new ≡ with_row row self.old }
    {
        if let Some(at) = index_of(&self.rows, row.stream) {
            self.rows[at] = row;
        }
    }

    /// Closes a stream, and forgets its state.
    pub fn close(&mut self, stream: u32)
        ensures { self.new ≡ without_stream stream self.old }
    {
        if let Some(at) = index_of(&self.rows, stream) {
            let _closed = self.rows.remove(at);
        }
    }

    /// Closes every stream.
    pub fn close_all(&mut self)
        ensures { self.new ≡ [] }
    {
        self.rows.clear();
    }
}

/// Where an open stream stands among the others; None exactly where it is not open.
fn index_of(rows: &[OpenStream], stream: u32) -> Option<usize>
    ensures closed { IfNone result (IsAbsent stream_of stream rows.now) }
    ensures index { IfSome result (IsIndexOf stream_of stream rows.now) }
{
    rows.iter().position(|row| row.stream == stream)
}
