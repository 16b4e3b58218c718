//! What is done again and again.
ghost use Rattle.std.specs.Prelude.{◌≤◌, length};

use crate::{calls, frames, headers, huffman, messages, streams, types};
use esi_base::LONGEST_TEXT;
use std::alloc::Global;

/// The octets of a piece where an input comes in small pieces.
const SMALL_PIECE: usize = 100;

/// The octets of a piece where an input comes frame by frame.
const FRAME_PIECE: usize = 16_384;

/// The work of a round.
#[derive(Clone, Copy, Debug, PartialEq, Eq)]
pub enum Work {
    /// A type is read.
    ReadType,
    /// A type is printed.
    PrintType,
    /// A type is copied, and compared with the copy.
    CopyType,
    /// An AddressedMessage is read.
    ReadMessage,
    /// An AddressedMessage is written.
    WriteMessage,
    /// A ListOfChannels is read.
    ReadList,
    /// A text is written in the Huffman code.
    EncodeText,
    /// A text is read from the Huffman code.
    DecodeText,
    /// A header block is read.
    ReadHeaders,
    /// A header block is written.
    WriteHeaders,
    /// A stream of length-prefixed messages is read, in pieces of so many octets.
    ReadStream(usize),
    /// A message is written with its prefix.
    WritePrefixed,
    /// The frames of a connection are read, in pieces of so many octets.
    ReadFrames(usize),
    /// The frames of a connection are written.
    WriteFrames,
    /// Calls go through a client and a server, so many open at once.
    ServeCalls(u32),
}

impl Work {
    /// The work of this name.
    pub fn named(name: &str) -> Option<Work> {
        Some(match name {
            "read-type" => Work::ReadType,
            "print-type" => Work::PrintType,
            "copy-type" => Work::CopyType,
            "read-message" => Work::ReadMessage,
            "write-message" => Work::WriteMessage,
            "read-list" => Work::ReadList,
            "encode-text" => Work::EncodeText,
            "decode-text" => Work::DecodeText,
            "read-headers" => Work::ReadHeaders,
            "write-headers" => Work::WriteHeaders,
            "read-stream-1" => Work::ReadStream(1),
            "read-stream-100" => Work::ReadStream(SMALL_PIECE),
            "read-stream-16384" => Work::ReadStream(FRAME_PIECE),
            "write-prefixed" => Work::WritePrefixed,
            "read-frames-1" => Work::ReadFrames(1),
            "read-frames-16384" => Work::ReadFrames(FRAME_PIECE),
            "write-frames" => Work::WriteFrames,
            "serve-calls-1" => Work::ServeCalls(1),
            "serve-calls-64" => Work::ServeCalls(64),
            _ => return None,
        })
    }

    /// Does the work so often, and gives what a round made; None where the octets are not what the work
    /// is for, or memory ran out.
    pub fn do_rounds(self, alloc: Global, rounds: u32, octets: &[u8]) -> Option<usize>
        requires { length octets.now ≤ LONGEST_TEXT }
    {
        match self {
            Work::ReadType => types::read(alloc, rounds, octets),
            Work::PrintType => types::print(alloc, rounds, octets),
            Work::CopyType => types::copy(alloc, rounds, octets),
            Work::ReadMessage => messages::read_message(alloc, rounds, octets),
            Work::WriteMessage => messages::write_message(alloc, rounds, octets),
            Work::ReadList => messages::read_list(alloc, rounds, octets),
            Work::EncodeText => huffman::encode(alloc, rounds, octets),
            Work::DecodeText => huffman::decode(alloc, rounds, octets),
            Work::ReadHeaders => headers::read(alloc, rounds, octets),
            Work::WriteHeaders => headers::write(alloc, rounds, octets),
            Work::ReadStream(piece) => streams::read(alloc, rounds, octets, piece.max(1)),
            Work::WritePrefixed => streams::write(alloc, rounds, octets),
            Work::ReadFrames(piece) => frames::read(alloc, rounds, octets, piece.max(1)),
            Work::WriteFrames => frames::write(alloc, rounds, octets),
            Work::ServeCalls(open) => calls::serve(alloc, rounds, octets, open),
        }
    }
}
