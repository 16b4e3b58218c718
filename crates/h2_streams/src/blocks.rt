//! Header blocks: their frames gathered, their lists decoded and checked.
ghost use Rattle.std.specs.Prelude.{◌≡◌, [], IfOk};
ghost use Rattle.h2_history.specs.declared.verdict.Verdict.TheVariants.{ConnectionError as connection_error};
ghost use Rattle.h2_layouts.specs.declared.code.TheConstants.{ENHANCE_YOUR_CALM};
ghost use Rattle.h2_history.specs.Blocks.{is_too_long, has_all_frames, code_of_rule, first_list, trailers, list_verdict, row_wanted, seen_by_list, completed, fragment_read, continuation_read};
ghost use Rattle.h2_streams.specs.Decoding.{Decodes};

use crate::conn::Conn;
use esi_base::{NoMemory, Stop};
use h2_frames::Role;
use h2_history::limits::{LONGEST_BLOCK, MOST_CONTINUATIONS};
use h2_history::{HeaderBlock, Verdict};
use h2_layouts::code::{COMPRESSION_ERROR, ENHANCE_YOUR_CALM, PROTOCOL_ERROR};
use header_lists::{ListKind, is_informational, is_malformed};
use hpack::{BlockRule, Header, Headers, HpackStop};
use std::alloc::Global;
use stream_table::OpenStream;

/// What a header block comes to, with its list.
#[derive(Debug, Drop)]
pub(crate) struct BlockRead {
    /// What it comes to.
    pub verdict: Verdict,
    /// Its header list, empty where the block is not whole or cannot be read.
    pub headers: Headers,
}

/// The error code with which a connection ends whose header blocks break a rule.
fn code_of_rule(rule: BlockRule) -> u32
    ensures { result ≡ code_of_rule rule }
{
    match rule {
        BlockRule::ListTooLarge => ENHANCE_YOUR_CALM,
        BlockRule::Padding
        | BlockRule::EndOfString
        | BlockRule::NoSuchEntry
        | BlockRule::CutOrTooLarge
        | BlockRule::WrongSizeUpdate => COMPRESSION_ERROR,
    }
}

/// Whether a block has more octets than one may have.
fn is_too_long(block: &HeaderBlock) -> bool
    ensures { result ≡ is_too_long block.now }
{
    block.octets.len() > LONGEST_BLOCK
}

/// Whether a block has had all the CONTINUATION frames that one may have.
fn has_all_frames(block: &HeaderBlock) -> bool
    ensures { result ≡ has_all_frames block.now }
{
    block.continued >= MOST_CONTINUATIONS
}

/// The peer takes more than one block may have.
fn too_much(alloc: Global) -> BlockRead
    ensures verdict { result.verdict ≡ connection_error ENHANCE_YOUR_CALM }
    ensures headers { result.headers ≡ [] }
{
    BlockRead {
        verdict: Verdict::ConnectionError {
            code: ENHANCE_YOUR_CALM,
        },
        headers: Headers::new(alloc),
    }
}

/// The first list of a stream. An informational one is accepted, and counts as none.
fn first_list(role: Role, stream: u32, end: bool, headers: &[Header]) -> Verdict
    ensures { result ≡ first_list role stream end headers.now }
{
    let malformed = Verdict::StreamError {
        stream,
        code: PROTOCOL_ERROR,
    };
    match role {
        Role::Server if is_malformed(ListKind::Request, headers) => malformed,
        Role::Server => Verdict::Accepted,
        Role::Client if is_malformed(ListKind::Reply, headers) => malformed,
        Role::Client if !is_informational(headers) => Verdict::Accepted,
        Role::Client if end => malformed,
        Role::Client => Verdict::Ignored,
    }
}

/// The list behind the content of a request or a reply: it ends the stream.
fn trailers(stream: u32, end: bool, headers: &[Header]) -> Verdict
    ensures { result ≡ trailers stream end headers.now }
{
    if end && !is_malformed(ListKind::Trailers, headers) {
        Verdict::Accepted
    } else {
        Verdict::StreamError {
            stream,
            code: PROTOCOL_ERROR,
        }
    }
}

/// A block's list, on a stream in this state, or on one on which nothing is wanted.
fn list_verdict(
    role: Role,
    block: &HeaderBlock,
    headers: &[Header],
    row: Option<OpenStream>,
) -> Verdict
    ensures { result ≡ list_verdict role block.now headers.now row }
{
    match row {
        None => Verdict::Ignored,
        Some(row) if row.begun => trailers(block.stream, block.end, headers),
        Some(_) => first_list(role, block.stream, block.end, headers),
    }
}

impl Conn {
    /// The state of a block's stream, where something comes of the block: this end may have reset the
    /// stream meanwhile.
    fn row_wanted(&self, block: &HeaderBlock) -> Option<OpenStream>
        ensures { result ≡ row_wanted block.now self.now }
    {
        if block.wanted {
            self.streams.get(block.stream)
        } else {
            None
        }
    }

    /// The stream has had its first list, and is ended by the peer where the block says so.
    fn see_list(&mut self, verdict: Verdict, block: &HeaderBlock)
        ensures { self.new ≡ seen_by_list verdict block.now self.old }
    {
        if !matches!(verdict, Verdict::Accepted) {
            return;
        }
        if let Some(row) = self.streams.get(block.stream) {
            self.streams.put(OpenStream { begun: true, ..row });
            if block.end {
                self.end_by_peer(block.stream);
            }
        }
    }

    /// The list of a block.
    fn decode(&mut self, block: &[u8]) -> Result<Headers, HpackStop>
        ensures { Decodes self.old block.now result self.new }
    {
        self.decoder.block(block)
    }

    /// Reads a block that is whole.
    #[inline(always)]
    fn complete(&mut self, block: &HeaderBlock) -> Result<BlockRead, NoMemory>
        ensures { IfOk result (λ read. record { verdict = read.verdict; headers = read.headers; left = self.new } ≡ completed block.now self.old) }
    {
        match self.decode(block.octets.as_slice()) {
            Err(Stop::NoMemory) => Err(NoMemory),
            Err(Stop::Refused(rule)) => Ok(BlockRead {
                verdict: Verdict::ConnectionError {
                    code: code_of_rule(rule),
                },
                headers: Headers::new(self.alloc),
            }),
            Ok(headers) => {
                let row = self.row_wanted(block);
                let verdict = list_verdict(self.role, block, headers.as_slice(), row);
                self.see_list(verdict, block);
                Ok(BlockRead { verdict, headers })
            }
        }
    }

    /// Reads one frame of a block, the last one or not.
    #[inline(always)]
    pub(crate) fn read_fragment(
        &mut self,
        last: bool,
        block: HeaderBlock,
    ) -> Result<BlockRead, NoMemory>
        ensures { IfOk result (λ read. record { verdict = read.verdict; headers = read.headers; left = self.new } ≡ fragment_read last block self.old) }
    {
        if is_too_long(&block) {
            return Ok(too_much(self.alloc));
        }
        if last {
            return self.complete(&block);
        }
        self.block = Some(block);
        Ok(BlockRead {
            verdict: Verdict::Ignored,
            headers: Headers::new(self.alloc),
        })
    }

    /// Reads one more frame of a block.
    pub(crate) fn read_more(
        &mut self,
        last: bool,
        octets: &[u8],
        block: HeaderBlock,
    ) -> Result<BlockRead, NoMemory>
        ensures { IfOk result (λ read. record { verdict = read.verdict; headers = read.headers; left = self.new } ≡ continuation_read last octets.now block self.old) }
    {
        if has_all_frames(&block) {
            return Ok(too_much(self.alloc));
        }
        let mut grown = block;
        grown.octets.push_all(octets)?;
        grown.continued += 1;
        self.read_fragment(last, grown)
    }
}
