//! The header lists of replies ("gRPC over HTTP/2", Responses).
ghost use Rattle.std.specs.Prelude.{◌≡◌, ◌≤◌, ◌++◌, ◌∷◌, [], IfOk, OnOk};
ghost use Rattle.std.specs.Fmt.{decimal};
ghost use Rattle.hpack.specs.StaticTable.{field};
ghost use Rattle.hpack.specs.Tables.{list_size};
ghost use Rattle.grpc_calls.specs.Replies.{reply_list, beginning};

use crate::fields::{CONTENT_TYPE, GRPC_STATUS, GRPC_TYPE, STATUS};
use crate::status::http;
use esi_base::{List, NoMemory, Octets};
use esi_types::printing::push_number;
use hpack::{Header, Headers, MAX_HEADER_LIST_SIZE};
use std::alloc::Global;

/// What header list a reply has at a place.
#[derive(Clone, Copy, Debug, PartialEq, Eq)]
pub enum Reply {
    /// A status of HTTP is the whole reply.
    Http(u16),
    /// A status of gRPC is the whole reply (Trailers-Only).
    Only(u8),
    /// Messages follow (Response-Headers).
    Begin,
    /// After the messages comes the status of gRPC (Trailers).
    Trailers(u8),
}

/// The header list. It fails only when it runs out of memory.
pub fn reply_headers(alloc: Global, reply: Reply) -> Result<Headers, NoMemory>
    ensures list { IfOk result (λ headers. headers ≡ reply_list reply) }

    // It is small enough for the encoder of header blocks.
    ensures small { IfOk result (λ headers. list_size headers ≤ MAX_HEADER_LIST_SIZE) }
{
    match reply {
        Reply::Http(status) => http_list(alloc, status),
        Reply::Only(status) => only_list(alloc, status),
        Reply::Begin => begin_list(alloc),
        Reply::Trailers(status) => trailers_list(alloc, status),
    }
}

#[tactic(auto, using(crate::specs::ReplyLaws::small_http))]
fn http_list(alloc: Global, status: u16) -> Result<Headers, NoMemory>
    ensures list { IfOk result (λ headers. headers ≡ reply_list (Reply.Http status)) }
    ensures small { IfOk result (λ headers. list_size headers ≤ MAX_HEADER_LIST_SIZE) }
{
    let mut headers = List::new(alloc);
    add_number(alloc, &mut headers, STATUS, status)?;
    Ok(headers)
}

#[tactic(auto, using(crate::specs::ReplyLaws::small_only))]
fn only_list(alloc: Global, status: u8) -> Result<Headers, NoMemory>
    ensures list { IfOk result (λ headers. headers ≡ reply_list (Reply.Only status)) }
    ensures small { IfOk result (λ headers. list_size headers ≤ MAX_HEADER_LIST_SIZE) }
{
    let mut headers = List::new(alloc);
    begin(alloc, &mut headers)?;
    add_number(alloc, &mut headers, GRPC_STATUS, u16::from(status))?;
    Ok(headers)
}

#[tactic(auto, using(crate::specs::ReplyLaws::small_begin))]
fn begin_list(alloc: Global) -> Result<Headers, NoMemory>
    ensures list { IfOk result (λ headers. headers ≡ reply_list Reply.Begin) }
    ensures small { IfOk result (λ headers. list_size headers ≤ MAX_HEADER_LIST_SIZE) }
{
    let mut headers = List::new(alloc);
    begin(alloc, &mut headers)?;
    Ok(headers)
}

#[tactic(auto, using(crate::specs::ReplyLaws::small_trailers))]
fn trailers_list(alloc: Global, status: u8) -> Result<Headers, NoMemory>
    ensures list { IfOk result (λ headers. headers ≡ reply_list (Reply.Trailers status)) }
    ensures small { IfOk result (λ headers. list_size headers ≤ MAX_HEADER_LIST_SIZE) }
{
    let mut headers = List::new(alloc);
    add_number(alloc, &mut headers, GRPC_STATUS, u16::from(status))?;
    Ok(headers)
}

/// Adds what stands before messages: that HTTP has understood, and that messages of gRPC follow.
fn begin(alloc: Global, headers: &mut Headers) -> Result<(), NoMemory>
    ensures { OnOk result (headers.new ≡ headers.old ++ beginning) }
{
    add_number(alloc, headers, STATUS, http::OK)?;
    add_text(alloc, headers, CONTENT_TYPE, GRPC_TYPE)
}

/// Adds a field whose value is a number in decimal digits.
fn add_number(
    alloc: Global,
    headers: &mut Headers,
    name: &[u8],
    number: u16,
) -> Result<(), NoMemory>
    ensures { OnOk result (headers.new ≡ headers.old ++ field name.now (decimal number) ∷ []) }
{
    let mut value = Octets::new(alloc);
    push_number(&mut value, u128::from(number))?;
    add(alloc, headers, name, value)
}

/// Adds a field whose value is a text.
fn add_text(alloc: Global, headers: &mut Headers, name: &[u8], text: &[u8]) -> Result<(), NoMemory>
    ensures { OnOk result (headers.new ≡ headers.old ++ field name.now text.now ∷ []) }
{
    let value = List::from_slice(alloc, text)?;
    add(alloc, headers, name, value)
}

fn add(alloc: Global, headers: &mut Headers, name: &[u8], value: Octets) -> Result<(), NoMemory>
    ensures { OnOk result (headers.new ≡ headers.old ++ field name.now value ∷ []) }
{
    let name = List::from_slice(alloc, name)?;
    headers.add(Header { name, value })
}
