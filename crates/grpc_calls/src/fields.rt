//! What the header fields of a call say.
ghost use Rattle.std.specs.Prelude.{◌≡◌};
ghost use Rattle.std.specs.List.{list_any};
ghost use Rattle.std.specs.Option.{option_map};
ghost use Rattle.grpc_calls.specs.Fields.{is_named, begins_with, is_content_type, is_other_type, is_grpc, first_value, is_post};

use hpack::Header;

/// The method of each call ("gRPC over HTTP/2", Requests: Method).
pub(crate) const POST: &[u8] = b"POST";

/// The names of the fields that calls and replies have.
pub(crate) const METHOD: &[u8] = b":method";

pub(crate) const PATH: &[u8] = b":path";

pub(crate) const CONTENT_TYPE: &[u8] = b"content-type";

pub(crate) const STATUS: &[u8] = b":status";

pub(crate) const GRPC_STATUS: &[u8] = b"grpc-status";

/// What each content type begins with (Content-Type).
pub(crate) const GRPC_TYPE: &[u8] = b"application/grpc";

/// Whether the field has this name.
fn is_named(name: &[u8], header: &Header) -> bool
    ensures { result ≡ is_named name.now header.now }
{
    header.name.as_slice() == name
}

/// Whether octets begin with these.
fn begins_with(front: &[u8], octets: &[u8]) -> bool
    ensures { result ≡ begins_with front.now octets.now }
{
    front.len() <= octets.len() && &octets[..front.len()] == front
}

/// The value of the first field of a name.
pub(crate) fn first_value<'a>(name: &[u8], headers: &'a [Header]) -> Option<&'a [u8]>
    ensures { option_map (λ value. value.now) result ≡ first_value name.now headers.now }
{
    let mut rest = headers;
    while let [header, others @ ..] = rest {
        if is_named(name, header) {
            return Some(header.value.as_slice());
        }
        rest = others;
    }
    None
}

/// Whether the method is POST.
pub(crate) fn is_post(headers: &[Header]) -> bool
    ensures { result ≡ is_post headers.now }
{
    match first_value(METHOD, headers) {
        Some(method) => method == POST,
        None => false,
    }
}

/// Whether the field is a content type.
fn is_content_type(header: &Header) -> bool
    ensures { result ≡ is_content_type header.now }
{
    is_named(CONTENT_TYPE, header)
}

/// Whether the field is a content type, and none of gRPC.
fn is_other_type(header: &Header) -> bool
    ensures { result ≡ is_other_type header.now }
{
    is_content_type(header) && !begins_with(GRPC_TYPE, header.value.as_slice())
}

/// Whether there is a content type.
fn has_type(headers: &[Header]) -> bool
    ensures { result ≡ list_any is_content_type headers.now }
{
    headers.iter().any(|header| is_content_type(header))
}

/// Whether there is a content type that is none of gRPC.
fn has_other_type(headers: &[Header]) -> bool
    ensures { result ≡ list_any is_other_type headers.now }
{
    headers.iter().any(|header| is_other_type(header))
}

/// Whether there is a content type, and each one is of gRPC.
pub(crate) fn is_grpc(headers: &[Header]) -> bool
    ensures { result ≡ is_grpc headers.now }
{
    has_type(headers) && !has_other_type(headers)
}
