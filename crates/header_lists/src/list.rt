//! Header lists.
ghost use Rattle.std.specs.Prelude.{◌≡◌};
ghost use Rattle.std.specs.List.{list_any};
ghost use Rattle.header_lists.specs.Fields.{is_bad_field};
ghost use Rattle.header_lists.specs.HeaderLists.{has_field, has_late_pseudo, has_repeated_pseudo, is_foreign, is_connect, lacks_target, lacks_pseudo, is_malformed, is_informational_status, is_informational};

use crate::field::{is_bad_field, is_named, is_pseudo, is_reply_pseudo, is_request_pseudo};
use crate::kind::ListKind;
use hpack::Header;

/// Whether some field has this name.
fn has_field(name: &[u8], headers: &[Header]) -> bool
    ensures { result ≡ has_field name.now headers.now }
{
    headers.iter().any(|header| is_named(name, header))
}

/// Whether a pseudo-header stands after another field.
fn has_late_pseudo(headers: &[Header]) -> bool
    ensures { result ≡ has_late_pseudo headers.now }
{
    headers
        .iter()
        .skip_while(|header| is_pseudo(header))
        .any(|header| is_pseudo(header))
}

/// Whether a pseudo-header is repeated.
fn has_repeated_pseudo(headers: &[Header]) -> bool
    ensures { result ≡ has_repeated_pseudo headers.now }
{
    let mut rest = headers;
    while let [header, others @ ..] = rest {
        if is_pseudo(header) && has_field(header.name.as_slice(), others) {
            return true;
        }
        rest = others;
    }
    false
}

/// Whether some field has no place in any list.
fn has_bad_field(headers: &[Header]) -> bool
    ensures { result ≡ list_any is_bad_field headers.now }
{
    headers.iter().any(|header| is_bad_field(header))
}

/// Whether the field is a pseudo-header that has no place in such a list.
fn is_foreign(kind: ListKind, header: &Header) -> bool
    ensures { result ≡ is_foreign kind header.now }
{
    match kind {
        ListKind::Request => is_pseudo(header) && !is_request_pseudo(header),
        ListKind::Reply => is_pseudo(header) && !is_reply_pseudo(header),
        ListKind::Trailers => is_pseudo(header),
    }
}

/// Whether some pseudo-header has no place in such a list.
fn has_foreign_pseudo(kind: ListKind, headers: &[Header]) -> bool
    ensures { result ≡ list_any (is_foreign kind) headers.now }
{
    headers.iter().any(|header| is_foreign(kind, header))
}

/// Whether the method of a request is CONNECT (section 8.5).
fn is_connect(headers: &[Header]) -> bool
    ensures { result ≡ is_connect headers.now }
{
    headers.iter().any(|header| {
        is_named(b":method", header) && header.value.as_slice() == b"CONNECT".as_slice()
    })
}

/// Whether the pseudo-headers that say what a request is for are not those of its method: CONNECT has
/// no scheme and no path, and has an authority; any other request has a scheme and a path.
fn lacks_target(headers: &[Header]) -> bool
    ensures { result ≡ lacks_target headers.now }
{
    if is_connect(headers) {
        has_field(b":scheme", headers)
            || has_field(b":path", headers)
            || !has_field(b":authority", headers)
    } else {
        !has_field(b":scheme", headers) || !has_field(b":path", headers)
    }
}

/// Whether a pseudo-header is missing that such a list has.
fn lacks_pseudo(kind: ListKind, headers: &[Header]) -> bool
    ensures { result ≡ lacks_pseudo kind headers.now }
{
    match kind {
        ListKind::Request => !has_field(b":method", headers) || lacks_target(headers),
        ListKind::Reply => !has_field(b":status", headers),
        ListKind::Trailers => false,
    }
}

/// Whether a header list is malformed, which is a stream error (RFC 9113, section 8.1.1).
pub fn is_malformed(kind: ListKind, headers: &[Header]) -> bool
    ensures exact { result ≡ is_malformed kind headers.now }
{
    has_bad_field(headers)
        || has_late_pseudo(headers)
        || has_repeated_pseudo(headers)
        || has_foreign_pseudo(kind, headers)
        || lacks_pseudo(kind, headers)
}

/// Whether a status is informational: three digits, the first of them 1 (section 8.1).
fn is_informational_status(status: &[u8]) -> bool
    ensures { result ≡ is_informational_status status.now }
{
    let [a, b, c] = status else {
        return false;
    };
    *a == b'1' && b.is_ascii_digit() && c.is_ascii_digit()
}

/// Whether a reply's header list is informational, by its `:status`: the reply comes after it.
pub fn is_informational(headers: &[Header]) -> bool
    ensures { result ≡ is_informational headers.now }
{
    headers.iter().any(|header| {
        is_named(b":status", header) && is_informational_status(header.value.as_slice())
    })
}
