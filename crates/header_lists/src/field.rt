//! Header fields, one at a time (RFC 9113, sections 8.2 and 8.3).
ghost use Rattle.std.specs.Prelude.{◌≡◌, ◌∷◌};
ghost use Rattle.header_lists.specs.Fields.{is_named, is_bad_in_name, is_bad_name, is_bad_in_value, is_connection_field, is_bad_te, is_bad_field, is_pseudo, is_request_pseudo, is_reply_pseudo};
ghost use Rattle.std.specs.List.{list_any};
ghost use Rattle.header_lists.specs.Scans.{is_bad_behind_first};

use hpack::Header;

/// Whether the field has this name.
pub(crate) fn is_named(name: &[u8], header: &Header) -> bool
    ensures { result ≡ is_named name.now header.now }
{
    header.name.as_slice() == name
}

/// Whether an octet stands in no name: a control character or a blank, an upper-case letter, or no ASCII.
fn is_bad_in_name(octet: u8) -> bool
    ensures { result ≡ is_bad_in_name octet }
{
    octet <= b' ' || octet.is_ascii_uppercase() || octet >= 0x7f
}

/// Whether an octet stands in no name behind its first octet: it stands in none, or is a colon. Most are
/// lower-case letters, so these come first.
fn is_bad_behind_first(octet: u8) -> bool
    ensures { result ≡ is_bad_behind_first octet }
{
    !octet.is_ascii_lowercase() && (is_bad_in_name(octet) || octet == b':')
}

/// Whether no field has the name: it is empty, has an octet that stands in none, or a colon that is not
/// its first octet.
fn is_bad_name(name: &[u8]) -> bool
    ensures { result ≡ is_bad_name name.now }
{
    let [first, others @ ..] = name else {
        return true;
    };
    is_bad_name_of(*first, others)
}

/// The same of a name with this first octet, and these behind it.
fn is_bad_name_of(first: u8, others: &[u8]) -> bool
    ensures { result ≡ is_bad_name (first ∷ others.now) }
{
    if is_bad_in_name(first) {
        return true;
    }
    has_bad_behind_first(others)
}

/// Whether some octet stands in no name behind the first one. It looks at four at a time.
fn has_bad_behind_first(octets: &[u8]) -> bool
    ensures { result ≡ list_any is_bad_behind_first octets.now }
{
    let mut rest = octets;
    while let [a, b, c, d, others @ ..] = rest {
        if is_bad_behind_first(*a)
            || is_bad_behind_first(*b)
            || is_bad_behind_first(*c)
            || is_bad_behind_first(*d)
        {
            return true;
        }
        rest = others;
    }
    has_bad_among_few(rest)
}

/// The same, octet by octet.
fn has_bad_among_few(octets: &[u8]) -> bool
    ensures { result ≡ list_any is_bad_behind_first octets.now }
{
    octets.iter().any(|octet| is_bad_behind_first(*octet))
}

/// Whether an octet stands in no value: NUL, LF or CR. Most are greater than all three.
fn is_bad_in_value(octet: u8) -> bool
    ensures { result ≡ is_bad_in_value octet }
{
    octet <= b'\r' && (octet == 0 || octet == b'\n' || octet == b'\r')
}

/// Whether no field has the value: it has NUL, LF or CR. It looks at four octets at a time.
fn is_bad_value(value: &[u8]) -> bool
    ensures { result ≡ list_any is_bad_in_value value.now }
{
    let mut rest = value;
    while let [a, b, c, d, others @ ..] = rest {
        if is_bad_in_value(*a)
            || is_bad_in_value(*b)
            || is_bad_in_value(*c)
            || is_bad_in_value(*d)
        {
            return true;
        }
        rest = others;
    }
    is_bad_short_value(rest)
}

/// The same, octet by octet.
fn is_bad_short_value(value: &[u8]) -> bool
    ensures { result ≡ list_any is_bad_in_value value.now }
{
    value.iter().any(|octet| is_bad_in_value(*octet))
}

/// Whether the field speaks of the connection (section 8.2.2).
fn is_connection_field(header: &Header) -> bool
    ensures { result ≡ is_connection_field header.now }
{
    is_named(b"connection", header)
        || is_named(b"proxy-connection", header)
        || is_named(b"keep-alive", header)
        || is_named(b"transfer-encoding", header)
        || is_named(b"upgrade", header)
}

/// Whether it is `te` with another value than `trailers`.
fn is_bad_te(header: &Header) -> bool
    ensures { result ≡ is_bad_te header.now }
{
    is_named(b"te", header) && header.value.as_slice() != b"trailers".as_slice()
}

/// Whether no list has the field.
pub(crate) fn is_bad_field(header: &Header) -> bool
    ensures { result ≡ is_bad_field header.now }
{
    is_bad_name(header.name.as_slice())
        || is_bad_value(header.value.as_slice())
        || is_connection_field(header)
        || is_bad_te(header)
}

/// Whether the field is a pseudo-header: its name begins with a colon (section 8.3).
pub(crate) fn is_pseudo(header: &Header) -> bool
    ensures { result ≡ is_pseudo header.now }
{
    let [first, ..] = header.name.as_slice() else {
        return false;
    };
    *first == b':'
}

/// Whether the field has the name of a pseudo-header of requests (section 8.3.1).
pub(crate) fn is_request_pseudo(header: &Header) -> bool
    ensures { result ≡ is_request_pseudo header.now }
{
    is_named(b":method", header)
        || is_named(b":scheme", header)
        || is_named(b":path", header)
        || is_named(b":authority", header)
}

/// Whether the field has the name of the pseudo-header of replies (section 8.3.2).
pub(crate) fn is_reply_pseudo(header: &Header) -> bool
    ensures { result ≡ is_reply_pseudo header.now }
{
    is_named(b":status", header)
}
