//! The static table (RFC 7541, section 2.3.1 and Appendix A).
ghost use Rattle.std.specs.Prelude.{◌≡◌, ◌<◌, ◌*◌, ◌+◌, ◌-◌, IfOk, slice_get, Some};
ghost use Rattle.hpack.specs.StaticTable.{static_table};
ghost use Rattle.hpack.specs.StaticPieces.{piece};
ghost use Rattle.hpack.specs.Spans.{IsSpan, key_of};

use crate::header::Header;
use crate::limits::STATIC_ENTRIES;
use esi_base::{List, NoMemory};
use std::alloc::Global;

/// The names and values of the entries, one after the other.
const TEXT: [u8; 684] = *b"\
    :authority:methodGET:methodPOST:path/:path/index.html:schemehttp:schemehttps:status200\
    :status204:status206:status304:status400:status404:status500accept-charset\
    accept-encodinggzip, deflateaccept-languageaccept-rangesaccept\
    access-control-allow-originageallowauthorizationcache-controlcontent-disposition\
    content-encodingcontent-languagecontent-lengthcontent-locationcontent-rangecontent-type\
    cookiedateetagexpectexpiresfromhostif-matchif-modified-sinceif-none-matchif-range\
    if-unmodified-sincelast-modifiedlinklocationmax-forwardsproxy-authenticate\
    proxy-authorizationrangerefererrefreshretry-afterserverset-cookie\
    strict-transport-securitytransfer-encodinguser-agentvaryviawww-authenticate";

/// Where the pieces of `TEXT` begin, and where the last one ends: a name, its value, and so on.
const ENDS: [u16; 123] = [
    0, 10, 10, 17, 20, 27, 31, 36, 37, 42, 53, 60, 64, 71, 76, 83, 86, 93, 96, 103, 106, 113, 116,
    123, 126, 133, 136, 143, 146, 160, 160, 175, 188, 203, 203, 216, 216, 222, 222, 249, 249, 252,
    252, 257, 257, 270, 270, 283, 283, 302, 302, 318, 318, 334, 334, 348, 348, 364, 364, 377, 377,
    389, 389, 395, 395, 399, 399, 403, 403, 409, 409, 416, 416, 420, 420, 424, 424, 432, 432, 449,
    449, 462, 462, 470, 470, 489, 489, 502, 502, 506, 506, 514, 514, 526, 526, 544, 544, 563, 563,
    568, 568, 575, 575, 582, 582, 593, 593, 599, 599, 609, 609, 634, 634, 651, 651, 661, 661, 665,
    665, 668, 668, 684, 684,
];

/// How many keys there are by which names are sought.
const KEYS: usize = 128;

/// What the length of a name and its first octet weigh in its key: so few names of the table share one.
const LENGTH_WEIGHT: usize = 13;

const FIRST_WEIGHT: usize = 10;

/// By key, the place at which the entries of its names begin, and that behind them, from 0 on.
const FROM: [u8; KEYS] = [
    0, 32, 21, 1, 5, 0, 0, 0, 57, 0, 0, 0, 18, 33, 45, 0, 0, 31, 7, 26, 0, 25, 0, 19, 0, 0, 49, 0,
    28, 36, 0, 0, 0, 0, 0, 0, 59, 0, 0, 0, 0, 0, 0, 40, 0, 0, 0, 47, 0, 0, 0, 0, 34, 0, 0, 51, 37,
    0, 0, 0, 55, 0, 53, 0, 35, 50, 0, 24, 0, 43, 0, 0, 0, 58, 0, 0, 56, 0, 0, 0, 0, 46, 0, 0, 0, 0,
    20, 44, 0, 0, 0, 60, 39, 0, 0, 30, 0, 22, 0, 0, 0, 54, 17, 41, 0, 0, 38, 0, 29, 3, 0, 0, 0, 0,
    16, 23, 14, 52, 42, 0, 0, 0, 0, 0, 27, 0, 0, 0,
];

const TO: [u8; KEYS] = [
    0, 33, 22, 3, 7, 0, 0, 0, 58, 0, 0, 0, 19, 34, 46, 0, 0, 32, 14, 27, 0, 26, 0, 20, 0, 0, 50, 0,
    29, 37, 0, 0, 0, 0, 0, 0, 60, 0, 0, 0, 0, 0, 0, 41, 0, 0, 0, 48, 0, 0, 0, 0, 35, 0, 0, 52, 38,
    0, 0, 0, 56, 0, 54, 1, 36, 51, 0, 25, 0, 49, 0, 0, 0, 59, 0, 0, 57, 0, 0, 0, 0, 47, 0, 0, 0, 0,
    21, 45, 0, 0, 0, 61, 40, 0, 0, 31, 0, 23, 0, 0, 0, 55, 18, 42, 0, 0, 39, 0, 30, 5, 0, 0, 0, 0,
    17, 24, 16, 53, 43, 0, 0, 0, 0, 0, 28, 0, 0, 0,
];

/// The entry at an index, which counts from 0.
pub(crate) fn static_entry(alloc: Global, at: usize) -> Result<Header, NoMemory>
    requires { at < STATIC_ENTRIES }
    ensures { IfOk result (λ header. slice_get static_table at ≡ Some header) }
{
    Ok(Header {
        name: List::from_slice(alloc, piece(2 * at))?,
        value: List::from_slice(alloc, piece(2 * at + 1))?,
    })
}

/// A piece of the text: the name of an entry at twice its index, and after it its value.
pub(crate) fn piece(at: usize) -> &'static [u8]
    requires { at < 122 }
    ensures { result.now ≡ piece at }
{
    let from = ENDS[at] as usize;
    let to = ENDS[at + 1] as usize;
    &TEXT[from..to]
}

/// Between which places all entries of a name stand.
pub(crate) fn span_of(name: &[u8]) -> (usize, usize)
    ensures { IsSpan name.now result.0 result.1 }
{
    let key = key_of(name);
    (FROM[key] as usize, TO[key] as usize)
}

/// The key of a name: by its length, its first octet and its last one.
fn key_of(name: &[u8]) -> usize
    ensures key { result ≡ key_of name.now }
    ensures small { result < KEYS }
{
    if name.is_empty() {
        return 0;
    }
    let first = name[0] as usize;
    let last = name[name.len() - 1] as usize;
    (name.len() % KEYS * LENGTH_WEIGHT + first * FIRST_WEIGHT + last) % KEYS
}
