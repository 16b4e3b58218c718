//! The header lists that an end puts.
ghost use Rattle.std.specs.Prelude.{◌≡◌, ◌≤◌, ◌++◌, ◌∷◌, [], IfOk, OnOk};
ghost use Rattle.hpack.specs.Tables.{list_size};
ghost use Rattle.hpack.specs.declared.limits.TheConstants.{MAX_HEADER_LIST_SIZE};

use esi_base::{List, Octets};
use hpack::{Header, Headers};
use std::alloc::{AllocError, Global};

/// A header.
fn header(alloc: Global, name: &[u8], value: &[u8]) -> Result<Header, AllocError>
    ensures { IfOk result (λ header. header ≡ record { name = name.now; value = value.now }) }
{
    Ok(Header {
        name: Octets::from_slice(alloc, name)?,
        value: Octets::from_slice(alloc, value)?,
    })
}

/// A request's header list.
pub fn request(alloc: Global) -> Result<Headers, AllocError>
    ensures { IfOk result (λ headers. list_size headers ≤ MAX_HEADER_LIST_SIZE) }
{
    let mut headers = List::new(alloc);
    add(&mut headers, header(alloc, b":method", b"GET")?)?;
    add(&mut headers, header(alloc, b":scheme", b"http")?)?;
    add(&mut headers, header(alloc, b":path", b"/")?)?;
    Ok(headers)
}

/// A reply's.
pub fn reply(alloc: Global) -> Result<Headers, AllocError>
    ensures { IfOk result (λ headers. list_size headers ≤ MAX_HEADER_LIST_SIZE) }
{
    let mut headers = List::new(alloc);
    add(&mut headers, header(alloc, b":status", b"200")?)?;
    Ok(headers)
}

/// Adds a header at the end.
fn add(headers: &mut Headers, header: Header) -> Result<(), AllocError>
    ensures { OnOk result (headers.new ≡ headers.old ++ header ∷ []) }
{
    match headers.add(header) {
        Ok(()) => Ok(()),
        Err(_failed) => Err(AllocError),
    }
}

/// A request's header list, with a letter by which it is known.
pub fn request_of(alloc: Global, letter: u8) -> Result<Headers, AllocError>
    ensures { IfOk result (λ headers. list_size headers ≤ MAX_HEADER_LIST_SIZE) }
{
    let mut headers = List::new(alloc);
    add(&mut headers, header(alloc, b":method", b"POST")?)?;
    add(&mut headers, header(alloc, b":scheme", b"http")?)?;
    add(&mut headers, header(alloc, b":path", b"/")?)?;
    add(&mut headers, header(alloc, b"letter", &[letter])?)?;
    Ok(headers)
}

/// A reply's, with one.
pub fn reply_of(alloc: Global, letter: u8) -> Result<Headers, AllocError>
    ensures { IfOk result (λ headers. list_size headers ≤ MAX_HEADER_LIST_SIZE) }
{
    let mut headers = List::new(alloc);
    add(&mut headers, header(alloc, b":status", b"200")?)?;
    add(&mut headers, header(alloc, b"letter", &[letter])?)?;
    Ok(headers)
}

/// Trailers, with one.
pub fn trailers_of(alloc: Global, letter: u8) -> Result<Headers, AllocError>
    ensures { IfOk result (λ headers. list_size headers ≤ MAX_HEADER_LIST_SIZE) }
{
    let mut headers = List::new(alloc);
    add(&mut headers, header(alloc, b"letter", &[letter])?)?;
    Ok(headers)
}
