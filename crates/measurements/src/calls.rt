//! Calls through both ends of a connection, in memory.
ghost use Rattle.std.specs.Prelude.{◌≡◌, ◌≤◌, ◌++◌, ◌∷◌, [], IfOk, OnOk};
ghost use Rattle.hpack.specs.Tables.{list_size};
ghost use Rattle.hpack.specs.declared.limits.TheConstants.{MAX_HEADER_LIST_SIZE};

use esi_base::{List, Octets, Poll};
use h2_streams::{CallEvent, Conn};
use hpack::{Header, Headers};
use std::alloc::{AllocError, Global};

/// More events than one end reports at once.
const MOST_EVENTS: u32 = 1_000_000;

/// The header lists of a call, which are made once.
#[derive(Drop)]
struct Lists {
    request: Headers,
    reply: Headers,
    trailers: Headers,
    ghost request_small: { list_size request ≤ MAX_HEADER_LIST_SIZE },
    ghost reply_small: { list_size reply ≤ MAX_HEADER_LIST_SIZE },
    ghost trailers_small: { list_size trailers ≤ MAX_HEADER_LIST_SIZE },
}

/// A client and a server.
#[derive(Drop)]
struct Pair {
    client: Conn,
    server: Conn,
    ended: usize,
}

/// Makes so many rounds of calls, each of so many calls that are open at once: a request's HEADERS and
/// DATA of these octets, and a reply's HEADERS, DATA of the same octets and trailers. Gives how many
/// calls ended in a round; None where one end finds a fault in the other.
pub fn serve(alloc: Global, rounds: u32, octets: &[u8], open: u32) -> Option<usize> {
    let lists = Lists::new(alloc)?;
    let mut pair = Pair::new(alloc, &lists)?;
    for _ in 0..rounds {
        pair.ended = 0;
        pair.round(&lists, octets, open)?;
    }
    Some(pair.ended)
}

impl Lists {
    fn new(alloc: Global) -> Option<Lists> {
        let request = request(alloc).ok()?;
        let reply = reply(alloc).ok()?;
        let trailers = trailers(alloc).ok()?;
        Some(Lists {
            request,
            reply,
            trailers,
        })
    }
}

impl Pair {
    fn new(alloc: Global, lists: &Lists) -> Option<Pair> {
        let mut pair = Pair {
            client: Conn::client(alloc).ok()?,
            server: Conn::server(alloc).ok()?,
            ended: 0,
        };
        pair.carry(lists, b"")?;
        Some(pair)
    }

    /// So many calls, from their requests to the last octet of their replies.
    fn round(&mut self, lists: &Lists, octets: &[u8], open: u32) -> Option<()> {
        for _ in 0..open {
            self.request(lists, octets)?;
        }
        self.carry(lists, octets)
    }

    /// The client puts a request.
    fn request(&mut self, lists: &Lists, octets: &[u8]) -> Option<()> {
        if !self.client.can_open() {
            return None;
        }
        let stream = self.client.open_call(&lists.request).ok()?;
        put_data(&mut self.client, stream, octets)?;
        if !self.client.can_send(stream) {
            return None;
        }
        self.client.finish(stream);
        Some(())
    }

    /// The octets go there and back; each request that has ended is answered.
    fn carry(&mut self, lists: &Lists, octets: &[u8]) -> Option<()> {
        pass(&mut self.client, &mut self.server)?;
        for _ in 0..MOST_EVENTS {
            match self.server.poll_call() {
                Poll::Pending => break,
                Poll::Ready(Err(_failed)) => return None,
                Poll::Ready(Ok(event)) => {
                    give_back(&mut self.server, &event);
                    if let Some(stream) = ended(&event)? {
                        self.reply(lists, stream, octets)?;
                    }
                }
            }
        }
        pass(&mut self.server, &mut self.client)?;
        for _ in 0..MOST_EVENTS {
            match self.client.poll_call() {
                Poll::Pending => break,
                Poll::Ready(Err(_failed)) => return None,
                Poll::Ready(Ok(event)) => {
                    give_back(&mut self.client, &event);
                    if ended(&event)?.is_some() {
                        self.ended = self.ended.wrapping_add(1);
                    }
                }
            }
        }
        Some(())
    }

    /// The server puts a reply.
    fn reply(&mut self, lists: &Lists, stream: u32, octets: &[u8]) -> Option<()> {
        if !self.server.can_send(stream) {
            return None;
        }
        self.server.head(stream, &lists.reply, false).ok()?;
        put_data(&mut self.server, stream, octets)?;
        if !self.server.can_send(stream) {
            return None;
        }
        self.server.head(stream, &lists.trailers, true).ok()
    }
}

/// The octets that an end has put go to the other one.
fn pass(from: &mut Conn, to: &mut Conn) -> Option<()> {
    to.feed(from.output()).ok()?;
    let count = from.output().len();
    from.take_output(count);
    Some(())
}

/// An end puts octets of DATA, all in one frame.
fn put_data(conn: &mut Conn, stream: u32, octets: &[u8]) -> Option<()> {
    if octets.is_empty() {
        return Some(());
    }
    if conn.is_broken() || !conn.can_send(stream) {
        return None;
    }
    match conn.poll_send(stream, octets) {
        Poll::Ready(count) if count == octets.len() => Some(()),
        _ => None,
    }
}

/// An end gives the octets of DATA back.
fn give_back(conn: &mut Conn, event: &CallEvent) {
    if let CallEvent::Part { stream, flow, .. } = event {
        let octets = *flow;
        if octets > 0 && octets <= 1_048_576 && !conn.is_broken() {
            conn.give_back(*stream, octets);
        }
    }
}

/// The stream that ends with an event; None where the event is a fault.
fn ended(event: &CallEvent) -> Option<Option<u32>> {
    match event {
        CallEvent::Head { stream, end, .. } | CallEvent::Part { stream, end, .. } => {
            Some(if *end { Some(*stream) } else { None })
        }
        CallEvent::Reset { .. } | CallEvent::Broken { .. } => None,
    }
}

/// A header.
fn header(alloc: Global, name: &[u8], value: &[u8]) -> Result<Header, AllocError>
    ensures { IfOk result (λ header. header ≡ record { name = name.now; value = value.now }) }
{
    Ok(Header {
        name: Octets::from_slice(alloc, name)?,
        value: Octets::from_slice(alloc, value)?,
    })
}

/// The header list of a call of gRPC.
fn request(alloc: Global) -> Result<Headers, AllocError>
    ensures { IfOk result (λ headers. list_size headers ≤ MAX_HEADER_LIST_SIZE) }
{
    let mut headers = List::new(alloc);
    add(&mut headers, header(alloc, b":method", b"POST")?)?;
    add(&mut headers, header(alloc, b":scheme", b"http")?)?;
    add(&mut headers, header(alloc, b":path", b"/service/Call")?)?;
    add(
        &mut headers,
        header(alloc, b"content-type", b"application/grpc")?,
    )?;
    add(&mut headers, header(alloc, b"te", b"trailers")?)?;
    Ok(headers)
}

/// That of its reply.
fn reply(alloc: Global) -> Result<Headers, AllocError>
    ensures { IfOk result (λ headers. list_size headers ≤ MAX_HEADER_LIST_SIZE) }
{
    let mut headers = List::new(alloc);
    add(&mut headers, header(alloc, b":status", b"200")?)?;
    add(
        &mut headers,
        header(alloc, b"content-type", b"application/grpc")?,
    )?;
    Ok(headers)
}

/// Its trailers.
fn trailers(alloc: Global) -> Result<Headers, AllocError>
    ensures { IfOk result (λ headers. list_size headers ≤ MAX_HEADER_LIST_SIZE) }
{
    let mut headers = List::new(alloc);
    add(&mut headers, header(alloc, b"grpc-status", b"0")?)?;
    Ok(headers)
}

/// Adds a header at the end.
fn add(headers: &mut Headers, header: Header) -> Result<(), AllocError>
    ensures { OnOk result (headers.new ≡ headers.old ++ header ∷ []) }
{
    match headers.add(header) {
        Ok(()) => Ok(()),
        Err(_failed) => Err(AllocError),
    }
}
