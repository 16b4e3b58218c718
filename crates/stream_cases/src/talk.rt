//! Conversations of a client and a server over a pipe that is cut at random.
ghost use Rattle.std.specs.Prelude.{◌<◌};

use crate::body::Body;
use crate::lists::{reply_of, request_of, trailers_of};
use case_words::Numbers;
use esi_base::Poll;
use h2_streams::{CallEvent, Conn, OpenStop};
use std::alloc::{AllocError, Global};

/// More steps than any conversation takes.
const MOST_STEPS: u32 = 1_000_000;

/// The most octets of a long request: a server gives nothing back to a stream.
const LONG_REQUEST: u32 = 65_000;

/// The most octets of a long reply.
const LONG_REPLY: u32 = 150_000;

/// How many octets are offered at once, and go through the pipe at once, at most.
const PIECE: u32 = 6_000;

/// A client, a server, and what each sends to the other.
#[derive(Drop)]
struct Talk {
    alloc: Global,
    numbers: Numbers,
    client: Conn,
    server: Conn,
    requests: Vec<Body>,
    replies: Vec<Body>,
    opened: usize,
}

/// Holds so many conversations of so many calls, and says how they went.
pub fn answer(
    alloc: Global,
    seed: u32,
    conversations: u32,
    calls: u32,
) -> Result<String, AllocError> {
    for at in 0..conversations {
        let numbers = Numbers::new(seed.wrapping_mul(65_537).wrapping_add(at));
        let Some(mut talk) = Talk::new(alloc, numbers, calls)? else {
            return Err(AllocError);
        };
        let found = talk.hold()?;
        if found != "as sent" {
            return format!(in alloc; "conversation {at}: {found}");
        }
    }
    format!(in alloc; "{conversations} conversations of {calls} calls, all as sent")
}

/// How long a body is: mostly short, seldom long.
fn length(numbers: &mut Numbers, long: u32) -> u32
    requires { 0 < long }
{
    match numbers.below(16) {
        0 => numbers.below(long),
        1 | 2 | 3 => numbers.below(5_000),
        4 => 0,
        _ => numbers.below(300),
    }
}

fn bodies(
    alloc: Global,
    numbers: &mut Numbers,
    calls: u32,
    long: u32,
) -> Result<Vec<Body>, AllocError>
    requires { 0 < long }
{
    let mut all = Vec::new(alloc);
    for _ in 0..calls {
        let letter = b'a'.wrapping_add((numbers.below(26) & 31) as u8);
        let len = length(numbers, long);
        let trailers = numbers.coin();
        all.push(Body::new(letter, len, trailers))?;
    }
    Ok(all)
}

/// The stream of a call: a client opens odd ones, one after another.
fn stream_of(at: usize) -> u32 {
    let at = u32::try_from(at).unwrap_or(0);
    at.wrapping_mul(2).wrapping_add(1)
}

impl Talk {
    fn new(alloc: Global, first: Numbers, calls: u32) -> Result<Option<Talk>, AllocError> {
        let mut numbers = first;
        let requests = bodies(alloc, &mut numbers, calls, LONG_REQUEST)?;
        let replies = bodies(alloc, &mut numbers, calls, LONG_REPLY)?;
        let Ok(client) = Conn::client(alloc) else {
            return Ok(None);
        };
        let Ok(server) = Conn::server(alloc) else {
            return Ok(None);
        };
        Ok(Some(Talk {
            alloc,
            numbers,
            client,
            server,
            requests,
            replies,
            opened: 0,
        }))
    }

    /// Holds the conversation, step by step.
    fn hold(&mut self) -> Result<&'static str, AllocError> {
        for _ in 0..MOST_STEPS {
            if self.is_over() {
                return Ok("as sent");
            }
            let fine = match self.numbers.below(6) {
                0 => self.open()?,
                1 => self.send_request()?,
                2 => self.send_reply()?,
                3 => self.give_back(),
                4 => self.carry_there()?,
                _ => self.carry_back()?,
            };
            if !fine {
                return Ok("not as sent");
            }
            if self.client.is_broken() {
                return Ok("the client finds a fault");
            }
            if self.server.is_broken() {
                return Ok("the server finds a fault");
            }
        }
        Ok("no end")
    }

    fn is_over(&self) -> bool {
        let mut over = true;
        for body in self.requests.as_slice() {
            over = over && body.is_whole();
        }
        for body in self.replies.as_slice() {
            over = over && body.is_whole();
        }
        over
    }

    /// A call at random.
    fn any_call(&mut self) -> usize {
        let count = (self.requests.len().min(65_536) as u32).max(1);
        self.numbers.below(count) as usize
    }

    /// The client opens the next call, where it may.
    fn open(&mut self) -> Result<bool, AllocError> {
        let Some(body) = self.requests.as_mut_slice().get_mut(self.opened) else {
            return Ok(true);
        };
        if !self.client.can_open() {
            return Ok(false);
        }
        let headers = request_of(self.alloc, body.letter)?;
        match self.client.open_call(&headers) {
            Ok(stream) => {
                body.begun = true;
                let right = stream == stream_of(self.opened);
                self.opened = self.opened.wrapping_add(1);
                Ok(right)
            }
            Err(OpenStop::TooMany) => Ok(true),
            Err(OpenStop::NoMemory) => Err(AllocError),
        }
    }

    /// The client sends more of a request.
    fn send_request(&mut self) -> Result<bool, AllocError> {
        let at = self.any_call();
        let most = self.numbers.below(PIECE);
        match self.requests.as_mut_slice().get_mut(at) {
            None => Ok(true),
            Some(body) => send(self.alloc, &mut self.client, stream_of(at), body, most),
        }
    }

    /// The server begins a reply, or sends more of it.
    fn send_reply(&mut self) -> Result<bool, AllocError> {
        let at = self.any_call();
        let most = self.numbers.below(PIECE);
        let Some(body) = self.replies.as_mut_slice().get_mut(at) else {
            return Ok(true);
        };
        let stream = stream_of(at);
        if body.begun || !self.server.can_send(stream) {
            return send(self.alloc, &mut self.server, stream, body, most);
        }
        let headers = reply_of(self.alloc, body.letter)?;
        body.begun = true;
        if self.server.head(stream, &headers, false).is_err() {
            return Err(AllocError);
        }
        Ok(true)
    }

    /// The server gives back what it has of a request.
    fn give_back(&mut self) -> bool {
        let at = self.any_call();
        let Some(body) = self.requests.as_mut_slice().get_mut(at) else {
            return true;
        };
        let octets = body.owed;
        if octets == 0 || octets > 1_048_576 || self.server.is_broken() {
            return true;
        }
        self.server.give_back(stream_of(at), octets);
        body.owed = 0;
        true
    }

    /// Octets go from the client to the server, which reads them.
    fn carry_there(&mut self) -> Result<bool, AllocError> {
        carry(&mut self.numbers, &mut self.client, &mut self.server)?;
        for _ in 0..MOST_STEPS {
            match self.server.poll_call() {
                Poll::Pending => return Ok(true),
                Poll::Ready(Err(_failed)) => return Err(AllocError),
                Poll::Ready(Ok(event)) => {
                    if !take(&mut self.requests, &event) {
                        return Ok(false);
                    }
                }
            }
        }
        Ok(false)
    }

    /// Octets go from the server to the client, which reads them, and gives each part back at once.
    fn carry_back(&mut self) -> Result<bool, AllocError> {
        carry(&mut self.numbers, &mut self.server, &mut self.client)?;
        for _ in 0..MOST_STEPS {
            match self.client.poll_call() {
                Poll::Pending => return Ok(true),
                Poll::Ready(Err(_failed)) => return Err(AllocError),
                Poll::Ready(Ok(event)) => {
                    if !take(&mut self.replies, &event) {
                        return Ok(false);
                    }
                    self.return_part(&event);
                }
            }
        }
        Ok(false)
    }

    fn return_part(&mut self, event: &CallEvent) {
        if let CallEvent::Part { stream, flow, .. } = event {
            let octets = *flow;
            if octets > 0 && octets <= 1_048_576 && !self.client.is_broken() {
                self.client.give_back(*stream, octets);
            }
        }
    }
}

/// An end sends more of a body, or its end behind the last octet.
fn send(
    alloc: Global,
    conn: &mut Conn,
    stream: u32,
    body: &mut Body,
    most: u32,
) -> Result<bool, AllocError> {
    if !body.begun || body.finished {
        return Ok(true);
    }
    if conn.is_broken() || !conn.can_send(stream) {
        return Ok(false);
    }
    let octets = body.piece(alloc, most)?;
    if !octets.is_empty() {
        if let Poll::Ready(count) = conn.poll_send(stream, octets.as_slice()) {
            body.sent = body.sent.saturating_add(count as u32);
        }
    } else if body.sent == body.len {
        body.finished = true;
        if body.trailers {
            let trailers = trailers_of(alloc, body.letter)?;
            if conn.head(stream, &trailers, true).is_err() {
                return Err(AllocError);
            }
        } else {
            conn.finish(stream);
        }
    }
    Ok(true)
}

/// Some of the octets that one end has put go to the other one.
fn carry(numbers: &mut Numbers, from: &mut Conn, to: &mut Conn) -> Result<(), AllocError> {
    let waiting = from.output().len();
    let piece = numbers.below(PIECE) as usize;
    let count = if numbers.coin() {
        waiting
    } else {
        waiting.min(piece)
    };
    if to.feed(&from.output()[..count]).is_err() {
        return Err(AllocError);
    }
    from.take_output(count);
    Ok(())
}

/// What an end reports is taken by the body of its stream; whether it is as it was sent.
fn take(bodies: &mut Vec<Body>, event: &CallEvent) -> bool {
    match event {
        CallEvent::Head {
            stream,
            headers,
            end,
        } => match body_of(bodies, *stream) {
            None => false,
            Some(body) => body.take_head(headers, *end),
        },
        CallEvent::Part {
            stream,
            octets,
            flow,
            end,
        } => match body_of(bodies, *stream) {
            None => false,
            Some(body) => {
                body.owed = body.owed.saturating_add(*flow);
                body.take_octets(octets.as_slice(), *end)
            }
        },
        CallEvent::Reset { .. } | CallEvent::Broken { .. } => false,
    }
}

fn body_of(bodies: &mut Vec<Body>, stream: u32) -> Option<&mut Body> {
    bodies.as_mut_slice().get_mut((stream / 2) as usize)
}
