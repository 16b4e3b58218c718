//! The connections of links that play a log.
ghost use Rattle.std.specs.Prelude.{◌≡◌, ◌≤◌, OnOk, OnErr};
ghost use Rattle.memory_links.specs.Conns.{unopened, opened, shut, with_room, after_send, changed, send_count, count_at};

use esi_base::{NoMemory, Octets};
use std::alloc::Global;

/// A connection, or a place for one that is still to open.
#[derive(Debug, Drop)]
pub struct Conn {
    /// Whether it opened, and neither closed nor was dropped since.
    pub is_open: bool,
    /// How many octets the sends to it still take in all; None where they take all.
    pub room: Option<u64>,
    /// The octets that the sends to it took.
    pub sent: Octets,
}

impl Conn {
    /// A place for a connection that is still to open. It takes no memory.
    pub(crate) fn new(alloc: Global) -> Conn
        ensures { result ≡ unopened }
    {
        Conn {
            is_open: false,
            room: None,
            sent: Octets::new(alloc),
        }
    }

    /// How much of a send it takes where one call takes at most a piece.
    fn takes(&self, piece: Option<usize>, offered: usize) -> usize
        ensures { result ≡ send_count piece self.now offered }
    {
        if !self.is_open {
            return 0;
        }
        let room = match self.room {
            Some(room) => room.min(offered as u64) as usize,
            None => offered,
        };
        match piece {
            Some(piece) => piece.min(room),
            None => room,
        }
    }

    /// Takes the octets of a send where it is open. Where it runs out of memory it stays.
    fn take(&mut self, octets: &[u8]) -> Result<(), NoMemory>
        ensures taken { OnOk result (self.new ≡ after_send octets.now self.old) }
        ensures kept { OnErr result (self.new ≡ self.old) }
    {
        if !self.is_open {
            return Ok(());
        }
        self.sent.push_all(octets)?;
        if let Some(room) = self.room {
            self.room = Some(room.saturating_sub(octets.len() as u64));
        }
        Ok(())
    }
}

/// How much of a send a connection takes, nothing where there is no such connection.
pub(crate) fn taken_of(conns: &[Conn], conn: u32, piece: Option<usize>, offered: usize) -> usize
    ensures exact { result ≡ count_at piece conns.now conn offered }
    ensures bound { result ≤ offered }
{
    match conns.get(conn as usize) {
        Some(conn) => conn.takes(piece, offered),
        None => 0,
    }
}

/// Gives a connection the octets that it takes of a send. Where it runs out of memory all stay.
pub(crate) fn give(conns: &mut [Conn], conn: u32, octets: &[u8]) -> Result<(), NoMemory>
    ensures given { OnOk result (conns.new ≡ changed conn (after_send octets.now) conns.old) }
    ensures kept { OnErr result (conns.new ≡ conns.old) }
{
    if conn as usize >= conns.len() {
        return Ok(());
    }
    conns[conn as usize].take(octets)
}

/// Notes that a connection opened: it takes all until a room of it is set.
pub(crate) fn open_conn(conns: &mut [Conn], conn: u32)
    ensures { conns.new ≡ changed conn opened conns.old }
{
    if (conn as usize) < conns.len() {
        let target = &mut conns[conn as usize];
        target.is_open = true;
        target.room = None;
    }
}

/// Notes that a connection is not open any more.
pub(crate) fn shut_conn(conns: &mut [Conn], conn: u32)
    ensures { conns.new ≡ changed conn shut conns.old }
{
    if (conn as usize) < conns.len() {
        conns[conn as usize].is_open = false;
    }
}

/// Sets the room of a connection.
pub(crate) fn set_room(conns: &mut [Conn], conn: u32, octets: u64)
    ensures { conns.new ≡ changed conn (with_room octets) conns.old }
{
    if (conn as usize) < conns.len() {
        conns[conn as usize].room = Some(octets);
    }
}
