//! How a connection begins.
ghost use Rattle.std.specs.Prelude.{◌≡◌, IfOk};
ghost use Rattle.h2_history.specs.History.{new_standing};
ghost use Rattle.h2_history.specs.Standing.{first_standing, first_octets};
ghost use Rattle.h2_layouts.specs.Written.{setting_octets};
ghost use Rattle.h2_layouts.specs.declared.role.Role.TheVariants.{Server as server_role, Client as client_role};

use crate::conn::Conn;
use esi_base::NoMemory;
use h2_flow::{FIRST_WINDOW, Ledger, OPEN_STREAMS};
use h2_frames::{FrameReader, Role};
use h2_history::limits::{SERVER_WINDOW, UNLIMITED_STREAMS};
use h2_layouts::FrameType;
use h2_layouts::setting::{
    ENABLE_PUSH, MAX_CONCURRENT_STREAMS, MAX_HEADER_LIST_SIZE as HEADER_LIST,
};
use h2_output::Output;
use hpack::{Decoder, Encoder, MAX_HEADER_LIST_SIZE};
use std::alloc::Global;
use stream_table::StreamTable;

/// What a client writes first: `PRI * HTTP/2.0`, two line ends, `SM`, two line ends.
const PREFACE: [u8; 24] = *b"PRI * HTTP/2.0\r\n\r\nSM\r\n\r\n";

/// What an end writes before its first frame.
fn first_octets(role: Role) -> &'static [u8]
    ensures { result.now ≡ first_octets role }
{
    match role {
        Role::Server => &[],
        Role::Client => &PREFACE,
    }
}

/// The six octets of a setting.
fn setting_octets(id: u16, value: u32) -> [u8; 6]
    ensures { result ≡ setting_octets (record { id = id; value = value }) }
{
    let [a, b] = id.to_be_bytes();
    let [c, d, e, f] = value.to_be_bytes();
    [a, b, c, d, e, f]
}

impl Conn {
    /// An end on which nothing was read, before its first frame is put.
    fn blank(alloc: Global, role: Role) -> Result<Conn, NoMemory>
        ensures { IfOk result (λ conn. conn ≡ first_standing role) }
    {
        let mut output = Output::new(alloc)?;
        output.push_all(first_octets(role));
        Ok(Conn {
            alloc,
            role,
            reader: FrameReader::new(alloc, role)?,
            decoder: Decoder::new(alloc)?,
            encoder: Encoder::new(alloc)?,
            ledger: Ledger::new(alloc)?,
            streams: StreamTable::new(alloc)?,
            greatest: 0,
            most: UNLIMITED_STREAMS,
            away: false,
            block: None,
            broken: None,
            failed: false,
            output,
            spare: None,
        })
    }

    /// The end that serves. It takes all the memory at once that putting frames needs, and has its
    /// SETTINGS in the output, with a WINDOW_UPDATE of the connection behind it.
    pub fn server(alloc: Global) -> Result<Conn, NoMemory>
        ensures { IfOk result (λ conn. conn ≡ new_standing server_role) }
    {
        let mut conn = Conn::blank(alloc, Role::Server)?;
        conn.begin_server();
        Ok(conn)
    }

    fn begin_server(&mut self)
        requires { self.old ≡ first_standing server_role }
        ensures { self.new ≡ new_standing server_role }
    {
        let [a, b, c, d, e, f] = setting_octets(MAX_CONCURRENT_STREAMS, OPEN_STREAMS as u32);
        let [g, h, i, j, k, l] = setting_octets(HEADER_LIST, MAX_HEADER_LIST_SIZE as u32);
        self.output.push_frame(
            FrameType::Settings,
            0,
            0,
            &[a, b, c, d, e, f, g, h, i, j, k, l],
        );
        let increment = self.ledger.resolve(SERVER_WINDOW - FIRST_WINDOW);
        let [a, b, c, d] = increment.to_be_bytes();
        self.output
            .push_frame(FrameType::WindowUpdate, 0, 0, &[a, b, c, d]);
    }

    /// The end that calls. It takes all the memory at once that putting frames needs, and has the
    /// preface and its SETTINGS in the output.
    pub fn client(alloc: Global) -> Result<Conn, NoMemory>
        ensures { IfOk result (λ conn. conn ≡ new_standing client_role) }
    {
        let mut conn = Conn::blank(alloc, Role::Client)?;
        conn.begin_client();
        Ok(conn)
    }

    fn begin_client(&mut self)
        requires { self.old ≡ first_standing client_role }
        ensures { self.new ≡ new_standing client_role }
    {
        self.output
            .push_frame(FrameType::Settings, 0, 0, &setting_octets(ENABLE_PUSH, 0));
    }
}
