//! The endpoints of a design.
ghost use Rattle.std.specs.Prelude.{◌≡◌, ◌<◌, ◌≤◌, ◌↔◌, length, IsNone, IfSome};
ghost use Rattle.esi_types.specs.declared.directory.TheConstants.{SIDE_ENDPOINTS};

use crate::endpoint::Endpoint;
use esi_base::List;

/// How many endpoints each side has at most. It bounds how many rings and nets one design makes a server
/// hold.
pub const SIDE_ENDPOINTS: usize = 32;

const _: () = prove!(SIDE_ENDPOINTS == 32);

/// The two ways of a channel.
#[derive(Clone, Copy, Debug, PartialEq, Eq)]
pub enum Side {
    /// From a client to the server.
    ToServer,
    /// From the server to a client.
    ToClient,
}

/// The endpoints of a design by their sides, at most `SIDE_ENDPOINTS` on each.
#[derive(Debug, Drop)]
pub struct Directory {
    pub to_server: List<Endpoint>,
    pub to_client: List<Endpoint>,
    pub ghost to_server_count: { length to_server ≤ SIDE_ENDPOINTS },
    pub ghost to_client_count: { length to_client ≤ SIDE_ENDPOINTS },
}

impl Directory {
    ghost use Rattle.esi_types.specs.Directory.{index_of, find_of, IsUnknown, IsFirstNamed};

    /// The side and the index of the first endpoint that has the name, to-server endpoints first; None
    /// exactly where no endpoint has it. It takes no memory.
    pub fn find(&self, name: &[u8]) -> Option<(Side, u32)>
        ensures found { result ≡ find_of self.now name.now }
        ensures none { IsNone result ↔ IsUnknown self.now name.now }
        ensures first { IfSome result (λ found. IsFirstNamed self.now name.now found.0 found.1) }
    {
        if let Some(index) = Directory::first_named(self.to_server.as_slice(), name) {
            return Some((Side::ToServer, index as u32));
        }
        let index = Directory::first_named(self.to_client.as_slice(), name)?;
        Some((Side::ToClient, index as u32))
    }

    /// The index of the first of these endpoints that has the name.
    fn first_named(endpoints: &[Endpoint], name: &[u8]) -> Option<usize>
        ensures index { result ≡ index_of name.now endpoints.now }
        ensures within { IfSome result (λ index. index < length endpoints.now) }
    {
        endpoints
            .iter()
            .position(|endpoint| endpoint.name.as_slice() == name)
    }
}
