//! How many endpoints a body has.

/// How many endpoints belong to a body, those of its instances included.
#[derive(Clone, Copy, Debug)]
pub struct Endpoints {
    /// The endpoints to the server.
    pub to_server: usize,
    /// The endpoints to the client.
    pub to_client: usize,
}
