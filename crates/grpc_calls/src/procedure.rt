//! The procedures of the service `esi.cosim.ChannelServer`, and their paths.
ghost use Rattle.std.specs.Prelude.{◌≡◌, ◌==◌};
ghost use Rattle.grpc_calls.specs.Procedures.{path_of, procedure_at};

/// A procedure of the service.
#[derive(Clone, Copy, Debug, PartialEq, Eq)]
pub enum Procedure {
    /// The manifest of the design, which this server does not give.
    GetManifest,
    /// The list of the channels.
    ListChannels,
    /// A value for a to-server channel.
    SendToServer,
    /// The values of a to-client channel.
    ConnectToClientChannel,
}

impl Procedure {
    /// The path by which it is asked for ("gRPC over HTTP/2", Path): the service's name and its own, a
    /// slash before each.
    pub fn path(self) -> &'static [u8]
        ensures { result.now ≡ path_of self }
    {
        match self {
            Procedure::GetManifest => b"/esi.cosim.ChannelServer/GetManifest",
            Procedure::ListChannels => b"/esi.cosim.ChannelServer/ListChannels",
            Procedure::SendToServer => b"/esi.cosim.ChannelServer/SendToServer",
            Procedure::ConnectToClientChannel => {
                b"/esi.cosim.ChannelServer/ConnectToClientChannel"
            }
        }
    }

    /// The procedure of a path.
    pub(crate) fn at(path: &[u8]) -> Option<Procedure>
        ensures { result ≡ procedure_at path.now }
    {
        if path == Procedure::GetManifest.path() {
            return Some(Procedure::GetManifest);
        }
        if path == Procedure::ListChannels.path() {
            return Some(Procedure::ListChannels);
        }
        if path == Procedure::SendToServer.path() {
            return Some(Procedure::SendToServer);
        }
        if path == Procedure::ConnectToClientChannel.path() {
            return Some(Procedure::ConnectToClientChannel);
        }
        None
    }
}
