//! The connection preface, with which a client begins (RFC 9113, section 3.4).
ghost use Rattle.std.specs.Prelude.{◌≡◌};
ghost use Rattle.h2_frames.specs.Prefaces.{agrees as agree, preface_due};

use h2_layouts::{FrameContext, Role};

/// How many octets the preface has.
const PREFACE_OCTETS: usize = 24;

const _: () = prove!(PREFACE_OCTETS == 24);

/// What a server reads before the first frame: `PRI * HTTP/2.0`, two line ends, `SM`, two line ends.
const PREFACE: [u8; PREFACE_OCTETS] = *b"PRI * HTTP/2.0\r\n\r\nSM\r\n\r\n";

/// The preface, where it stands before the next frame, else nothing.
pub(crate) fn preface_due(context: FrameContext) -> &'static [u8]
    ensures { result.now ≡ preface_due context }
{
    if context.first && matches!(context.role, Role::Server) {
        &PREFACE
    } else {
        &[]
    }
}

/// Whether two texts have the same octets, as far as both reach.
pub(crate) fn agrees(text: &[u8], other: &[u8]) -> bool
    ensures { result ≡ agree text.now other.now }
{
    text.iter().zip(other).all(|(octet, found)| octet == found)
}
