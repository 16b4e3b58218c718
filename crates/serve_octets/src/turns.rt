//! The octets that the small server sends in worked turns.
ghost use Rattle.std.specs.Prelude.{◌≡◌};
ghost use Rattle.serve_cases.specs.Summaries.{session_by};
ghost use Rattle.serve_octets.specs.SentRows.{greeted, greeted_result, many_streams, many_streams_result, sent_in, too_large, too_large_result};

/// A client writes its preface and SETTINGS, and goes: the server sends SETTINGS, WINDOW_UPDATE and the
/// acknowledgement, these octets.
#[tactic(auto, using(crate::specs::SentRows::greeted_is))]
pub fn greeted_law()
    ensures row { sent_in (session_by greeted) ≡ greeted_result }
{}

/// The header of a frame of 16,385 octets ends the connection: GOAWAY with FRAME_SIZE_ERROR is sent, and
/// the connection is dropped.
#[tactic(auto, using(crate::specs::SentRows::too_large_is))]
pub fn too_large_law()
    ensures row { sent_in (session_by too_large) ≡ too_large_result }
{}

/// Of 65 streams that stay open the last one is reset with REFUSED_STREAM, and the connection goes on.
#[tactic(auto, using(crate::specs::SentRows::many_streams_is))]
pub fn many_streams_law()
    ensures row { sent_in (session_by many_streams) ≡ many_streams_result }
{}
