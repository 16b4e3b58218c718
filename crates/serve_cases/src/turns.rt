//! Worked turns of the small server: each is computed by the rule, and checked as the crate is.
ghost use Rattle.std.specs.Prelude.{◌≡◌};
ghost use Rattle.serve_cases.specs.FullRows.{opened_windows, opened_windows_result, reset_while_waiting, reset_while_waiting_result, shut_windows, shut_windows_result};
ghost use Rattle.serve_cases.specs.Rows.{one_value, one_value_result, second_attachment, second_attachment_result};
ghost use Rattle.serve_cases.specs.Summaries.{summary, session_by};

/// A connection attaches the channel and puts the value 42, all in one piece of octets, and closes. The
/// value is taken in the first cycle of that turn, cycle 64, and handed in the third; the stream that is
/// attached gets its message.
#[tactic(auto, using(crate::specs::Rows::one_value_is))]
pub fn one_value_law()
    ensures row { summary (session_by one_value) ≡ one_value_result }
{}

/// The channel is attached once in a session: an attachment by another connection is answered 6
/// (ALREADY_EXISTS), and so is one after the stream that was attached first has ended.
#[tactic(auto, using(crate::specs::Rows::second_attachment_is))]
pub fn second_attachment_law()
    ensures row { summary (session_by second_attachment) ≡ second_attachment_result }
{}

/// Nothing is attached, and connection 0 puts 37 values: 36 are taken, and the last one waits, and behind
/// it a value of connection 1. The stream of the one that waits first is reset, and then the channel is
/// attached. 37 values are taken and handed in the end; the last is that of connection 1.
#[tactic(auto, using(crate::specs::FullRows::reset_while_waiting_is))]
pub fn reset_while_waiting_law()
    ensures row { summary (session_by reset_while_waiting) ≡ reset_while_waiting_result }
{}

/// A client whose windows to send are 0 attaches the channel and puts 41 values. After four idle turns 37
/// are taken and one is handed; 4 calls wait, and their octets are not given back. No DATA is put, and no
/// reply has ended.
#[tactic(auto, using(crate::specs::FullRows::shut_windows_is))]
pub fn shut_windows_law()
    ensures row { summary (session_by shut_windows) ≡ shut_windows_result }
{}

/// Then a window of 3 brings one frame of DATA with the first three octets of the message, and one of 5 the
/// rest, after which the next value is handed, and one more is taken.
#[tactic(auto, using(crate::specs::FullRows::opened_windows_is))]
pub fn opened_windows_law()
    ensures row { summary (session_by opened_windows) ≡ opened_windows_result }
{}
