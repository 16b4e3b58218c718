//! The open streams as filters over a history.
ghost use Rattle.std.specs.Prelude.{◌≡◌, ℕ, Some, List};
ghost use Rattle.h2_history.specs.History.{Entry, StandsFor, new_standing};
ghost use Rattle.h2_history.specs.Standing.{Standing};
ghost use Rattle.h2_layouts.specs.declared.role.Role.{Role};
ghost use Rattle.stream_laws.specs.Marks.{all_marks, is_open_by, was_ended_there, was_ended_here};
ghost use Rattle.stream_table.specs.declared.open_stream.OpenStream.{OpenStream};
ghost use Rattle.stream_table.specs.Rows.{row_of, is_open};

/// A connection that stands for a history, any list of entries, has exactly those streams open that the
/// history opens, and neither closes nor ends on both sides; and each end has ended an open stream
/// where the history says so.
pub fn streams_law()
    ensures open_streams { (role : Role) (entries : List Entry) (s : Standing) (stream : ℕ) → StandsFor s role entries
        → is_open stream s.streams ≡ is_open_by stream (all_marks entries (new_standing role)) }
    ensures ended_by_peer { (role : Role) (entries : List Entry) (s : Standing) (stream : ℕ) (row : OpenStream) → StandsFor s role entries
        → row_of stream s.streams ≡ Some row
        → row.peer_ended ≡ was_ended_there stream (all_marks entries (new_standing role)) }
    ensures ended_here { (role : Role) (entries : List Entry) (s : Standing) (stream : ℕ) (row : OpenStream) → StandsFor s role entries
        → row_of stream s.streams ≡ Some row
        → row.here_ended ≡ was_ended_here stream (all_marks entries (new_standing role)) }
{}
