//! The end of a connection with an error.
ghost use Rattle.std.specs.Prelude.{◌≡◌, ℕ, Some, List, ◌++◌};
ghost use Rattle.h2_history.specs.declared.event.CallEvent.TheVariants.{Broken};
ghost use Rattle.h2_history.specs.History.{Entry, StandsFor};
ghost use Rattle.h2_history.specs.Runs.{Call, Step, IsRun};
ghost use Rattle.h2_history.specs.Runs.Call.{Report};
ghost use Rattle.h2_history.specs.Standing.{Standing};
ghost use Rattle.h2_layouts.specs.declared.role.Role.{Role};
ghost use Rattle.stream_laws.specs.Ended.{AreSilent, AreNoSends, last_goaway};

/// A connection has ended with an error exactly where it put GOAWAY, whose code is its error, and the one
/// that it reports. Then nothing is read and nothing is put any more, by any calls, and its error stays
/// the same. (`poll_send` asks for a connection that goes on.)
pub fn ended_law()
    ensures by_goaway { (role : Role) (history : List Entry) (s : Standing)
        → StandsFor s role history → s.broken ≡ last_goaway history }
    ensures code { (role : Role) (history entries : List Entry) (old new : Standing) (code : ℕ)
        → StandsFor old role history → Step old (Report (Broken code)) entries new
        → last_goaway (history ++ entries) ≡ Some code }
    ensures silent { (calls : List Call) (code : ℕ) (old : Standing) (entries : List Entry) (new : Standing)
        → AreNoSends calls → old.broken ≡ Some code → IsRun old calls entries new → AreSilent entries }
    ensures ended { (calls : List Call) (code : ℕ) (old : Standing) (entries : List Entry) (new : Standing)
        → AreNoSends calls → old.broken ≡ Some code → IsRun old calls entries new → new.broken ≡ Some code }
{}
