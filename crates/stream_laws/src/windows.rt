//! The windows as sums over a history.
ghost use Rattle.std.specs.Prelude.{◌<◌, ℕ, List};
ghost use Rattle.h2_flow.specs.History.{AreConnectionSums, AreStreamSums};
ghost use Rattle.h2_history.specs.FlowCalls.{AreWithin};
ghost use Rattle.h2_history.specs.History.{Entry, new_standing};
ghost use Rattle.h2_history.specs.Runs.{Call, Step, IsRun};
ghost use Rattle.h2_history.specs.Standing.{Standing};
ghost use Rattle.h2_layouts.specs.declared.role.Role.{Role};
ghost use Rattle.stream_laws.specs.NoData.{IsNoSend, PutsNoData};
ghost use Rattle.stream_laws.specs.Windows.{window_calls};

/// No call but `poll_send` puts octets of DATA, and DATA that is put passes no window, over any calls.
/// After any calls of a new end the connection's windows and each open stream's are the sums over the
/// entries.
#[tactic(auto, using(crate::proofs::WithinLaws::step_none, crate::proofs::WithinLaws::run_within, crate::proofs::WithinLaws::connection_windows))]
pub fn windows_law()
    ensures by_poll_send { (call : Call) (old : Standing) (entries : List Entry) (new : Standing)
        → IsNoSend call → Step old call entries new → PutsNoData entries }
    ensures within { (calls : List Call) (old : Standing) (entries : List Entry) (new : Standing)
        → IsRun old calls entries new → AreWithin entries old }
    ensures connection { (role : Role) (calls : List Call) (entries : List Entry) (new : Standing)
        → IsRun (new_standing role) calls entries new
        → AreConnectionSums (window_calls role entries) new.flow }
    ensures stream { (role : Role) (calls : List Call) (entries : List Entry) (new : Standing) (stream : ℕ)
        → 0 < stream → IsRun (new_standing role) calls entries new
        → AreStreamSums stream (window_calls role entries) new.flow }
{}
