//! The windows as sums, over any list of calls.
ghost use Rattle.std.specs.Prelude.{◌<◌, ℕ, List};
ghost use Rattle.h2_flow.specs.Windows.{Windows, first_windows, answer_at_receipt, answer_at_update, answer_at_setting};
ghost use Rattle.h2_flow.specs.Faults.{IsCheckedAtReceipt, IsCheckedAtUpdate, IsCheckedAtSetting};
ghost use Rattle.h2_flow.specs.History.{Call, IsRun, IsSummed, AreConnectionSums, AreStreamSums};

/// What any list of calls does to the connection's windows and to the setting, from any windows on.
#[tactic(auto, using(crate::specs::ConnectionSums::run_is_summed))]
pub fn calls_law()
    ensures { (old new : Windows) (calls : List Call) → IsRun old calls new → IsSummed old calls new }
{}

/// After any calls of a new ledger the connection's windows are the sums over these calls.
#[tactic(auto, using(crate::specs::ConnectionSums::connection_sums))]
pub fn connection_law()
    ensures { (new : Windows) (calls : List Call) → IsRun first_windows calls new
        → AreConnectionSums calls new }
{}

/// After any calls of a new ledger a stream is open where it was opened and not closed since, and its
/// windows are the sums over the calls since it was opened.
#[tactic(auto, using(crate::specs::StreamSums::stream_sums))]
pub fn stream_law()
    ensures { (new : Windows) (calls : List Call) (stream : ℕ) → 0 < stream
        → IsRun first_windows calls new → AreStreamSums stream calls new }
{}

/// When a call reports a fault, and what has changed after it.
#[tactic(auto, using(crate::specs::FaultLaws::receipt_law, crate::specs::FaultLaws::update_law, crate::specs::FaultLaws::setting_law))]
pub fn faults_law()
    ensures receipt { (stream octets : ℕ) (w : Windows)
        → IsCheckedAtReceipt stream octets w (answer_at_receipt stream octets w) }
    ensures update { (stream increment : ℕ) (w : Windows)
        → IsCheckedAtUpdate stream increment w (answer_at_update stream increment w) }
    ensures setting { (value : ℕ) (w : Windows)
        → IsCheckedAtSetting value w (answer_at_setting value w) }
{}
