//! Laws of histories, over any list of calls.
ghost use Rattle.std.specs.Prelude.{◌≡◌, List, ◌++◌};
ghost use Rattle.h2_history.specs.History.{Entry, StandsFor, after_all};
ghost use Rattle.h2_history.specs.Runs.{Call, Step, IsRun};
ghost use Rattle.h2_history.specs.OutputLaws.{OutputIs};
ghost use Rattle.h2_history.specs.Standing.{Standing};
ghost use Rattle.h2_layouts.specs.declared.role.Role.{Role};

/// A connection that stands for a history stands, after a call, for that history with exactly the
/// entries of the call: the octets that were fed, the frames that were read and put, in order, the octets
/// that were taken. So it does after any calls.
#[tactic(auto, using(crate::specs::RunLaws::step_history, crate::specs::RunLaws::run_stands))]
pub fn history_law()
    ensures call { (role : Role) (history entries : List Entry) (call : Call) (old new : Standing)
        → StandsFor old role history → Step old call entries new → StandsFor new role (history ++ entries) }
    ensures calls { (calls : List Call) (old : Standing) (entries : List Entry) (new : Standing)
        → IsRun old calls entries new → new ≡ after_all entries old }
{}

/// After any calls the output is the octets that stood there and those of the frames that were put since,
/// less those that were taken.
#[tactic(auto, using(crate::specs::OutputLaws::run_output))]
pub fn output_law()
    ensures { (calls : List Call) (old : Standing) (entries : List Entry) (new : Standing)
        → IsRun old calls entries new → OutputIs old entries new }
{}
