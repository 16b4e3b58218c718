//! What holds of links that play a log, whatever was played.
ghost use Rattle.std.specs.Prelude.{◌≡◌, ◌+◌, ◌<◌, ◌^◌, ℕ, List, IsTrue, length};
ghost use Rattle.std.specs.List.{list_all};
ghost use Rattle.esi_links.specs.LinkLog.{opened_count};
ghost use Rattle.line_rules.specs.TextRules.{IsText};
ghost use Rattle.link_log.specs.declared.step.LogStep.{LogStep};
ghost use Rattle.link_log.specs.LogLines.{log_rules};
ghost use Rattle.memory_links.specs.Plays.{is_sized_step, openings};
ghost use Rattle.memory_links.specs.Told.{play};

use crate::memory::MemoryLinks;

/// There is a place for each connection that opened by a step or is to open by one, and one more for
/// `connect`: so a connection that opens is noted as open. And they are counted as the log has them.
pub fn memory_links_law(links: &MemoryLinks)
    ensures places { (play links.now).opened + openings (play links.now).steps < length (play links.now).conns }
    ensures counted { (play links.now).opened ≡ opened_count (play links.now).log }
{
    let _ = &links.player;
}

/// A log that was read can be played: it meets all that `MemoryLinks::from_log` asks.
pub fn read_log_law()
    ensures sized { (text : List ℕ) (steps : List LogStep) → IsText log_rules text steps
        → IsTrue (list_all is_sized_step steps) }
    ensures few { (text : List ℕ) (steps : List LogStep) → IsText log_rules text steps
        → openings steps < 2 ^ 32 }
{}
