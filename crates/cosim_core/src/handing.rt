//! The hands of a cycle.
ghost use Rattle.std.specs.Prelude.{◌≡◌, ◌<◌, ◌≤◌, ◌++◌, length, map, OnOk, IfOk};
ghost use Rattle.cycle_rules.specs.Cycle.{word_handed, transfers_from};
ghost use Rattle.cycle_rules.specs.Lists.{zip_with};
ghost use Rattle.cycle_rules.specs.Rings.{after_pop};
ghost use Rattle.endpoint_hub.specs.Entries.{hand_of};
ghost use Rattle.session_rules.specs.Hands.{word_out};
ghost use Rattle.cosim_core.specs.HandSteps.{HandsAt};

use endpoint_hub::{Hub, SIDE_CHANNELS};
use esi_base::{List, NoMemory, Word};

/// Each to-client ring that is not empty hands its oldest word, where the channel hands. `handed` then has of each channel the word
/// that it handed.
pub(crate) fn hand_all(
    hub: &mut Hub,
    handed: &mut List<Option<Word>>,
    hands: &[bool],
) -> Result<(), NoMemory>
    requires rings { length hub.old.to_client ≡ length hands.now }
    requires few { length hands.now ≤ SIDE_CHANNELS }
    ensures to_client { OnOk result (hub.new.to_client ≡ zip_with after_pop hub.old.to_client hands.now) }
    ensures to_server { OnOk result (hub.new.to_server ≡ hub.old.to_server) }
    ensures has_stream { OnOk result (hub.new.has_stream ≡ hub.old.has_stream) }
    ensures noted { OnOk result (hub.new.journal.handed ≡ hub.old.journal.handed ++ map hand_of (transfers_from hub.old.journal.cycles 0 (zip_with word_handed hub.old.to_client hands.now))) }
    ensures taken { OnOk result (hub.new.journal.taken ≡ hub.old.journal.taken) }
    ensures attached { OnOk result (hub.new.journal.attached ≡ hub.old.journal.attached) }
    ensures cycles { OnOk result (hub.new.journal.cycles ≡ hub.old.journal.cycles) }
    ensures words { OnOk result (handed.new ≡ zip_with word_out hub.old.to_client hands.now) }
{
    handed.truncate(0);
    for channel in 0..hands.len() {
        let word = hand_at(hub, channel as u32, hands[channel])?;
        handed.add(word)?;
    }
    Ok(())
}

/// A to-client ring hands its oldest word, where it has one and the channel hands.
#[tactic(auto, using(crate::proofs::Steps::hands_not, crate::proofs::Steps::hands_none, crate::proofs::Steps::hands_some))]
fn hand_at(hub: &mut Hub, channel: u32, hands: bool) -> Result<Option<Word>, NoMemory>
    requires { channel < length hub.old.to_client }
    ensures { IfOk result (λ word. HandsAt hub.old hub.new channel hands word) }
{
    if !hands {
        return Ok(None);
    }
    match hub.hand(channel)? {
        Some(word) => Ok(Some(word)),
        None => Ok(None),
    }
}
