//! The words of the inputs of a cycle.
ghost use Rattle.std.specs.Prelude.{◌≡◌, ◌≤◌, ◌++◌, length, map, IfOk, OnOk};
ghost use Rattle.cycle_rules.specs.Cycle.{offers, rooms};
ghost use Rattle.cycle_rules.specs.Lists.{zip_with};
ghost use Rattle.session_rules.specs.Ports.{offer_words, room_word, joined, inputs_of};

use crate::words::{bit_word, offered_word, valid_word};
use endpoint_hub::{Hub, SIDE_CHANNELS};
use esi_base::{List, NoMemory, Word};

/// Gathers the words of all inputs: what each to-server ring offers, then whether each to-client ring has room. What stood in the list
/// goes.
pub(crate) fn gather(
    inputs: &mut List<Word>,
    hub: &Hub,
    blanks: &[Word],
    clients: usize,
) -> Result<(), NoMemory>
    requires servers { length blanks.now ≡ length hub.now.to_server }
    requires clients { clients ≡ length hub.now.to_client }
    requires few_servers { length hub.now.to_server ≤ SIDE_CHANNELS }
    requires few_clients { length hub.now.to_client ≤ SIDE_CHANNELS }
    ensures { OnOk result (inputs.new ≡ inputs_of blanks.now (offers hub.now.to_server) (rooms hub.now.to_client)) }
{
    inputs.truncate(0);
    gather_offers(inputs, hub, blanks)?;
    gather_rooms(inputs, hub, clients)?;
    Ok(())
}

/// Adds what each to-server ring offers.
fn gather_offers(inputs: &mut List<Word>, hub: &Hub, blanks: &[Word]) -> Result<(), NoMemory>
    requires servers { length blanks.now ≡ length hub.now.to_server }
    requires few { length blanks.now ≤ SIDE_CHANNELS }
    ensures { OnOk result (inputs.new ≡ inputs.old ++ joined (zip_with offer_words blanks.now (offers hub.now.to_server))) }
{
    for channel in 0..blanks.len() {
        let offer = hub.front(channel as u32);
        add_offer(inputs, offer, blanks[channel])?;
    }
    Ok(())
}

/// Adds the two words of an offer.
fn add_offer(inputs: &mut List<Word>, offer: Option<Word>, blank: Word) -> Result<(), NoMemory>
    ensures { OnOk result (inputs.new ≡ inputs.old ++ offer_words blank offer) }
{
    let valid = valid_word(&offer);
    inputs.add(valid)?;
    inputs.add(offered_word(offer, blank))?;
    Ok(())
}

/// Adds whether each to-client ring has room.
fn gather_rooms(inputs: &mut List<Word>, hub: &Hub, clients: usize) -> Result<(), NoMemory>
    requires clients { clients ≡ length hub.now.to_client }
    requires few { clients ≤ SIDE_CHANNELS }
    ensures { OnOk result (inputs.new ≡ inputs.old ++ map room_word (rooms hub.now.to_client)) }
{
    for channel in 0..clients {
        inputs.add(bit_word(hub.has_room(channel as u32)))?;
    }
    Ok(())
}
