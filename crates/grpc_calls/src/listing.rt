//! What ListChannels answers.
ghost use Rattle.std.specs.Prelude.{◌≡◌, ◌++◌, ◌∷◌, [], map, IfOk, OnOk};
ghost use Rattle.cosim_msgs.specs.Spelling.{IsWritableList};
ghost use Rattle.grpc_calls.specs.Listings.{desc_of, listing_of};

use cosim_msgs::{ChannelDesc, ListOfChannels};
use esi_base::{List, NoMemory};
use esi_types::{Directory, Endpoint};
use std::alloc::Global;

/// The direction of a channel to the server, and that of one to a client.
pub(crate) const TO_SERVER: u32 = 0;

const _: () = prove!(TO_SERVER == 0);

pub(crate) const TO_CLIENT: u32 = 1;

const _: () = prove!(TO_CLIENT == 1);

/// All channels of a design, those to the server first, each with its name and the text of its type. It
/// fails only when it runs out of memory.
pub fn channel_list(alloc: Global, directory: &Directory) -> Result<ListOfChannels, NoMemory>
    ensures list { IfOk result (λ list. list ≡ listing_of directory.now) }

    // It may be written.
    ensures writable { IfOk result (λ list. IsWritableList list) }
{
    listed(alloc, directory)
}

/// The same.
fn listed(alloc: Global, directory: &Directory) -> Result<ListOfChannels, NoMemory>
    ensures { IfOk result (λ list. list ≡ listing_of directory.now) }
{
    let mut channels = List::new(alloc);
    add_side(
        alloc,
        &mut channels,
        directory.to_server.as_slice(),
        TO_SERVER,
    )?;
    add_side(
        alloc,
        &mut channels,
        directory.to_client.as_slice(),
        TO_CLIENT,
    )?;
    Ok(ListOfChannels { channels })
}

/// Adds the channels of one side.
fn add_side(
    alloc: Global,
    channels: &mut List<ChannelDesc>,
    endpoints: &[Endpoint],
    dir: u32,
) -> Result<(), NoMemory>
    ensures { OnOk result (channels.new ≡ channels.old ++ map (desc_of dir) endpoints.now) }
{
    for endpoint in endpoints {
        match add_channel(alloc, channels, endpoint, dir) {
            Ok(()) => {}
            Err(NoMemory) => return Err(NoMemory),
        }
    }
    Ok(())
}

#[tactic(auto, using(esi_types::specs::GoodTypes::good_type_recovers))]
fn add_channel(
    alloc: Global,
    channels: &mut List<ChannelDesc>,
    endpoint: &Endpoint,
    dir: u32,
) -> Result<(), NoMemory>
    ensures { OnOk result (channels.new ≡ channels.old ++ desc_of dir endpoint.now ∷ []) }
{
    let name = List::from_slice(alloc, endpoint.name.as_slice())?;
    let ty = endpoint.ty.print_type(alloc)?;
    channels.add(ChannelDesc { name, dir, ty })
}
