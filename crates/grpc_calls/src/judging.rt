//! What a whole call asks for.
ghost use Rattle.std.specs.Prelude.{◌≡◌, IfOk};
ghost use Rattle.esi_base.specs.Answers.{Reads};
ghost use Rattle.std.specs.Result.{result_map_both};
ghost use Rattle.grpc_calls.specs.declared.asking.Asking.{Asking as WhatIsAsked};
ghost use Rattle.grpc_calls.specs.CallRules.{IsAsking};
ghost use Rattle.grpc_calls.specs.Classes.{procedure_of, message_of, list_of, sent_to, word_for, connected, asked_by, asked, asking_of};

use crate::asking::{Asking, CallRule};
use crate::fields::{PATH, first_value, is_grpc, is_post};
use crate::prefix::{COMPRESSED, NOT_COMPRESSED};
use crate::procedure::Procedure;
use bit_packing::from_octets;
use cosim_msgs::{AddressedMessage, ChannelDesc, CosimMessage, VoidMessage};
use esi_base::{NoMemory, Stop, Word};
use esi_types::{Directory, Endpoint, Side};
use hpack::{Header, Headers};
use std::alloc::Global;

/// What a call asks for whose stream has ended with a well-formed header list, by its headers, its
/// content and the endpoints of the design; or what it is answered, by the first rule that it breaks.
/// It fails only when it runs out of memory.
pub fn classify(
    alloc: Global,
    headers: &Headers,
    body: &[u8],
    directory: &Directory,
) -> Result<Asking, NoMemory>
    // It is what the call asks for by the rules in their order, and nothing else.
    ensures found { IfOk result (λ asking. IsAsking
        (record { headers = headers.now; body = body.now; directory = directory.now }) asking) }
    ensures only { (asking : WhatIsAsked)
        → IsAsking (record { headers = headers.now; body = body.now; directory = directory.now }) asking
        → IfOk result (λ found. found ≡ asking) }

    // The answer is that of the checks one after another.
    ensures exact { IfOk result (λ asking. asking ≡ asking_of headers.now body.now directory.now) }
{
    answered(alloc, headers, body, directory)
}

/// The same, by the checks one after another.
fn answered(
    alloc: Global,
    headers: &Headers,
    body: &[u8],
    directory: &Directory,
) -> Result<Asking, NoMemory>
    ensures { IfOk result (λ asking. asking ≡ asking_of headers.now body.now directory.now) }
{
    match asked(alloc, headers.as_slice(), body, directory) {
        Ok(asking) => Ok(asking),
        Err(Stop::Refused(rule)) => Ok(rule.answer()),
        Err(Stop::NoMemory) => Err(NoMemory),
    }
}

/// What a call asks for, or the first rule that it breaks.
#[tactic(auto, unfolding(crate::specs::Classes::asked))]
fn asked(
    alloc: Global,
    headers: &[Header],
    body: &[u8],
    directory: &Directory,
) -> Result<Asking, Stop<CallRule>>
    ensures { Reads (asked headers.now body.now directory.now) result }
{
    let procedure = procedure_of(headers).map_err(Stop::Refused)?;
    let message = message_of(body).map_err(Stop::Refused)?;
    asked_by(alloc, procedure, message, directory)
}

/// The procedure that headers ask for, where this server has it.
fn procedure_of(headers: &[Header]) -> Result<Procedure, CallRule>
    ensures { result ≡ procedure_of headers.now }
{
    if !is_post(headers) {
        return Err(CallRule::Method);
    }
    if !is_grpc(headers) {
        return Err(CallRule::ContentType);
    }
    let Some(path) = first_value(PATH, headers) else {
        return Err(CallRule::Path);
    };
    match Procedure::at(path) {
        None => Err(CallRule::Path),
        Some(Procedure::GetManifest) => Err(CallRule::Procedure),
        Some(procedure) => Ok(procedure),
    }
}

/// The one message that is the content of a call.
fn message_of(body: &[u8]) -> Result<&[u8], CallRule>
    ensures { message_of body.now ≡ result_map_both (λ message. message.now) (λ rule. rule) result }
{
    let [flag, a, b, c, d, message @ ..] = body else {
        return Err(CallRule::Prefix);
    };
    if *flag == COMPRESSED {
        return Err(CallRule::Uncompressed);
    }
    if *flag != NOT_COMPRESSED {
        return Err(CallRule::Flag);
    }
    if u32::from_be_bytes([*a, *b, *c, *d]) as usize != message.len() {
        return Err(CallRule::Length);
    }
    Ok(message)
}

/// What a procedure that was called with a message asks for.
fn asked_by(
    alloc: Global,
    procedure: Procedure,
    message: &[u8],
    directory: &Directory,
) -> Result<Asking, Stop<CallRule>>
    ensures { Reads (asked_by procedure message.now directory.now) result }
{
    match procedure {
        Procedure::GetManifest => Err(Stop::Refused(CallRule::Procedure)),
        Procedure::ListChannels => list_of(alloc, message),
        Procedure::SendToServer => match AddressedMessage::decode(alloc, message) {
            Ok(addressed) => sent_to(
                directory,
                addressed.channel_name.as_slice(),
                addressed.message.octets.as_slice(),
            )
            .map_err(Stop::Refused),
            Err(Stop::Refused(_)) => Err(Stop::Refused(CallRule::Message)),
            Err(Stop::NoMemory) => Err(Stop::NoMemory),
        },
        Procedure::ConnectToClientChannel => match ChannelDesc::decode(alloc, message) {
            Ok(desc) => connected(directory, desc.name.as_slice()).map_err(Stop::Refused),
            Err(Stop::Refused(_)) => Err(Stop::Refused(CallRule::Message)),
            Err(Stop::NoMemory) => Err(Stop::NoMemory),
        },
    }
}

/// What ListChannels asks for.
fn list_of(alloc: Global, message: &[u8]) -> Result<Asking, Stop<CallRule>>
    ensures { Reads (list_of message.now) result }
{
    match VoidMessage::decode(alloc, message) {
        Ok(_) => Ok(Asking::Listing),
        Err(Stop::Refused(_)) => Err(Stop::Refused(CallRule::Message)),
        Err(Stop::NoMemory) => Err(Stop::NoMemory),
    }
}

/// What octets for the channel of a name ask for.
fn sent_to(directory: &Directory, name: &[u8], octets: &[u8]) -> Result<Asking, CallRule>
    ensures { result ≡ sent_to directory.now name.now octets.now }
{
    match directory.find(name) {
        None => Err(CallRule::Name),
        Some((Side::ToClient, _)) => Err(CallRule::Side),
        Some((Side::ToServer, channel)) => {
            let Some(endpoint) = directory.to_server.get(channel as usize) else {
                return Err(CallRule::Name);
            };
            let word = word_for(endpoint, octets)?;
            Ok(Asking::Put { channel, word })
        }
    }
}

/// The value of an endpoint's type whose octets these are.
#[tactic(auto, using(esi_types::specs::GoodTypes::good_type_recovers))]
fn word_for(endpoint: &Endpoint, octets: &[u8]) -> Result<Word, CallRule>
    ensures { result ≡ word_for endpoint.now octets.now }
{
    match from_octets(octets, &endpoint.ty) {
        Ok(word) => Ok(word),
        Err(_) => Err(CallRule::Value),
    }
}

/// What a name of a channel asks for that is to be attached.
fn connected(directory: &Directory, name: &[u8]) -> Result<Asking, CallRule>
    ensures { result ≡ connected directory.now name.now }
{
    match directory.find(name) {
        None => Err(CallRule::Name),
        Some((Side::ToServer, _)) => Err(CallRule::Side),
        Some((Side::ToClient, channel)) => Ok(Asking::Attach { channel }),
    }
}
