//! Where the channels of a body stand, found by name.
ghost use Rattle.std.specs.Prelude.{◌≡◌, ◌+◌, ◌<◌, ◌^◌, ◌++◌, map, length, IfOk, OnOk};
ghost use Rattle.name_tables.specs.Keys.{label_of};
ghost use Rattle.check_rules.specs.References.{operation_sources as sources_by};
ghost use Rattle.flat_design.specs.Laying.{count_up};
ghost use Rattle.body_plans.specs.Channels.{name_of, endpoint_of, place_in, places_of};
ghost use Rattle.body_plans.specs.Plans.{source_place, places_within, endpoint_places};
ghost use Rattle.body_plans.specs.Views.{channel_of};

use crate::channel::ChannelKey;
use check_rules::keys::reference_mark;
use check_rules::operation_sources;
use design_tree::{Operation, Reference};
use esi_base::{List, NoMemory};
use name_tables::{Key, NameTable};
use std::alloc::Global;
use std::marker::Model;

/// The channels of a body, of which each is found by name. Contracts see their names, their endpoints and
/// how many they are.
#[derive(Drop)]
pub(crate) struct PlaceTable<'a> {
    names: NameTable<'a>,
    endpoints: NameTable<'a>,
    count: usize,
}

impl<'a> Model for PlaceTable<'a> {
    ghost use Rattle.body_plans.specs.Channels.{Places};
    ghost use Rattle.body_plans.specs.Views.{places_in};

    ghost Value = { Places };

    ghost view = { λ p. places_in p.names p.endpoints p.count };
}

impl<'a> PlaceTable<'a> {
    /// The places of some channels.
    pub(crate) fn of(alloc: Global, channels: &[ChannelKey<'a>]) -> Result<PlaceTable<'a>, NoMemory>
        ensures { IfOk result (λ places. places ≡ places_of (map channel_of channels.now)) }
    {
        let names = NameTable::of(alloc, names_among(alloc, channels)?)?;
        let endpoints = NameTable::of(alloc, endpoints_among(alloc, channels)?)?;
        Ok(PlaceTable {
            names,
            endpoints,
            count: count_of(channels),
        })
    }

    /// The place of the channel to which a reference is; 0 where there is none.
    pub(crate) fn source(&self, reference: &'a Reference) -> usize
        ensures { result ≡ source_place self.now reference.now }
    {
        place_of(&self.names, &reference_mark(reference).key)
    }

    /// Adds the places of the sources of an operation.
    pub(crate) fn add_taken(
        &self,
        places: &mut List<usize>,
        operation: &'a Operation,
    ) -> Result<(), NoMemory>
        ensures { OnOk result (places.new ≡ places.old ++ map (source_place self.now) (sources_by operation.now)) }
    {
        let (first, second) = operation_sources(operation);
        places.add(self.source(first))?;
        match second {
            None => Ok(()),
            Some(source) => places.add(self.source(source)),
        }
    }

    /// Adds the places of so many endpoints of one side of an instance.
    pub(crate) fn add_endpoints(
        &self,
        places: &mut List<usize>,
        endpoint: &Key<'a>,
        count: usize,
    ) -> Result<(), NoMemory>
        ensures { OnOk result (places.new ≡ places.old ++ endpoint_places self.now (label_of endpoint.now) count) }
    {
        let first = place_of(&self.endpoints, endpoint);
        add_places(places, self.count, first, count)
    }
}

/// Adds so many places from the first one on, where there are as many in all.
fn add_places(
    places: &mut List<usize>,
    all: usize,
    first: usize,
    count: usize,
) -> Result<(), NoMemory>
    ensures { OnOk result (places.new ≡ places.old ++ places_within all first count) }
{
    if all < first || all - first < count {
        Ok(())
    } else {
        add_from(places, first, count)
    }
}

#[tactic(auto, using(crate::proofs::Rows::place_more, crate::proofs::Rows::place_first, crate::proofs::Rows::place_last))]
fn add_from(places: &mut List<usize>, first: usize, count: usize) -> Result<(), NoMemory>
    requires { first + count < 2 ^ 64 }
    ensures { OnOk result (places.new ≡ places.old ++ count_up first count) }
{
    for turn in 0..count {
        places.add(first + turn)?;
    }
    Ok(())
}

/// The place at which a name stands first; 0 where it does not.
fn place_of<'a>(names: &NameTable<'a>, name: &Key<'a>) -> usize
    ensures { result ≡ place_in names.now (label_of name.now) }
{
    names.find(name).unwrap_or(0)
}

/// How many channels there are.
#[tactic(auto, using(crate::proofs::Rows::counted))]
pub(crate) fn count_of(channels: &[ChannelKey<'_>]) -> usize
    ensures { result ≡ length (map channel_of channels.now) }
{
    channels.len()
}

fn names_among<'a>(alloc: Global, channels: &[ChannelKey<'a>]) -> Result<List<Key<'a>>, NoMemory>
    ensures { IfOk result (λ keys. map label_of keys ≡ map name_of (map channel_of channels.now)) }
{
    let mut keys = List::new(alloc);
    for channel in channels {
        keys.add(channel.name)?;
    }
    Ok(keys)
}

fn endpoints_among<'a>(
    alloc: Global,
    channels: &[ChannelKey<'a>],
) -> Result<List<Key<'a>>, NoMemory>
    ensures { IfOk result (λ keys. map label_of keys ≡ map endpoint_of (map channel_of channels.now)) }
{
    let mut keys = List::new(alloc);
    for channel in channels {
        keys.add(channel.endpoint)?;
    }
    Ok(keys)
}
