//! The weights of channels.
ghost use Rattle.std.specs.Prelude.{◌≡◌, ◌+◌, ◌≤◌, IfOk, length, get_or, replicate};
ghost use Rattle.std.specs.Option.{option_copied};
ghost use Rattle.element_laws.specs.Elements.{output_count};
ghost use Rattle.element_rows.specs.Flat.{channel_count, sum_below};
ghost use Rattle.element_load.specs.Load.{input_weight};
ghost use Rattle.design_flow.specs.Elements.{element_at, row_of};
ghost use Rattle.design_flow.specs.Weights.{capped, put_all, AreWeightsOf, greatest};

use crate::part_at::part_at;
use esi_base::{List, NoMemory};
use flat_design::Flat;
use netlist::Part;
use std::alloc::Global;

/// The weight of a channel at a to-client endpoint.
pub const CLIENT_WEIGHT: u32 = 2;

/// The weight of each channel of a flat list, the greatest number of 32 bits where it is greater: 2 at a to-client endpoint;
/// before a storage element one more than behind it; before a fork the sum of one more than each branch's; before another
/// element that behind it. `parts` is the table of the design's parts, `clients` has the channels at to-client endpoints.
pub fn channel_weights(
    alloc: Global,
    parts: &[Part],
    servers: usize,
    flat: &Flat,
    clients: &[usize],
) -> Result<List<u32>, NoMemory>
    requires counted { channel_count servers (row_of parts.now flat.now) ≡ length flat.now.widths }
    ensures { IfOk result (AreWeightsOf servers (row_of parts.now flat.now) clients.now) }
{
    let channels = flat.widths.len();
    let mut weights = zeros(alloc, channels)?;
    put_each(&mut weights, clients, CLIENT_WEIGHT);
    let elements = flat.elements.as_slice();
    let mut made = channels;
    for at in (0..elements.len()).rev() {
        let element = &elements[at];
        let part = part_at(parts, element);
        made -= output_count(part);
        let weight = input_weight(part, weights.as_slice(), made);
        put_each(&mut weights, element.sources.as_slice(), weight);
    }
    Ok(weights)
}

/// So many zeros.
fn zeros(alloc: Global, count: usize) -> Result<List<u32>, NoMemory>
    ensures { IfOk result (λ zeros. zeros ≡ replicate count 0) }
{
    let mut zeros = List::new(alloc);
    for _number in 0..count {
        zeros.add(0)?;
    }
    Ok(zeros)
}

/// Puts a weight at each of these channels that there is.
fn put_each(weights: &mut List<u32>, channels: &[usize], weight: u32)
    ensures { weights.new ≡ put_all weights.old channels.now weight }
{
    for channel in channels {
        if *channel < weights.len() {
            weights.set(*channel, weight);
        }
    }
}

/// How many channels an element of a part makes; one where the table has no such part.
fn output_count(part: Option<&Part>) -> usize
    ensures { result ≡ output_count (element_at (option_copied part.entry)) }
{
    match part {
        Some(Part::Fork { branches }) => *branches as usize,
        Some(_) | None => 1,
    }
}

/// The weight of the channel that an element takes, whose first output is channel `made`.
fn input_weight(part: Option<&Part>, weights: &[u32], made: usize) -> u32
    requires { made + output_count (element_at (option_copied part)) ≤ length weights.now }
    ensures { result ≡ capped (input_weight (element_at (option_copied part.entry)) (λ k. get_or weights.now (made + k) 0)) }
{
    match part {
        Some(Part::Stage { .. } | Part::Fifo { .. }) => weights[made].saturating_add(1),
        Some(Part::Fork { branches }) => branches_weight(weights, made, *branches),
        Some(Part::Join) => 0,
        Some(Part::AsFifo | Part::AsVr | Part::Map { .. } | Part::Scan { .. }) | None => {
            weights[made]
        }
    }
}

/// The sum of one more than the weight of each branch.
fn branches_weight(weights: &[u32], made: usize, branches: u32) -> u32
    requires { made + branches ≤ length weights.now }
    ensures { result ≡ capped (sum_below (λ k. 1 + get_or weights.now (made + k) 0) branches) }
{
    let mut sum: u32 = 0;
    for branch in 0..branches {
        let weight = weights[made + branch as usize];
        sum = sum.saturating_add(weight).saturating_add(1);
    }
    sum
}

/// The greatest of some weights, 0 where there is none.
#[tactic(auto, using(crate::proofs::WeightSteps::greatest_next, crate::proofs::WeightSteps::greatest_same))]
pub fn greatest_weight(weights: &[u32]) -> u32
    ensures { result ≡ greatest weights.now }
{
    let mut greatest = 0;
    for weight in weights {
        if greatest < *weight {
            greatest = *weight;
        }
    }
    greatest
}
