//! Laying out plans: an instance stands where its statement stands, and its elements in their own order.
ghost use Rattle.std.specs.Prelude.{◌≡◌, ◌++◌, IfOk, OnOk, get_or, length};
ghost use Rattle.flat_design.specs.Laying.{chosen, count_from, count_up, laid, stepped, steps_laid, made_of, flat_of, flattened};

use crate::element::{Element, Flat};
use crate::plan::{Plan, Step};
use esi_base::{List, NoMemory};
use std::alloc::Global;

/// The flat list of a design, whose top is the plan of this number, and the channels that it hands out.
/// `widths` has the width of each channel that the top is given. A body that stands in itself, or that
/// there is not, has no elements.
pub fn flat_design(
    alloc: Global,
    plans: &[Plan],
    top: usize,
    widths: List<u32>,
) -> Result<(Flat, List<usize>), NoMemory>
    ensures { IfOk result (λ r. r ≡ flattened plans.now top widths) }
{
    let given = numbers(alloc, widths.len())?;
    let mut flat = Flat {
        elements: List::new(alloc),
        widths,
    };
    let outs = lay(alloc, plans, plans.len(), top, given, &mut flat)?;
    Ok((flat, outs))
}

/// The numbers below a count.
fn numbers(alloc: Global, count: usize) -> Result<List<usize>, NoMemory>
    ensures { IfOk result (λ numbers. numbers ≡ count_up 0 count) }
{
    let mut numbers = List::new(alloc);
    for number in 0..count {
        numbers.add(number)?;
    }
    Ok(numbers)
}

/// Lays out a body that is given these channels; only bodies up to so many levels deep are laid out.
/// Hands out its channels.
#[cycle(lay)]
#[tactic(auto, unfolding(crate::specs::Laying::laid))]
fn lay(
    alloc: Global,
    plans: &[Plan],
    levels: usize,
    body: usize,
    given: List<usize>,
    flat: &mut Flat,
) -> Result<List<usize>, NoMemory>
    ensures { IfOk result (λ outs. (outs, flat.new) ≡ laid plans.now levels body given flat.old) }
{
    if levels == 0 {
        return Ok(List::new(alloc));
    }
    let Some(plan) = plans.get(body) else {
        return Ok(List::new(alloc));
    };
    let made = lay_steps(alloc, plans, levels - 1, plan.steps.as_slice(), given, flat)?;
    choose(alloc, made.as_slice(), plan.outs.as_slice())
}

/// Lays out steps after those that made the channels so far. Hands out all channels of the body.
#[cycle(lay)]
fn lay_steps(
    alloc: Global,
    plans: &[Plan],
    levels: usize,
    steps: &[Step],
    given: List<usize>,
    flat: &mut Flat,
) -> Result<List<usize>, NoMemory>
    ensures { IfOk result (λ made. (made, flat.new) ≡ steps_laid (laid plans.now levels) steps.now given flat.old) }
{
    let mut made = given;
    for step in steps {
        lay_step(alloc, plans, levels, step, &mut made, flat)?;
    }
    Ok(made)
}

/// Lays out a step.
#[cycle(lay)]
fn lay_step(
    alloc: Global,
    plans: &[Plan],
    levels: usize,
    step: &Step,
    made: &mut List<usize>,
    flat: &mut Flat,
) -> Result<(), NoMemory>
    ensures { OnOk result ((made.new, flat.new) ≡ stepped (laid plans.now levels) step.now made.old flat.old) }
{
    match step {
        Step::Element {
            part,
            sources,
            widths,
        } => {
            add_element(
                alloc,
                *part,
                sources.as_slice(),
                widths.as_slice(),
                made,
                flat,
            )
        }
        Step::Instance { body, sources } => {
            let given = choose(alloc, made.as_slice(), sources.as_slice())?;
            let outs = lay(alloc, plans, levels, *body, given, flat)?;
            made.push_all(outs.as_slice())?;
            Ok(())
        }
    }
}

/// Adds an element, which makes the next channels.
fn add_element(
    alloc: Global,
    part: usize,
    sources: &[usize],
    widths: &[u32],
    made: &mut List<usize>,
    flat: &mut Flat,
) -> Result<(), NoMemory>
    ensures made { OnOk result (made.new ≡ made_of made.old flat.old widths.now) }
    ensures flat { OnOk result (flat.new ≡ flat_of part sources.now widths.now made.old flat.old) }
{
    let sources = choose(alloc, made.as_slice(), sources)?;
    let sinks = make_channels(alloc, widths, &mut flat.widths)?;
    made.push_all(sinks.as_slice())?;
    flat.elements.add(Element {
        part,
        sources,
        sinks,
    })
}

/// The channels at some places; 0 where there is none.
fn choose(alloc: Global, made: &[usize], places: &[usize]) -> Result<List<usize>, NoMemory>
    ensures { IfOk result (λ channels. channels ≡ chosen made.now places.now) }
{
    let channels = places.iter().map(|place| channel_at(made, *place));
    Ok(List::from_vec(channels.collect(alloc)?))
}

/// The channel at a place; 0 where there is none.
fn channel_at(made: &[usize], place: usize) -> usize
    ensures { result ≡ get_or made.now place 0 }
{
    made.get(place).copied().unwrap_or(0)
}

/// Makes a channel of each width, after those that there are.
fn make_channels(
    alloc: Global,
    widths: &[u32],
    channels: &mut List<u32>,
) -> Result<List<usize>, NoMemory>
    ensures made { IfOk result (λ made. made ≡ count_from (length channels.old) widths.now) }
    ensures widths { OnOk result (channels.new ≡ channels.old ++ widths.now) }
{
    let mut made = List::new(alloc);
    for width in widths {
        made.add(channels.len())?;
        channels.add(*width)?;
    }
    Ok(made)
}
