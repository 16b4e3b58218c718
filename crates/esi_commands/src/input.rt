//! The checked input of a simulation: what a design and a stimulus ask for, and which of them is
//! refused.
ghost use Rattle.std.specs.Prelude.{◌≡◌, ◌≤◌, ◌<◌, All, IfOk};
ghost use Rattle.esi_base.specs.Answers.{Reads, IfRefused};
ghost use Rattle.cycle_rules.specs.Simulation.{cycles_in};
ghost use Rattle.channel_types.specs.Types.{IsGoodType};
ghost use Rattle.esi_text.specs.TypesIn.{types_in};
ghost use Rattle.channel_typing.specs.Misfits.{misfits};
ghost use Rattle.check_rules.specs.Checks.{Accepts, checks};
ghost use Rattle.esi_commands.specs.Inputs.{pipe_of, pipe_in, no_pipe, actions_of_text, action_of, actions_of, word_of, input_of, stimulus_refusal};
ghost use Rattle.stimulus_text.specs.declared.limits.TheConstants.{STIMULUS_CYCLES};

use crate::simulation_rule::SimulationRule;
use bit_packing::from_octets;
use bundle_check::check;
use command_runs::{WorkStop, stop_in_file};
use cycle_rules::Action;
use design_tree::DesignTree;
use esi_base::{List, Place, Refusal, Stop, Word};
use esi_text::{Step, StimulusRule, read_design, read_stimulus};
use esi_types::EsiType;
use std::alloc::Global;

/// The endpoint at which a pipe takes values.
const ENTRANCE: &[u8] = b"in";

/// The endpoint at which a pipe hands values out.
const EXIT: &[u8] = b"out";

/// What a simulation is given, as `check_input` gives it.
#[derive(Debug, Drop)]
pub struct Input {
    /// How many stages the pipe has.
    pub stages: u32,
    /// What is done to the pipe, in order.
    pub steps: List<Action>,
}

/// Checks the design, and then the stimulus. They are the files that the first and the second word
/// after the command name.
pub fn check_input(alloc: Global, design: &[u8], stimulus: &[u8]) -> Result<Input, WorkStop>
    ensures input { Reads (input_of design.now stimulus.now) result }
    ensures file { IfRefused result (λ refused. refused.word < 2) }
    ensures cycles { IfOk result (λ input. cycles_in input.steps ≤ STIMULUS_CYCLES) }
{
    let (ty, stages) = match check_design(alloc, design) {
        Ok(pipe) => pipe,
        Err(stop) => return Err(stop_in_file(0, stop)),
    };
    match check_stimulus(alloc, &ty, stimulus) {
        Ok(steps) => Ok(Input { stages, steps }),
        Err(stop) => Err(stop_in_file(1, stop)),
    }
}

/// The type that the design's pipe carries, and how many stages it has. The text is read, and its design is
/// checked first.
#[tactic(auto, using(crate::proofs::InputLemmas::pipe_checked, crate::proofs::InputLemmas::not_checked))]
fn check_design(alloc: Global, text: &[u8]) -> Result<(EsiType, u32), Stop>
    ensures reads { Reads (pipe_of text.now) result }
    ensures good { IfOk result (λ pipe. IsGoodType pipe.0) }
{
    let design = read_design(alloc, text)?;
    let checked = check(alloc, design)?;
    pipe_in(checked.design.tree)
}

/// The type that a pipe carries and how many stages it has, of a design that breaks no rule. One that is
/// no pipe is refused.
fn pipe_in(tree: DesignTree) -> Result<(EsiType, u32), Stop>
    requires kept { Accepts (checks misfits tree) }
    requires types { All IsGoodType (types_in tree) }
    ensures reads { Reads (pipe_in tree) result }
    ensures good { IfOk result (λ pipe. IsGoodType pipe.0) }
{
    match tree {
        DesignTree::Pipe(pipe) => {
            let stages = pipe.stages.value as u32;
            Ok((pipe.ty, stages))
        }
        DesignTree::Modules {
            declarations: _declarations,
            top: _top,
        } => Err(no_pipe()),
    }
}

/// The refusal of a design that is no pipe.
fn no_pipe() -> Stop
    ensures { result ≡ Stop.Refused no_pipe }
{
    SimulationRule::NoPipe.at(Place { line: 1, column: 1 })
}

/// What the stimulus does to a pipe of values of the type.
fn check_stimulus(alloc: Global, ty: &EsiType, text: &[u8]) -> Result<List<Action>, Stop>
    requires { IsGoodType ty.now }
    ensures reads { Reads (actions_of_text ty.now text.now) result }
    ensures cycles { IfOk result (λ steps. cycles_in steps ≤ STIMULUS_CYCLES) }
{
    let stimulus = read_stimulus(alloc, text)?;
    actions(alloc, ty, stimulus.steps.as_slice())
}

/// What all steps of a stimulus do to a pipe of values of the type, or the refusal of the first of them
/// that is refused: a name other than `in` of a put or other than `out` of a switch, or octets that are
/// no value of the type.
fn actions(alloc: Global, ty: &EsiType, steps: &[Step]) -> Result<List<Action>, Stop>
    requires { IsGoodType ty.now }
    ensures { Reads (actions_of ty.now steps.now) result }
{
    let mut actions = List::new(alloc);
    for step in steps {
        let action = action_of_step(ty, step)?;
        actions.add(action)?;
    }
    Ok(actions)
}

fn action_of_step(ty: &EsiType, step: &Step) -> Result<Action, Stop>
    requires { IsGoodType ty.now }
    ensures { Reads (action_of ty.now step.now) result }
{
    match step {
        Step::Put {
            name,
            octets,
            place,
            octets_place,
        } => {
            if name.as_slice() != ENTRANCE {
                return Err(refuse(StimulusRule::UnknownEndpoint, *place));
            }
            let word = word(octets.as_slice(), ty, *octets_place)?;
            Ok(Action::Put { channel: 0, word })
        }
        Step::Ready { name, on, place } => {
            if name.as_slice() != EXIT {
                return Err(refuse(StimulusRule::UnknownEndpoint, *place));
            }
            Ok(Action::Ready {
                channel: 0,
                on: *on,
            })
        }
        Step::Run { cycles } => Ok(Action::Run { cycles: *cycles }),
    }
}

/// A refusal by a rule of the stimulus that is checked with the design.
fn refuse(rule: StimulusRule, place: Place) -> Stop
    ensures { result ≡ Stop.Refused (stimulus_refusal rule place) }
{
    Stop::Refused(Refusal {
        number: rule.number(),
        place,
    })
}

/// The word of octets that are a value of the type.
fn word(octets: &[u8], ty: &EsiType, place: Place) -> Result<Word, Stop>
    requires { IsGoodType ty.now }
    ensures { Reads (word_of ty.now octets.now place) result }
{
    match from_octets(octets, ty) {
        Ok(word) => Ok(word),
        Err(_) => Err(refuse(StimulusRule::NoValue, place)),
    }
}
