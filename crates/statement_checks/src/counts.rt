//! Numbers of stages, depths and counts of channels that are out of their range.
ghost use Rattle.std.specs.Prelude.{◌≡◌, flat_map};
ghost use Rattle.name_tables.specs.FirstPlaces.{least, least_from};
ghost use Rattle.check_rules.specs.Counts.{outside, statement_counts, operation_counts};
ghost use Rattle.statement_checks.specs.Counted.{body_counts};

use check_rules::{MAX_BRANCHES, MAX_DEPTH, MAX_STAGES, MIN_BRANCHES, MIN_DEPTH, MIN_STAGES};
use design_scopes::body::Body;
use design_tree::{Number, Operation, Statement};
use name_tables::earlier;

/// The least place at which a count is out of its range. It takes no memory.
#[tactic(auto, using(crate::specs::Walks::least_more))]
pub fn first_count(bodies: &[Body<'_>]) -> Option<usize>
    ensures { result ≡ least (flat_map body_counts bodies.now) }
{
    let mut first = None;
    for body in bodies {
        first = body_count(first, body);
    }
    first
}

/// The least such place in a body, or the one found before.
#[tactic(auto, using(crate::specs::Walks::least_more))]
fn body_count(first: Option<usize>, body: &Body<'_>) -> Option<usize>
    ensures { result ≡ least_from first (body_counts body.now) }
{
    let mut place = first;
    for statement in body.statements.as_slice() {
        place = statement_count(place, statement);
    }
    place
}

/// The least such place in a statement, or the one found before.
fn statement_count(first: Option<usize>, statement: &Statement) -> Option<usize>
    ensures { result ≡ least_from first (statement_counts statement.now) }
{
    match statement {
        Statement::Request { .. } | Statement::Instance { .. } | Statement::Drive { .. } => first,
        Statement::Channels {
            at,
            names,
            operation,
        } => operation_count(first, *at, names.len() as u128, operation),
    }
}

/// The least such place in an operation of a statement that makes some channels, or the one found before.
fn operation_count(
    first: Option<usize>,
    at: usize,
    channels: u128,
    operation: &Operation,
) -> Option<usize>
    ensures { result ≡ least_from first (operation_counts at channels operation.now) }
{
    match operation {
        Operation::Buffer { stages, .. } => one_channel(
            number_outside(first, MIN_STAGES, MAX_STAGES, *stages),
            channels,
            at,
        ),
        Operation::Fifo { depth, .. } => one_channel(
            number_outside(first, MIN_DEPTH, MAX_DEPTH, *depth),
            channels,
            at,
        ),
        Operation::Fork(_) => count_outside(
            first,
            MIN_BRANCHES as u128,
            MAX_BRANCHES as u128,
            channels,
            at,
        ),
        Operation::Stage(_)
        | Operation::AsFifo(_)
        | Operation::AsVr(_)
        | Operation::Join { .. }
        | Operation::Map { .. }
        | Operation::Scan { .. } => one_channel(first, channels, at),
    }
}

/// With the place of an operation that makes one channel, if it makes another number of them.
fn one_channel(first: Option<usize>, channels: u128, at: usize) -> Option<usize>
    ensures { result ≡ least_from first (outside 1 1 channels at) }
{
    count_outside(first, 1, 1, channels, at)
}

/// With the place of a number of the text, if it is out of its range.
fn number_outside(first: Option<usize>, low: u128, high: u128, number: Number) -> Option<usize>
    ensures { result ≡ least_from first (outside low high number.value number.at) }
{
    count_outside(first, low, high, number.value, number.at)
}

/// With the place of a count, if it is out of its range.
fn count_outside(
    first: Option<usize>,
    low: u128,
    high: u128,
    count: u128,
    at: usize,
) -> Option<usize>
    ensures { result ≡ least_from first (outside low high count at) }
{
    if count < low || high < count {
        earlier(first, at)
    } else {
        first
    }
}
