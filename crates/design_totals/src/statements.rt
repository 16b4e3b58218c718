//! What the statements of a body have.
ghost use Rattle.std.specs.Prelude.{◌≡◌, option_copied};
ghost use Rattle.check_rules.specs.Totals.{operation_total};
ghost use Rattle.design_scopes.specs.Resolving.{scope_in};
ghost use Rattle.design_totals.specs.Capped.{capped_totals, members_capped, bundle_capped, found_totals, statement_capped, body_capped};

use crate::capped::{CappedTotals, elements, endpoint, nothing_yet, together};
use check_rules::keys::name_key;
use design_scopes::body::Body;
use design_scopes::bundles::BundleNames;
use design_scopes::declared::Declared;
use design_scopes::resolving::find_requested;
use design_tree::{Member, Name, Operation, Statement};
use name_tables::NameTable;

/// What a body has, where the totals of the modules before it are known.
pub fn body_totals<'a>(
    declared: &Declared<'a>,
    modules: &NameTable<'a>,
    known: &[CappedTotals],
    body: &Body<'a>,
) -> CappedTotals
    ensures { result ≡ body_capped declared.now modules.now known.now body.now }
{
    let mut totals = nothing_yet();
    for statement in body.statements.as_slice() {
        let more = statement_totals(declared, modules, known, body, statement);
        totals = together(totals, more);
    }
    totals
}

/// What a statement has.
fn statement_totals<'a>(
    declared: &Declared<'a>,
    modules: &NameTable<'a>,
    known: &[CappedTotals],
    body: &Body<'a>,
    statement: &'a Statement,
) -> CappedTotals
    ensures { result ≡ statement_capped (scope_in declared.now body.now) modules.now known.now statement.now }
{
    let _before = body.before;
    match statement {
        Statement::Request { service, port, .. } => together(
            elements(1),
            bundle_totals(find_requested(declared, service, port)),
        ),
        Statement::Instance { module: source, .. } => {
            together(elements(1), module_totals(modules, known, source))
        }
        Statement::Channels { operation, .. } => operation_totals(operation),
        Statement::Drive { .. } => nothing_yet(),
    }
}

/// What an operation has: a buffer is as many elements as it has stages, and every other one is one.
fn operation_totals(operation: &Operation) -> CappedTotals
    ensures { result ≡ capped_totals (operation_total operation.now) }
{
    match operation {
        Operation::Buffer { stages, .. } => elements(stages.value),
        Operation::Stage(_)
        | Operation::Fork(_)
        | Operation::AsFifo(_)
        | Operation::AsVr(_)
        | Operation::Fifo { .. }
        | Operation::Join { .. }
        | Operation::Map { .. }
        | Operation::Scan { .. } => elements(1),
    }
}

/// What the members of a bundle have, if it was found.
fn bundle_totals(bundle: Option<&BundleNames<'_>>) -> CappedTotals
    ensures { result ≡ bundle_capped (option_copied bundle.entry) }
{
    match bundle {
        None => nothing_yet(),
        Some(found) => members_totals(found.members()),
    }
}

/// What some members have.
fn members_totals(members: &[Member]) -> CappedTotals
    ensures { result ≡ members_capped members.now }
{
    let mut totals = nothing_yet();
    for member in members {
        let more = endpoint(member);
        totals = together(totals, more);
    }
    totals
}

/// What a module has, if it is among those whose totals are known.
fn module_totals<'a>(
    modules: &NameTable<'a>,
    known: &[CappedTotals],
    name: &'a Name,
) -> CappedTotals
    ensures { result ≡ found_totals modules.now known.now name.now }
{
    match modules.find(&name_key(name)) {
        None => nothing_yet(),
        Some(number) => match known.get(number) {
            None => nothing_yet(),
            Some(totals) => *totals,
        },
    }
}
