//! The walk over the instances of a design.
ghost use Rattle.std.specs.Prelude.{◌≡◌, ◌++◌, ◌∷◌, [], map, take, IfOk, OnOk};
ghost use Rattle.check_rules.specs.Scopes.{statement_in};
ghost use Rattle.reached_requests.specs.Requests.{requests_of, known_of, body_requests, requests_by, requests_in, inside, id_text};
ghost use Rattle.reached_requests.specs.Modules.{referred, seen};

use crate::ids::{id_behind, prefix_behind};
use crate::modules::Modules;
use crate::request::ReachedRequest;
use design_tree::{ApplicationId, Declaration, Name, Statement, Top, TopItem};
use esi_base::{List, NoMemory};
use std::alloc::Global;

/// The requests that are reached from the top: those of its body in the text's order, and in the place of each
/// instance those of its module. An instance of a module that does not stand before it reaches nothing.
///
/// The walk goes through each instance that is reached, of which there may be as many as a power of two of what
/// stands in the text; so ask for the requests of designs whose size was checked.
pub fn reached_requests<'a>(
    alloc: Global,
    declarations: &'a [Declaration],
    top: &'a Top,
) -> Result<List<ReachedRequest<'a>>, NoMemory>
    ensures { IfOk result (λ requests. map seen requests ≡ requests_of declarations.now top.now) }
{
    let modules = Modules::of(alloc, declarations)?;
    let levels = modules.sources.len();
    let mut requests = List::new(alloc);
    for item in top.body.as_slice() {
        add_item(alloc, &modules, levels, item, &mut requests)?;
    }
    Ok(requests)
}

/// Adds the requests that are reached from an item of the top.
#[tactic(auto, using(crate::proofs::KnownLaws::one_statement))]
fn add_item<'a>(
    alloc: Global,
    modules: &Modules<'a>,
    levels: usize,
    item: &'a TopItem,
    requests: &mut List<ReachedRequest<'a>>,
) -> Result<(), NoMemory>
    ensures { OnOk result (map seen requests.new ≡ map seen requests.old ++ body_requests (take levels (known_of (referred modules.now.sources))) (statement_in item.now)) }
{
    match item {
        TopItem::Statement(statement) => {
            add_statement(alloc, modules, levels, &[], statement, requests)
        }
        TopItem::Implement(_) => Ok(()),
    }
}

/// Adds the requests that are reached from statements of the body of a module before which so many others
/// stand, whose ids stand behind a prefix.
#[cycle(walk)]
fn add_body<'a>(
    alloc: Global,
    modules: &Modules<'a>,
    levels: usize,
    prefix: &[u8],
    statements: &'a [Statement],
    requests: &mut List<ReachedRequest<'a>>,
) -> Result<(), NoMemory>
    ensures { OnOk result (map seen requests.new ≡ map seen requests.old ++ map (inside prefix.now) (body_requests (take levels (known_of (referred modules.now.sources))) statements.now)) }
{
    for statement in statements {
        add_statement(alloc, modules, levels, prefix, statement, requests)?;
    }
    Ok(())
}

/// Adds the requests that are reached from a statement.
#[cycle(walk)]
fn add_statement<'a>(
    alloc: Global,
    modules: &Modules<'a>,
    levels: usize,
    prefix: &[u8],
    statement: &'a Statement,
    requests: &mut List<ReachedRequest<'a>>,
) -> Result<(), NoMemory>
    ensures { OnOk result (map seen requests.new ≡ map seen requests.old ++ map (inside prefix.now) (requests_by (take levels (known_of (referred modules.now.sources))) statement.now)) }
{
    match statement {
        Statement::Request {
            at,
            service,
            port,
            id,
        } => {
            let id = id_behind(alloc, prefix, id)?;
            requests.add(ReachedRequest {
                id,
                service,
                port,
                at: *at,
            })
        }
        Statement::Instance {
            id,
            module: source,
            ..
        } => add_instance(alloc, modules, levels, prefix, id, source, requests),
        Statement::Channels { .. } | Statement::Drive { .. } => Ok(()),
    }
}

/// Adds the requests that are reached from an instance.
#[cycle(walk)]
fn add_instance<'a>(
    alloc: Global,
    modules: &Modules<'a>,
    levels: usize,
    prefix: &[u8],
    id: &ApplicationId,
    source: &'a Name,
    requests: &mut List<ReachedRequest<'a>>,
) -> Result<(), NoMemory>
    ensures { OnOk result (map seen requests.new ≡ map seen requests.old ++ map (inside prefix.now) (map (inside (id_text id.now ++ 46 ∷ [])) (requests_in source.now (take levels (known_of (referred modules.now.sources)))))) }
{
    match modules.find(source, levels) {
        None => Ok(()),
        Some((number, found)) => {
            let prefix = prefix_behind(alloc, prefix, id)?;
            add_body(
                alloc,
                modules,
                number,
                prefix.as_slice(),
                found.body.as_slice(),
                requests,
            )
        }
    }
}
