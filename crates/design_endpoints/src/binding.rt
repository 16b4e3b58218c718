//! The endpoints of a design, and the rules on its requests.
ghost use Rattle.std.specs.Prelude.{◌≡◌, All, IfOk, map, flat_map};
ghost use Rattle.esi_base.specs.Answers.{AnswersAs};
ghost use Rattle.check_rules.specs.Scopes.{bundles_of};
ghost use Rattle.reached_requests.specs.Modules.{seen};
ghost use Rattle.design_endpoints.specs.Endpoints.{members_asked, ends_asked, named_in, ends_in, has_good_types, has_good_type};
ghost use Rattle.design_endpoints.specs.BindRules.{breaks as breaks_by, implement_labels, ends_bound, bound, kept};

use crate::bind_rule::{BindBreak, BindRule};
use crate::breaking::{has_long_name, has_long_type};
use crate::naming::add_members;
use check_rules::keys::name_key;
use design_scopes::declared::Declared;
use design_scopes::resolving::find_requested;
use design_tree::{Declaration, Direction, Member, Top, TopItem};
use esi_base::{List, NoMemory, Stop};
use esi_types::Endpoint;
use name_tables::NameTable;
use reached_requests::{ReachedRequest, reached_requests};
use std::alloc::Global;

/// The endpoints of a design, in the order of its requests and of the members of their bundles.
#[derive(Debug, Drop)]
pub struct Ends {
    /// Those to the server.
    pub to_server: List<Endpoint>,
    /// Those to the client.
    pub to_client: List<Endpoint>,
}

/// What requests are looked up in.
#[derive(Drop)]
struct Lookup<'a> {
    declared: Declared<'a>,
    implemented: NameTable<'a>,
}

/// The endpoints of a design whose top this is, each named by the application ids down to its request and the name of its
/// member. It is refused by 401 to 403, in this order, each at the first request that is reached and breaks it. The types of
/// members have to be good. The walk goes through each instance that is reached, as that of `reached_requests`.
pub fn design_endpoints(
    alloc: Global,
    declarations: &[Declaration],
    top: &Top,
) -> Result<Ends, Stop<BindBreak>>
    requires types { All has_good_types (bundles_of declarations.now) }
    ensures { AnswersAs ends_in (ends_bound declarations.now top.now) result }
{
    let lookup = Lookup {
        declared: Declared::of(alloc, declarations)?,
        implemented: implemented(alloc, top)?,
    };
    let requests = reached_requests(alloc, declarations, top)?;
    bind(alloc, &lookup, requests.as_slice())
}

/// The endpoints of requests, which are refused by the first of the three rules that one of them breaks.
#[tactic(auto, unfolding(crate::specs::BindRules::bound))]
fn bind<'a>(
    alloc: Global,
    lookup: &Lookup<'a>,
    requests: &[ReachedRequest<'a>],
) -> Result<Ends, Stop<BindBreak>>
    requires types { All has_good_types lookup.now.declared.bundles }
    ensures { AnswersAs ends_in (bound lookup.now.declared.bundles lookup.now.declared.services lookup.now.implemented (map seen requests.now)) result }
{
    keep(alloc, BindRule::NotImplemented, lookup, requests)?;
    keep(alloc, BindRule::NameTooLong, lookup, requests)?;
    keep(alloc, BindRule::TypeTooLong, lookup, requests)?;
    let to_server = collect(alloc, Direction::ToHardware, &lookup.declared, requests)?;
    let to_client = collect(alloc, Direction::FromHardware, &lookup.declared, requests)?;
    Ok(Ends {
        to_server,
        to_client,
    })
}

/// The names of the services that the top implements.
fn implemented<'a>(alloc: Global, top: &'a Top) -> Result<NameTable<'a>, NoMemory>
    ensures { IfOk result (λ names. names ≡ implement_labels top.now) }
{
    let mut names = List::new(alloc);
    for item in top.body.as_slice() {
        if let TopItem::Implement(service) = item {
            names.add(name_key(service))?;
        }
    }
    NameTable::of(alloc, names)
}

/// Refuses requests of which one breaks the rule, at the first that does.
fn keep<'a>(
    alloc: Global,
    rule: BindRule,
    lookup: &Lookup<'a>,
    requests: &[ReachedRequest<'a>],
) -> Result<(), Stop<BindBreak>>
    requires types { All has_good_types lookup.now.declared.bundles }
    ensures { AnswersAs (λ done. done) (kept lookup.now.declared.bundles lookup.now.declared.services lookup.now.implemented (map seen requests.now) rule) result }
{
    for request in requests {
        if breaks(alloc, rule, lookup, request)? {
            return Err(Stop::Refused(BindBreak {
                rule,
                at: request.at,
            }));
        }
    }
    Ok(())
}

/// Whether a request breaks the rule.
fn breaks<'a>(
    alloc: Global,
    rule: BindRule,
    lookup: &Lookup<'a>,
    request: &ReachedRequest<'a>,
) -> Result<bool, NoMemory>
    requires types { All has_good_types lookup.now.declared.bundles }
    ensures { IfOk result (λ broken. broken ≡ breaks_by lookup.now.declared.bundles lookup.now.declared.services lookup.now.implemented rule (seen request.now)) }
{
    let members = members_of(&lookup.declared, request);
    match rule {
        BindRule::NotImplemented => Ok(!lookup.implemented.contains(&name_key(request.service))),
        BindRule::NameTooLong => Ok(has_long_name(request.id.as_slice(), members)),
        BindRule::TypeTooLong => has_long_type(alloc, members),
    }
}

/// The endpoints of all requests that go one way.
fn collect<'a>(
    alloc: Global,
    way: Direction,
    declared: &Declared<'a>,
    requests: &[ReachedRequest<'a>],
) -> Result<List<Endpoint>, NoMemory>
    requires types { All has_good_types declared.now.bundles }
    ensures { IfOk result (λ ends. map named_in ends ≡ flat_map (ends_asked way declared.now.bundles declared.now.services) (map seen requests.now)) }
{
    let mut ends = List::new(alloc);
    for request in requests {
        let members = members_of(declared, request);
        add_members(alloc, way, request.id.as_slice(), members, &mut ends)?;
    }
    Ok(ends)
}

/// The members of the bundle that a request gives, none where there is no such bundle.
fn members_of<'a>(declared: &Declared<'a>, request: &ReachedRequest<'a>) -> &'a [Member]
    requires types { All has_good_types declared.now.bundles }
    ensures members { result.now ≡ members_asked declared.now.bundles declared.now.services (seen request.now) }
    ensures types { All has_good_type result.now }
{
    match find_requested(declared, request.service, request.port) {
        None => &[],
        Some(bundle) => bundle.members(),
    }
}
