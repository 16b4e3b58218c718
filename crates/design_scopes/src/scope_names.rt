//! A body with all that can be named in it.
ghost use Rattle.std.specs.Prelude.{◌≡◌, option_copied};
ghost use Rattle.check_rules.specs.Scopes.{find_service, find_module, bundle_of};
ghost use Rattle.check_rules.specs.References.{resolve as resolution_of};

use crate::body::Body;
use crate::body_names::BodyNames;
use crate::bundles::BundleNames;
use crate::declared::Declared;
use crate::modules::ModuleNames;
use crate::resolving::{find_requested, resolve};
use crate::services::ServiceNames;
use check_rules::Resolution;
use design_tree::{Name, Reference};
use std::marker::Model;

/// A body with all that can be named in it, found by name. Contracts see the scope.
#[derive(Drop)]
pub struct ScopeNames<'v, 'a> {
    /// What the design declares.
    pub declared: &'v Declared<'a>,
    /// The body.
    pub body: &'v Body<'a>,
    /// The names of its own.
    pub names: &'v BodyNames<'a>,
}

impl<'v, 'a> Model for ScopeNames<'v, 'a> {
    ghost use Rattle.channel_types.specs.contracts.esi_type.EsiType as ty;
    ghost use Rattle.design_tree.specs.contracts.expression.Expression as expression;
    ghost use Rattle.std.specs.Coded.{codes};
    ghost use Rattle.check_rules.specs.Scopes.{Scope};
    ghost use Rattle.design_scopes.specs.Resolving.{scope_in, IsNamesOf};

    ghost Value = { Scope };

    ghost coded = { Prim.hlevel (codes, ty.the_row.coded, expression.the_row.coded) };

    ghost view = { λ s. scope_in s.declared.now s.body.now };

    ghost invariant = { λ s. IsNamesOf s.body.now s.names.now };
}

impl<'v, 'a> ScopeNames<'v, 'a> {
    /// What a reference refers to.
    pub fn resolve(&self, reference: &'a Reference) -> Resolution
        ensures { result ≡ resolution_of self.now reference.now }
    {
        resolve(self.declared, self.body, self.names, reference)
    }

    /// The first service of a name.
    pub fn find_service(&self, name: &'a Name) -> Option<&'v ServiceNames<'a>>
        ensures { option_copied result ≡ find_service name.now self.now.services }
    {
        self.declared.services.find(name)
    }

    /// The first module of a name that stands before the body.
    pub fn find_module(&self, name: &'a Name) -> Option<&'v ModuleNames<'a>>
        ensures { option_copied result ≡ find_module name.now self.now.modules }
    {
        self.declared.modules.find(name, self.body.before)
    }

    /// The bundle that a request of a service's port gives.
    pub fn find_bundle(&self, service: &'a Name, port: &'a Name) -> Option<&'v BundleNames<'a>>
        ensures { option_copied result ≡ bundle_of self.now service.now port.now }
    {
        find_requested(self.declared, service, port)
    }
}
