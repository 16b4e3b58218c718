//! The modules before a body.
ghost use Rattle.std.specs.Prelude.{◌≡◌};
ghost use Rattle.body_plans.specs.Channels.{module_number, endpoints_of, no_endpoints};

use crate::endpoints::Endpoints;
use check_rules::keys::name_key;
use design_tree::Name;
use name_tables::NameTable;
use std::marker::Model;

/// The modules of a design by name, and what is known of those that stand before a body.
#[derive(Drop)]
pub struct ModulesBefore<'k, 'a> {
    /// The names of all modules, in the text's order.
    pub names: &'k NameTable<'a>,
    /// The endpoints of the first of them, one for each module before the body.
    pub endpoints: &'k [Endpoints],
}

impl<'k, 'a> Model for ModulesBefore<'k, 'a> {
    ghost use Rattle.body_plans.specs.Channels.{Before};
    ghost use Rattle.body_plans.specs.Views.{before_of};

    ghost Value = { Before };

    ghost view = { λ b. before_of b.names.now b.endpoints.now };
}

impl<'k, 'a> ModulesBefore<'k, 'a> {
    /// The number of the first module of a name.
    pub fn number(&self, name: &'a Name) -> Option<usize>
        ensures { result ≡ module_number self.now name.now }
    {
        self.names.find(&name_key(name))
    }

    /// The endpoints of the first module of a name; none where it does not stand before.
    pub fn endpoints(&self, name: &'a Name) -> Endpoints
        ensures { result ≡ endpoints_of self.now name.now }
    {
        match self.number(name) {
            None => nothing(),
            Some(number) => match self.endpoints.get(number) {
                None => nothing(),
                Some(endpoints) => *endpoints,
            },
        }
    }
}

/// No endpoints.
fn nothing() -> Endpoints
    ensures { result ≡ no_endpoints }
{
    Endpoints {
        to_server: 0,
        to_client: 0,
    }
}
