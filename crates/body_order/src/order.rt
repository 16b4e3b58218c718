//! The order of a body's elements, and the first that depends on itself.
ghost use Rattle.std.specs.Prelude.{◌≡◌, IfOk, map};
ghost use Rattle.name_tables.specs.FirstPlaces.{Reports};
ghost use Rattle.check_rules.specs.References.{statement_place};
ghost use Rattle.element_order.specs.Orders.{ordered};
ghost use Rattle.body_order.specs.Cycles.{BreaksCycle};
ghost use Rattle.body_order.specs.Makers.{referred, first_needs};

use crate::elements::Elements;
use design_tree::Statement;
use element_order::{element_order, first_on_cycle};
use esi_base::{List, NoMemory};
use std::alloc::Global;

impl<'a> Elements<'a> {
    /// The numbers of the elements in element order: again and again the first one all of whose sources are
    /// there. Those that depend on themselves, and those after them, are not among them. It takes time in
    /// n log n.
    pub fn order(&self, alloc: Global) -> Result<List<usize>, NoMemory>
        ensures { IfOk result (λ order. order ≡ ordered (first_needs self.now)) }
    {
        let needs = self.needs(alloc)?;
        element_order(alloc, needs.as_slice())
    }

    /// The first place of an element that depends on itself, and None exactly where none does.
    pub fn first_cycle(&self, alloc: Global) -> Result<Option<usize>, NoMemory>
        ensures { IfOk result (Reports (BreaksCycle self.now)) }
    {
        let needs = self.needs(alloc)?;
        let places = self.places(alloc)?;
        Ok(first_on_cycle(alloc, needs.as_slice(), places.as_slice())?)
    }

    /// The place of each element in the text.
    fn places(&self, alloc: Global) -> Result<List<usize>, NoMemory>
        ensures { IfOk result (λ places. places ≡ map statement_place self.now) }
    {
        places_of(alloc, self.statements())
    }
}

/// The places of statements in the text.
fn places_of(alloc: Global, statements: &[&Statement]) -> Result<List<usize>, NoMemory>
    ensures { IfOk result (λ places. places ≡ map statement_place (referred statements.now)) }
{
    let mut places = List::new(alloc);
    for statement in statements {
        places.add(place_of(statement))?;
    }
    Ok(places)
}

/// The place of a statement in the text: the offset of its first octet.
pub fn place_of(statement: &Statement) -> usize
    ensures { result ≡ statement_place statement.now }
{
    match statement {
        Statement::Request { at, .. } => *at,
        Statement::Instance { at, .. } => *at,
        Statement::Channels { at, .. } => *at,
        Statement::Drive { at, .. } => *at,
    }
}
