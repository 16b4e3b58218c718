//! The names of a design, and the first place at which each rule on them is broken.
ghost use Rattle.std.specs.Prelude.{◌≡◌, IfOk};
ghost use Rattle.name_tables.specs.FirstPlaces.{Reports};
ghost use Rattle.check_rules.specs.DeclaredTwice.{BreaksDeclaredTwice};
ghost use Rattle.check_rules.specs.Counts.{BreaksCounts};
ghost use Rattle.check_rules.specs.Scopes.{bundles_of, services_of};
ghost use Rattle.check_rules.specs.Undeclared.{BreaksUndeclared};
ghost use Rattle.check_rules.specs.Directions.{BreaksDirections};
ghost use Rattle.check_rules.specs.Uses.{BreaksUsedTwice, BreaksUnused};
ghost use Rattle.design_scopes.specs.Bodies.{AreBodies, DesignText, bodies_in, text_of};
ghost use Rattle.design_scopes.specs.Resolving.{AreDeclared};

use crate::declared_twice::first_declared_twice;
use crate::directions::first_direction;
use crate::undeclared::first_undeclared;
use crate::unused::first_unused;
use crate::used_twice::first_used_twice;
use design_scopes::bodies::bodies_of;
use design_scopes::body::Body;
use design_scopes::declared::Declared;
use design_tree::{Declaration, Top};
use esi_base::{List, NoMemory};
use statement_checks::first_count;
use std::alloc::Global;
use std::marker::Model;

/// A design with declarations and a top, with what the checks of its names go through. Contracts see the
/// declarations and the top.
#[derive(Drop)]
pub struct DesignNames<'a> {
    declarations: &'a [Declaration],
    top: &'a Top,
    declared: Declared<'a>,
    bodies: List<Body<'a>>,
}

impl<'a> Model for DesignNames<'a> {
    ghost use Rattle.design_scopes.specs.Bodies.{DesignText, text_of};
    ghost use Rattle.design_scopes.specs.Resolving.{AreTables};
    ghost use Rattle.channel_types.specs.contracts.esi_type.EsiType as ty;
    ghost use Rattle.design_tree.specs.contracts.expression.Expression as expression;
    ghost use Rattle.std.specs.Coded.{codes};

    ghost Value = { DesignText };

    ghost coded = { Prim.hlevel (codes, ty.the_row.coded, expression.the_row.coded) };

    ghost view = { λ d. text_of d.declarations.now d.top.now };

    ghost invariant = { λ d. AreTables d.declarations.now d.top.now d.declared d.bodies };
}

impl<'a> DesignNames<'a> {
    /// The names of a design.
    pub fn of(
        alloc: Global,
        declarations: &'a [Declaration],
        top: &'a Top,
    ) -> Result<DesignNames<'a>, NoMemory>
        ensures { IfOk result (λ names. names ≡ text_of declarations.now top.now) }
    {
        let declared = Declared::of(alloc, declarations)?;
        let bodies = bodies_of(alloc, declarations, top)?;
        Ok(DesignNames {
            declarations,
            top,
            declared,
            bodies,
        })
    }

    /// What the design declares, found by name.
    pub fn declared(&self) -> &Declared<'a>
        ensures { AreDeclared self.now.declarations result.now }
    {
        &self.declared
    }

    /// The bodies of the design, in the order of its text.
    pub fn bodies(&self) -> &[Body<'a>]
        ensures { AreBodies self.now.declarations self.now.top result.now }
    {
        self.bodies.as_slice()
    }

    /// The first place at which a name is declared that was declared before in its space. It takes time in
    /// n log n.
    pub fn first_declared_twice(&self, alloc: Global) -> Result<Option<usize>, NoMemory>
        ensures { IfOk result (Reports (BreaksDeclaredTwice self.now.declarations (bodies_in self.now))) }
    {
        first_declared_twice(alloc, self.declarations, self.bodies.as_slice())
    }

    /// The first place of a number or of a count of channels that is out of its range. It takes no memory.
    pub fn first_count(&self) -> Option<usize>
        ensures { Reports (BreaksCounts (bodies_in self.now)) result }
    {
        first_count(self.bodies.as_slice())
    }

    /// The first place at which something is used, driven or bound a second time. It takes time in
    /// n log n.
    pub fn first_used_twice(&self, alloc: Global) -> Result<Option<usize>, NoMemory>
        ensures { IfOk result (Reports (BreaksUsedTwice (bodies_in self.now))) }
    {
        first_used_twice(alloc, self.bodies.as_slice())
    }

    /// The first place of a reference that goes the wrong way. It takes time in n log n.
    pub fn first_direction(&self, alloc: Global) -> Result<Option<usize>, NoMemory>
        ensures { IfOk result (Reports (BreaksDirections (bodies_in self.now))) }
    {
        first_direction(alloc, &self.declared, self.bodies.as_slice())
    }

    /// The first place of what is not used, driven or bound. It takes time in n log n where nothing is
    /// used twice.
    pub fn first_unused(&self, alloc: Global) -> Result<Option<usize>, NoMemory>
        ensures { IfOk result (Reports (BreaksUnused (bodies_in self.now))) }
    {
        first_unused(alloc, &self.declared, self.bodies.as_slice())
    }

    /// The first place of a name that is looked up and not declared. It takes time in n log n.
    pub fn first_undeclared(&self, alloc: Global) -> Result<Option<usize>, NoMemory>
        ensures { IfOk result (Reports (BreaksUndeclared (bundles_of self.now.declarations) (services_of self.now.declarations) (bodies_in self.now))) }
    {
        first_undeclared(alloc, &self.declared, self.bodies.as_slice())
    }
}
