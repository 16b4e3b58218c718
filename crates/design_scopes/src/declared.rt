//! What a design declares, found by name.
ghost use Rattle.std.specs.Prelude.{IfOk};
ghost use Rattle.design_scopes.specs.Resolving.{AreDeclared};

use crate::bundles::Bundles;
use crate::modules::Modules;
use crate::services::Services;
use design_tree::Declaration;
use esi_base::NoMemory;
use std::alloc::Global;

/// The declarations of a design, found by name.
#[derive(Drop)]
pub struct Declared<'a> {
    /// Its bundles.
    pub bundles: Bundles<'a>,
    /// Its services.
    pub services: Services<'a>,
    /// Its modules, in the text's order.
    pub modules: Modules<'a>,
}

impl<'a> Declared<'a> {
    /// The declarations of a design.
    pub fn of(alloc: Global, declarations: &'a [Declaration]) -> Result<Declared<'a>, NoMemory>
        ensures { IfOk result (AreDeclared declarations.now) }
    {
        Ok(Declared {
            bundles: Bundles::of(alloc, declarations)?,
            services: Services::of(alloc, declarations)?,
            modules: Modules::of(alloc, declarations)?,
        })
    }
}
