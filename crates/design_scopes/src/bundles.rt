//! The bundles of a design, and the members of each, found by name.
ghost use Rattle.std.specs.Prelude.{◌≡◌, ◌++◌, map, IfOk, OnOk, option_copied};
ghost use Rattle.name_tables.specs.Keys.{label_of};
ghost use Rattle.check_rules.specs.Scopes.{bundle_in, bundles_of, find_bundle, find_member};
ghost use Rattle.design_scopes.specs.Tables.{bundle_label, member_label};

use crate::lookup::at;
use check_rules::keys::name_key;
use design_tree::{Bundle, Declaration, Member, Name};
use esi_base::{List, NoMemory};
use name_tables::{Key, NameTable};
use std::alloc::Global;
use std::marker::Model;

/// A bundle whose members are found by name. Contracts see the bundle.
#[derive(Drop)]
pub struct BundleNames<'a> {
    bundle: &'a Bundle,
    members: NameTable<'a>,
}

impl<'a> Model for BundleNames<'a> {
    ghost use Rattle.std.specs.Prelude.{◌≡◌, map};
    ghost use Rattle.design_tree.specs.declared.declarations.Bundle.{Bundle};
    ghost use Rattle.channel_types.specs.contracts.esi_type.EsiType as ty;
    ghost use Rattle.std.specs.Coded.{codes};
    ghost use Rattle.design_scopes.specs.Tables.{member_label};

    ghost Value = { Bundle };

    ghost coded = { Prim.hlevel (codes, ty.the_row.coded) };

    ghost view = { λ b. b.bundle.now };

    ghost invariant = { λ b. b.members ≡ map member_label b.bundle.now.members };
}

impl<'a> BundleNames<'a> {
    /// A bundle with the names of its members.
    pub fn of(alloc: Global, bundle: &'a Bundle) -> Result<BundleNames<'a>, NoMemory>
        ensures { IfOk result (λ names. names ≡ bundle.now) }
    {
        let keys = member_keys(alloc, bundle.members.as_slice())?;
        let members = NameTable::of(alloc, keys)?;
        Ok(BundleNames { bundle, members })
    }

    /// Its members, in the text's order.
    pub fn members(&self) -> &'a [Member]
        ensures { result.now ≡ self.now.members }
    {
        self.bundle.members.as_slice()
    }

    /// The first member of a name.
    #[tactic(auto, using(crate::proofs::Found::member_found))]
    pub fn find(&self, name: &'a Name) -> Option<&'a Member>
        ensures { option_copied result ≡ find_member name.now self.now.members }
    {
        at(
            self.bundle.members.as_slice(),
            self.members.find(&name_key(name)),
        )
    }
}

fn member_keys<'a>(alloc: Global, members: &'a [Member]) -> Result<List<Key<'a>>, NoMemory>
    ensures { IfOk result (λ keys. map label_of keys ≡ map member_label members.now) }
{
    let mut keys = List::new(alloc);
    for member in members {
        keys.add(name_key(&member.name))?;
    }
    Ok(keys)
}

/// The bundles of a design, found by name. Contracts see the list of the bundles.
#[derive(Drop)]
pub struct Bundles<'a> {
    bundles: List<BundleNames<'a>>,
    names: NameTable<'a>,
}

impl<'a> Model for Bundles<'a> {
    ghost use Rattle.std.specs.Prelude.{◌≡◌, map, List as Listed};
    ghost use Rattle.design_tree.specs.declared.declarations.Bundle.{Bundle};
    ghost use Rattle.channel_types.specs.contracts.esi_type.EsiType as ty;
    ghost use Rattle.std.specs.Coded.{codes};
    ghost use Rattle.design_scopes.specs.Tables.{bundle_label};

    ghost Value = { Listed Bundle };

    ghost coded = { Prim.hlevel (codes, ty.the_row.coded) };

    ghost view = { λ t. t.bundles };

    ghost invariant = { λ t. t.names ≡ map bundle_label t.bundles };
}

impl<'a> Bundles<'a> {
    /// The bundles among some declarations.
    pub fn of(alloc: Global, declarations: &'a [Declaration]) -> Result<Bundles<'a>, NoMemory>
        ensures { IfOk result (λ table. table ≡ bundles_of declarations.now) }
    {
        let mut bundles = List::new(alloc);
        let mut keys = List::new(alloc);
        for declaration in declarations {
            add_if_bundle(alloc, &mut bundles, &mut keys, declaration)?;
        }
        let names = NameTable::of(alloc, keys)?;
        Ok(Bundles { bundles, names })
    }

    /// The first bundle of a name.
    #[tactic(auto, using(crate::proofs::Found::bundle_found))]
    pub fn find(&self, name: &'a Name) -> Option<&BundleNames<'a>>
        ensures { option_copied result ≡ find_bundle name.now self.now }
    {
        at(self.bundles.as_slice(), self.names.find(&name_key(name)))
    }
}

/// Adds the declaration and its name, if it is a bundle.
fn add_if_bundle<'a>(
    alloc: Global,
    bundles: &mut List<BundleNames<'a>>,
    keys: &mut List<Key<'a>>,
    declaration: &'a Declaration,
) -> Result<(), NoMemory>
    ensures bundles { OnOk result (bundles.new ≡ bundles.old ++ bundle_in declaration.now) }
    ensures keys { OnOk result (map label_of keys.new ≡ map label_of keys.old ++ map bundle_label (bundle_in declaration.now)) }
{
    match declaration {
        Declaration::Bundle(bundle) => {
            bundles.add(BundleNames::of(alloc, bundle)?)?;
            keys.add(name_key(&bundle.name))
        }
        Declaration::Service(_) | Declaration::Module(_) => Ok(()),
    }
}
