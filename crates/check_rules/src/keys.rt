//! Names of the tree as keys of tables.
ghost use Rattle.std.specs.Prelude.{◌≡◌};
ghost use Rattle.name_tables.specs.Keys.{label_of, occurrence_of};
ghost use Rattle.check_rules.specs.References.{named, id_named, part_label, reference_named};
ghost use Rattle.check_rules.specs.DeclaredTwice.{declaration_named};

use design_tree::{ApplicationId, Declaration, Name, Reference};
use name_tables::{Key, Mark};

/// A name of its own, as a key.
pub fn name_key<'a>(name: &'a Name) -> Key<'a>
    ensures { label_of result ≡ (named name.now).label }
{
    Key {
        owner: None,
        index: None,
        name: name.octets.as_slice(),
    }
}

/// A name of its own, at its place.
pub fn name_mark<'a>(name: &'a Name) -> Mark<'a>
    ensures { occurrence_of result ≡ named name.now }
{
    Mark {
        key: name_key(name),
        at: name.at,
    }
}

/// An application id, as a key.
pub fn id_key<'a>(id: &'a ApplicationId) -> Key<'a>
    ensures { label_of result ≡ (id_named id.now).label }
{
    Key {
        owner: None,
        index: id.index,
        name: id.name.octets.as_slice(),
    }
}

/// An application id, at its place.
pub fn id_mark<'a>(id: &'a ApplicationId) -> Mark<'a>
    ensures { occurrence_of result ≡ id_named id.now }
{
    Mark {
        key: id_key(id),
        at: id.name.at,
    }
}

/// A part of a request or an instance, as a key.
pub fn part_key<'a>(id: &'a ApplicationId, part: &'a Name) -> Key<'a>
    ensures { label_of result ≡ part_label id.now part.now }
{
    Key {
        owner: Some(id.name.octets.as_slice()),
        index: id.index,
        name: part.octets.as_slice(),
    }
}

/// A reference, at its first octet.
pub fn reference_mark<'a>(reference: &'a Reference) -> Mark<'a>
    ensures { occurrence_of result ≡ reference_named reference.now }
{
    match reference {
        Reference::Channel(name) => name_mark(name),
        Reference::Member { id, name } => Mark {
            key: part_key(id, name),
            at: id.name.at,
        },
    }
}

/// The name of a declaration, at its place.
pub fn declaration_mark<'a>(declaration: &'a Declaration) -> Mark<'a>
    ensures { occurrence_of result ≡ declaration_named declaration.now }
{
    match declaration {
        Declaration::Bundle(bundle) => name_mark(&bundle.name),
        Declaration::Service(service) => name_mark(&service.name),
        Declaration::Module(module) => name_mark(&module.name),
    }
}
