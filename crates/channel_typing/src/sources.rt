//! The types of what references are to.
ghost use Rattle.std.specs.Prelude.{◌≡◌, option_map};
ghost use Rattle.channel_typing.specs.Typing.{Known, channel_maker, type_at};
ghost use Rattle.channel_typing.specs.Views.{source_in, origin_in};

use crate::declared_types::declared_type;
use crate::known_types::KnownTypes;
use crate::origin::Origin;
use crate::source_type::SourceType;
use body_order::Elements;
use design_scopes::scope_names::ScopeNames;
use design_tree::Reference;

/// Where the type of what a reference is to comes from.
pub(crate) fn origin_of<'v, 'a>(
    scope: &ScopeNames<'v, 'a>,
    elements: &Elements<'a>,
    reference: &'a Reference,
) -> Origin<'a>
    ensures { (known : Known) → origin_in known result ≡ type_at scope.now elements.now known reference.now }
{
    match declared_type(scope, reference) {
        Some(ty) => Origin::Declared(ty),
        None => match channel_maker(elements, reference) {
            Some(number) => Origin::Maker(number),
            None => Origin::Nowhere,
        },
    }
}

/// The element that makes a channel.
fn channel_maker<'a>(elements: &Elements<'a>, reference: &'a Reference) -> Option<usize>
    ensures { result ≡ channel_maker elements.now reference.now }
{
    match reference {
        Reference::Channel(_) => elements.maker(reference),
        Reference::Member { id: _, name: _ } => None,
    }
}

/// The type of what a reference is to, where it is known.
pub(crate) fn type_of<'b, 'v, 'a>(
    scope: &ScopeNames<'v, 'a>,
    elements: &Elements<'a>,
    known: &'b KnownTypes<'a>,
    reference: &'a Reference,
) -> Option<SourceType<'b, 'a>>
    ensures { option_map source_in result ≡ type_at scope.now elements.now known.now reference.now }
{
    known.find(origin_of(scope, elements, reference))
}
