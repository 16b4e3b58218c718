//! What is worked out of one operation is what the rules say.
ghost use Rattle.channel_typing.specs.OperationLaws.{EachMakes, EachMisfits};
ghost use Rattle.channel_typing.specs.BodyLaws.{EachTypeFound, EachMisfitFound};
ghost use Rattle.channel_typing.specs.Listed.{EachTypeListed, EachMisfitListed};

/// An operation whose sources have types makes channels of a type, or does not fit at a place, exactly
/// where the rules say so (`MakesType`, `IsOperationMisfit` of `specs/Rules.antt`).
pub fn operation_law()
    ensures makes { EachMakes }
    ensures misfits { EachMisfits }
{}

/// What is found in a body, along any order of its elements, are types and misfits by the rules
/// (`HasType`, `IsMisfit` of `specs/Rules.antt`).
pub fn body_law()
    ensures types { EachTypeFound }
    ensures misfits { EachMisfitFound }
{}

/// In a body whose elements make no channel twice, and along an order in which each of them stands after all
/// that it needs, all types of the rules are found, and all places at which a statement does not fit by the
/// rules are among the misfits. It does nothing when it runs.
pub fn listed_law()
    ensures types { EachTypeListed }
    ensures misfits { EachMisfitListed }
{}
