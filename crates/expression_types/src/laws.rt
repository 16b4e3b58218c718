//! The laws of the definitions, as the contracts of functions that do nothing.
ghost use Rattle.expression_types.specs.GoodTypes.{GoodTypesStayGood};
ghost use Rattle.expression_types.specs.MeaningLaws.{EachMeans};
ghost use Rattle.expression_types.specs.TableLaws.{EachFollowsTable};

/// The formula of an expression that fits is good for words of its variables, as wide as the expression's
/// type, and worth what the expression means.
pub fn meaning_law()
    ensures { EachMeans }
{}

/// An expression is typed as the table of expressions says, line by line (`specs/Rows.antt`): with the type
/// and the formula that it has there, and where it has none, it is refused at the first octet of the
/// innermost expression whose condition is broken, the first in the order of the text.
pub fn table_law()
    ensures { EachFollowsTable }
{}

/// An expression over variables of good types, with good types in its text, has a good type.
pub fn good_types_law()
    ensures { GoodTypesStayGood }
{}
