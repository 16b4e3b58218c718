//! Variables of expressions.
ghost use Rattle.std.specs.Prelude.{◌≤◌, length, map};
ghost use Rattle.esi_base.specs.Answers.{AnswersAs};
ghost use Rattle.expression_types.specs.Views.{variable_in, typed_in};
ghost use Rattle.expression_types.specs.Typing.{variable_from};

use crate::limits::MAX_VARIABLES;
use crate::typed::{Typed, Variable};
use crate::value_type::ValueType;
use design_tree::Name;
use esi_base::Stop;
use netlist::Formula;

/// A variable, by its name: the first one that has it.
pub(crate) fn variable_typed<'a>(
    variables: &[Variable<'a>],
    name: &Name,
) -> Result<Typed<'a>, Stop<usize>>
    requires { length variables.now ≤ MAX_VARIABLES }
    ensures { AnswersAs typed_in (variable_from name.now 0 (map variable_in variables.now)) result }
{
    for (i, variable) in variables.iter().enumerate() {
        if variable.name == name.octets.as_slice() {
            return Ok(Typed {
                at: name.at,
                ty: ValueType::Given(variable.ty),
                formula: Formula::Var(i as u32),
            });
        }
    }
    Err(Stop::Refused(name.at))
}
