//! The variables of expressions.
ghost use Rattle.std.specs.Prelude.{◌≡◌, ◌∷◌, [], if◌then◌else◌};
ghost use Rattle.name_tables.specs.FirstPlaces.{least_from};
ghost use Rattle.check_rules.specs.References.{is_among};
ghost use Rattle.check_rules.specs.Undeclared.{variables_undeclared, operation_undeclared, expression_undeclared as undeclared_by};
ghost use Rattle.design_scopes.specs.Bodies.{referred};

use design_tree::{Expression, Name, Operation, Statement};
use name_tables::earlier;

/// The least place of a variable of a statement that is not bound, or the place found before.
pub fn statement_variables(first: Option<usize>, statement: &Statement) -> Option<usize>
    ensures { result ≡ least_from first (variables_undeclared statement.now) }
{
    match statement {
        Statement::Request { .. } | Statement::Instance { .. } | Statement::Drive { .. } => first,
        Statement::Channels { operation, .. } => operation_variables(first, operation),
    }
}

fn operation_variables(first: Option<usize>, operation: &Operation) -> Option<usize>
    ensures { result ≡ least_from first (operation_undeclared operation.now) }
{
    match operation {
        Operation::Map { variable, body, .. } => expression_variables(first, &[variable], body),
        Operation::Scan {
            state,
            variable,
            body,
            ..
        } => expression_variables(first, &[state, variable], body),
        Operation::Stage(_)
        | Operation::Fork(_)
        | Operation::AsFifo(_)
        | Operation::AsVr(_)
        | Operation::Buffer { .. }
        | Operation::Fifo { .. }
        | Operation::Join { .. } => first,
    }
}

/// The least place of a variable that is none of the known ones, or the place found before. It goes as deep
/// as expressions stand inside one another.
#[tactic(auto, using(crate::proofs::VariableSteps::variable_step, crate::proofs::VariableSteps::part_step, crate::proofs::VariableSteps::literal_step, crate::proofs::VariableSteps::make_step, crate::proofs::VariableSteps::cast_step, crate::proofs::VariableSteps::zext_step, crate::proofs::VariableSteps::slice_step, crate::proofs::VariableSteps::not_step, crate::proofs::VariableSteps::binary_step, crate::proofs::VariableSteps::mux_step, crate::specs::Walks::least_more, crate::specs::Walks::least_item))]
fn expression_variables(
    first: Option<usize>,
    known: &[&Name],
    expression: &Expression,
) -> Option<usize>
    ensures { result ≡ least_from first (undeclared_by (referred known.now) expression.now) }
{
    match expression {
        Expression::Variable(name) => unknown_variable(first, known, name),
        Expression::Part { of, .. }
        | Expression::Cast { of, .. }
        | Expression::Zext { of, .. }
        | Expression::Slice { of, .. }
        | Expression::Not { of, .. } => expression_variables(first, known, of.get()),
        Expression::Literal { .. } => first,
        Expression::Make { parts, .. } => {
            let mut place = first;
            for part in parts.as_slice() {
                place = expression_variables(place, known, part);
            }
            place
        }
        Expression::Binary { left, right, .. } => expression_variables(
            expression_variables(first, known, left.get()),
            known,
            right.get(),
        ),
        Expression::Mux {
            condition,
            when_one,
            when_zero,
            ..
        } => expression_variables(
            expression_variables(
                expression_variables(first, known, condition.get()),
                known,
                when_one.get(),
            ),
            known,
            when_zero.get(),
        ),
    }
}

fn unknown_variable(first: Option<usize>, known: &[&Name], name: &Name) -> Option<usize>
    ensures { result ≡ least_from first (if is_among name.now (referred known.now) then [] else name.now.at ∷ []) }
{
    if is_known(known, name) {
        first
    } else {
        earlier(first, name.at)
    }
}

fn is_known(known: &[&Name], name: &Name) -> bool
    ensures { result ≡ is_among name.now (referred known.now) }
{
    for other in known {
        if name.octets.as_slice() == other.octets.as_slice() {
            return true;
        }
    }
    false
}
