//! The guards and arguments of a clause, at values of its variables.

ghost use Rattle.std.specs.Prelude.{◌≡◌, ◌<◌, length, IfOk, IsErrOf};
ghost use Rattle.std.specs.List.{Contains, list_all};
ghost use Rattle.term_tree.specs.Value.{environment_of};
ghost use Rattle.horn_shape.specs.Instance.{is_met, part_value};
ghost use Rattle.check_derivation.specs.Findings.{HasWide};
ghost use Rattle.check_derivation.specs.machinery.Tests.{AreThere, agree, is_argument};

use crate::values::{same, truth, variable};
use horn_shape::Part;
use std::alloc::Global;
use term_tree::{Node, TermId, Terms, Value, ValueStop, value};

/// The value of a part. A variable's is looked up.
fn part_value(
    alloc: Global,
    terms: &Terms,
    part: &Part,
    values: &[Value],
) -> Result<Value, ValueStop>
    requires { part.now.term.0 < length terms.now.nodes }
    ensures is { IfOk result (λ found. found ≡ part_value terms.now.nodes (environment_of values.now) part.now) }
    ensures wide { (term : TermId) → IsErrOf result (ValueStop.ValueWide term) → HasWide terms.now.nodes (environment_of values.now) part.now term.0 }
{
    match terms.node(part.term) {
        Node::Var { binder, .. } => Ok(variable(values, *binder)),
        _ => value(alloc, terms, part.term, values),
    }
}

/// Whether the guard is true, or a negated one false.
fn is_met(alloc: Global, terms: &Terms, guard: &Part, values: &[Value]) -> Result<bool, ValueStop>
    requires { guard.now.term.0 < length terms.now.nodes }
    ensures is { IfOk result (λ met. met ≡ is_met terms.now.nodes (environment_of values.now) guard.now) }
    ensures wide { (term : TermId) → IsErrOf result (ValueStop.ValueWide term) → HasWide terms.now.nodes (environment_of values.now) guard.now term.0 }
{
    let found = part_value(alloc, terms, guard, values)?;
    if guard.negated {
        Ok(!truth(&found))
    } else {
        Ok(truth(&found))
    }
}

/// Whether all guards are met. Those behind one that isn't are not evaluated.
pub(crate) fn are_met(
    alloc: Global,
    terms: &Terms,
    guards: &[Part],
    values: &[Value],
) -> Result<bool, ValueStop>
    requires { AreThere terms.now.nodes guards.now }
    ensures is { IfOk result (λ met. met ≡ list_all (is_met terms.now.nodes (environment_of values.now)) guards.now) }
    ensures wide { (term : TermId) → IsErrOf result (ValueStop.ValueWide term) → (part : Part) × Contains guards.now part × HasWide terms.now.nodes (environment_of values.now) part term.0 }
{
    for guard in guards {
        let met = is_met(alloc, terms, guard, values)?;
        if !met {
            return Ok(false);
        }
    }
    Ok(true)
}

/// Whether this is the value of the argument.
fn is_argument(
    alloc: Global,
    terms: &Terms,
    part: &Part,
    values: &[Value],
    said: &Value,
) -> Result<bool, ValueStop>
    requires { part.now.term.0 < length terms.now.nodes }
    ensures is { IfOk result (λ equal. equal ≡ is_argument terms.now.nodes (environment_of values.now) part.now said.now) }
    ensures wide { (term : TermId) → IsErrOf result (ValueStop.ValueWide term) → HasWide terms.now.nodes (environment_of values.now) part.now term.0 }
{
    let found = part_value(alloc, terms, part, values)?;
    Ok(same(&found, said))
}

/// Whether these are the values of the arguments, in order.
pub(crate) fn are_arguments(
    alloc: Global,
    terms: &Terms,
    args: &[Part],
    values: &[Value],
    said: &[Value],
) -> Result<bool, ValueStop>
    requires { AreThere terms.now.nodes args.now }
    ensures is { IfOk result (λ are. are ≡ agree (is_argument terms.now.nodes (environment_of values.now)) args.now said.now) }
    ensures wide { (term : TermId) → IsErrOf result (ValueStop.ValueWide term) → (part : Part) × Contains args.now part × HasWide terms.now.nodes (environment_of values.now) part term.0 }
{
    if args.len() != said.len() {
        return Ok(false);
    }
    for (i, part) in args.iter().enumerate() {
        let equal = is_argument(alloc, terms, part, values, &said[i])?;
        if !equal {
            return Ok(false);
        }
    }
    Ok(true)
}
