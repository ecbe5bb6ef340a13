//! Names of the quotients of a node's literals.

ghost use Rattle.std.specs.Prelude.{◌≡◌, ◌++◌, ◌<◌, ◌≤◌, length, OnOk};
ghost use Rattle.lia_stack.specs.machinery.Opened.{all_named, step_of_name, steps_of_names, with_name};

use crate::waiting::Open;
use base::Memory;
use lia_close::{Step, named_by, numbered};

/// The next literal gets its reason, and its quotient a name, where it has one.
fn name_next(waiting: &mut Open, steps: &mut Vec<Step>, at: usize) -> Result<(), Memory>
    requires next { at ≡ length waiting.old.reasons }
    requires there { at < length waiting.old.lits }
    requires each { length waiting.old.numbers ≡ length waiting.old.lits }
    ensures waiting { OnOk result (waiting.new ≡ with_name waiting.old) }
    ensures steps { OnOk result (steps.new.items ≡ steps.old.items ++ step_of_name waiting.old) }
{
    let number = waiting.numbers.as_slice()[at];
    let count = named_by(&waiting.lits.as_slice()[at]);
    if count == 0 {
        waiting.reasons.push(number)?;
    } else {
        steps.push(Step::Named(number))?;
        waiting.reasons.push(numbered(waiting.known)?)?;
        waiting.known += count;
    }
    Ok(())
}

/// Each literal that has joined the node gets its reason. What is known of the quotients of
/// divisibilities comes last, in order, so that each quotient gets the number that it has in the
/// node's tableau.
pub(crate) fn name_all(waiting: &mut Open, steps: &mut Vec<Step>) -> Result<(), Memory>
    requires each { length waiting.old.numbers ≡ length waiting.old.lits }
    requires some { length waiting.old.reasons ≤ length waiting.old.lits }
    ensures waiting { OnOk result (waiting.new ≡ all_named waiting.old) }
    ensures steps { OnOk result (steps.new.items ≡ steps.old.items ++ steps_of_names waiting.old) }
{
    let mut at = waiting.reasons.len();
    'name: while at < waiting.lits.len() {
        name_next(waiting, steps, at)?;
        at += 1;
    }
    Ok(())
}
