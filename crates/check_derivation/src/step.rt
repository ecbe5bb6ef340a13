//! One step of a derivation, by its assertion's clause.

ghost use Rattle.std.specs.Prelude.{◌≡◌, ◌<◌, ◌≤◌, length, Some, IfOk, IsErrOf, IsTrue};
ghost use Rattle.std.specs.List.{All, Contains, list_all};
ghost use Rattle.term_tree.specs.Value.{environment_of};
ghost use Rattle.check_derivation.specs.Findings.{HasWide, IsPartOf};
ghost use Rattle.check_derivation.specs.machinery.Tests.{AreThere, IsThere, agree, is_atom, is_earlier, is_given, is_head, is_right, is_shaped};

use crate::parts::{are_arguments, are_met};
use crate::values::all_fit;
use answer_text::Line;
use base::Items;
use horn_shape::{AtomUse, HornClause, Part};
use std::alloc::Global;
use term_tree::{TermId, Terms, Value, ValueStop};

/// Whether the premise is the number of a step before this one.
fn is_earlier(number: u64, premise: u64) -> bool
    ensures { result ≡ is_earlier number premise }
{
    0 < premise && premise < number
}

fn are_earlier(number: u64, premises: &[u64]) -> bool
    ensures { result ≡ list_all (is_earlier number) premises.now }
{
    for premise in premises {
        if !is_earlier(number, *premise) {
            return false;
        }
    }
    true
}

/// Whether the step has this number, as many premises as the clause has body atoms, each the number of
/// a step before it, and values of the sorts of the clause's variables.
fn is_shaped(number: u64, line: &Line, clause: &HornClause) -> bool
    ensures { result ≡ is_shaped number line.now clause.now }
{
    line.number == number
        && line.premises.len() == clause.atoms.len()
        && are_earlier(number, line.premises.as_slice())
        && all_fit(clause.vars.as_slice(), line.values.as_slice())
}

/// Whether what is concluded is the atom at these values of the clause's variables.
fn is_atom(
    alloc: Global,
    terms: &Terms,
    atom: &AtomUse,
    values: &[Value],
    said: &Option<(u32, Items<Value>)>,
) -> Result<bool, ValueStop>
    requires { AreThere terms.now.nodes atom.now.args }
    ensures is { IfOk result (λ equal. equal ≡ is_atom terms.now.nodes (environment_of values.now) atom.now said.now) }
    ensures wide { (term : TermId) → IsErrOf result (ValueStop.ValueWide term) → (part : Part) × Contains atom.now.args part × HasWide terms.now.nodes (environment_of values.now) part term.0 }
{
    match said {
        None => Ok(false),
        Some((pred, tuple)) => {
            if *pred != atom.pred {
                return Ok(false);
            }
            are_arguments(alloc, terms, atom.args.as_slice(), values, tuple.as_slice())
        }
    }
}

/// Whether the step of that number concludes the atom at these values.
fn is_given(
    alloc: Global,
    terms: &Terms,
    lines: &[Line],
    atom: &AtomUse,
    values: &[Value],
    premise: u64,
) -> Result<bool, ValueStop>
    requires args { AreThere terms.now.nodes atom.now.args }
    requires from_one { 0 < premise }
    requires there { premise ≤ length lines.now }
    ensures is { IfOk result (λ given. given ≡ is_given terms.now.nodes (environment_of values.now) lines.now atom.now premise) }
    ensures wide { (term : TermId) → IsErrOf result (ValueStop.ValueWide term) → (part : Part) × Contains atom.now.args part × HasWide terms.now.nodes (environment_of values.now) part term.0 }
{
    let place = premise as usize - 1;
    is_atom(alloc, terms, atom, values, &lines[place].head)
}

/// Whether each body atom is the conclusion of its premise.
fn are_given(
    alloc: Global,
    terms: &Terms,
    lines: &[Line],
    atoms: &[AtomUse],
    values: &[Value],
    premises: &[u64],
) -> Result<bool, ValueStop>
    requires args { All (λ atom. AreThere terms.now.nodes atom.args) atoms.now }
    requires each { length atoms.now ≡ length premises.now }
    requires from_one { All (λ premise. 0 < premise) premises.now }
    requires there { All (λ premise. premise ≤ length lines.now) premises.now }
    ensures is { IfOk result (λ given. given ≡ agree (is_given terms.now.nodes (environment_of values.now) lines.now) atoms.now premises.now) }
    ensures wide { (term : TermId) → IsErrOf result (ValueStop.ValueWide term)
        → (atom : AtomUse) × Contains atoms.now atom × (part : Part) × Contains atom.args part × HasWide terms.now.nodes (environment_of values.now) part term.0 }
{
    for (i, atom) in atoms.iter().enumerate() {
        let given = is_given(alloc, terms, lines, atom, values, premises[i])?;
        if !given {
            return Ok(false);
        }
    }
    Ok(true)
}

/// Whether what is concluded is the head at these values.
fn is_head(
    alloc: Global,
    terms: &Terms,
    head: &Option<AtomUse>,
    values: &[Value],
    said: &Option<(u32, Items<Value>)>,
) -> Result<bool, ValueStop>
    requires { (atom : AtomUse) → head.now ≡ Some atom → AreThere terms.now.nodes atom.args }
    ensures is { IfOk result (λ equal. equal ≡ is_head terms.now.nodes (environment_of values.now) head.now said.now) }
    ensures wide { (term : TermId) → IsErrOf result (ValueStop.ValueWide term)
        → (atom : AtomUse) × (head.now ≡ Some atom) × (part : Part) × Contains atom.args part × HasWide terms.now.nodes (environment_of values.now) part term.0 }
{
    match head {
        None => Ok(said.is_none()),
        Some(atom) => is_atom(alloc, terms, atom, values, said),
    }
}

/// Whether the step of that number is right by the clause of its assertion. Terms are evaluated only
/// where all else is right.
pub(crate) fn is_right(
    alloc: Global,
    terms: &Terms,
    lines: &[Line],
    number: u64,
    line: &Line,
    clause: &HornClause,
) -> Result<bool, ValueStop>
    requires parts { IsThere terms.now.nodes clause.now }
    requires there { number ≤ length lines.now }
    ensures is { IfOk result (λ right. right ≡ is_right terms.now.nodes lines.now number line.now clause.now) }
    ensures shaped { (term : TermId) → IsErrOf result (ValueStop.ValueWide term) → IsTrue (is_shaped number line.now clause.now) }
    ensures wide { (term : TermId) → IsErrOf result (ValueStop.ValueWide term) → (part : Part) × IsPartOf clause.now part × HasWide terms.now.nodes (environment_of line.now.values) part term.0 }
{
    let values = line.values.as_slice();
    if !is_shaped(number, line, clause) {
        return Ok(false);
    }
    let met = are_met(alloc, terms, clause.guards.as_slice(), values)?;
    if !met {
        return Ok(false);
    }
    let given = are_given(
        alloc,
        terms,
        lines,
        clause.atoms.as_slice(),
        values,
        line.premises.as_slice(),
    )?;
    if !given {
        return Ok(false);
    }
    is_head(alloc, terms, &clause.head, values, &line.head)
}
