//! The Horn clause of an assertion.

ghost use Rattle.std.specs.Prelude.{◌≡◌, ℕ, IfOk, IsErrOf, IsTrue};
ghost use Rattle.horn_shape.specs.Clause.{IsClauseOf, IsNotHornAt, has_assertion};
ghost use Rattle.horn_shape.specs.Flags.{ArePlainFlags};

use crate::clause::HornClause;
use crate::plain::PlainTerms;
use crate::shape::read_clause;
use crate::stop::HornStop;
use base::{Items, MOST_ASSERTIONS};
use std::alloc::Global;
use term_tree::Script;

/// Whether the script has an assertion of that number. A legal script has each up to their number.
pub fn has_assertion(script: &Script, index: usize) -> bool
    ensures { result ≡ has_assertion script.now index }
{
    match script.asserts.get(index) {
        None => false,
        Some(a) => index < MOST_ASSERTIONS && (a.term.0 as usize) < script.terms.len(),
    }
}

/// The Horn clause of the assertion of that number, from 0, or the first subterm that fits no form of
/// one where it stands. For every assertion of a script in turn `clause_with` looks at each term once.
pub fn clause_of(alloc: Global, script: &Script, index: usize) -> Result<HornClause, HornStop>
    requires { IsTrue (has_assertion script.now index) }
    ensures clause { IfOk result (λ clause. IsClauseOf script.now index clause) }
    ensures not_horn { (offset : ℕ) → IsErrOf result (HornStop.NotHorn offset) → IsNotHornAt script.now index offset }
{
    let plain = PlainTerms::of(alloc, &script.terms)?;
    clause_with(alloc, script, &plain, index)
}

/// The Horn clause of the assertion of that number, from 0, or the first subterm that fits no form of
/// one where it stands, if it is known which terms of the script have neither predicates nor
/// quantifiers.
pub fn clause_with(
    alloc: Global,
    script: &Script,
    plain: &PlainTerms,
    index: usize,
) -> Result<HornClause, HornStop>
    requires there { IsTrue (has_assertion script.now index) }
    requires flags { ArePlainFlags script.now.terms.nodes plain.now }
    ensures clause { IfOk result (λ clause. IsClauseOf script.now index clause) }
    ensures not_horn { (offset : ℕ) → IsErrOf result (HornStop.NotHorn offset) → IsNotHornAt script.now index offset }
{
    let assertion = script.asserts.as_slice()[index];
    let mut clause = HornClause {
        assertion: index as u32,
        vars: Items::new(alloc),
        atoms: Items::new(alloc),
        guards: Items::new(alloc),
        head: None,
    };
    match read_clause(
        alloc,
        &script.terms,
        plain,
        assertion.term,
        &[],
        &mut clause,
    ) {
        Ok(()) => Ok(clause),
        Err(stop) => Err(stop),
    }
}
