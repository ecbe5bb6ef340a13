//! The clauses of a script.

ghost use Rattle.std.specs.Prelude.{◌<◌, length, IfOk};
ghost use Rattle.horn_shape.specs.Clause.{IsClauseOf, IsLegalScript};
ghost use Rattle.horn_shape.specs.Flags.{ArePlainFlags};
ghost use Rattle.check_derivation.specs.Findings.{IsHornScript};
ghost use Rattle.check_derivation.specs.machinery.Tests.{AreClausesOf};

use base::Memory;
use horn_shape::{HornClause, HornStop, PlainTerms, clause_with};
use std::alloc::Global;
use term_tree::Script;

/// The clause of the assertion of that number, from 0.
fn clause_at(
    alloc: Global,
    script: &Script,
    plain: &PlainTerms,
    index: usize,
) -> Result<HornClause, Memory>
    requires legal { IsLegalScript script.now }
    requires horn { IsHornScript script.now }
    requires flags { ArePlainFlags script.now.terms.nodes plain.now }
    requires there { index < length script.now.asserts }
    ensures { IfOk result (λ clause. IsClauseOf script.now index clause) }
{
    match clause_with(alloc, script, plain, index) {
        Ok(clause) => Ok(clause),
        Err(HornStop::Memory) => Err(Memory),
        Err(HornStop::NotHorn { .. }) => unreachable!(),
    }
}

/// The clauses of the script's assertions, in their order.
pub fn clauses_of(alloc: Global, script: &Script) -> Result<Vec<HornClause>, Memory>
    requires legal { IsLegalScript script.now }
    requires horn { IsHornScript script.now }
    ensures { IfOk result (λ clauses. AreClausesOf script.now clauses.items) }
{
    let plain = PlainTerms::of(alloc, &script.terms)?;
    let count = script.asserts.len();
    let mut clauses = Vec::with_capacity(alloc, count)?;
    for index in 0..count {
        let clause = clause_at(alloc, script, &plain, index)?;
        clauses.push(clause)?;
    }
    Ok(clauses)
}
