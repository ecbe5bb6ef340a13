//! The clauses of a script.

ghost use Rattle.std.specs.Prelude.{◌≡◌, ◌<◌, ◌^◌, List, length, map, slice_get, Some, Ok, Err, IfOk, IsErrOf, true};
ghost use Rattle.term_tree.specs.declared.node.TermId.{TermId};
ghost use Rattle.term_tree.specs.declared.node.OpKind.{OpKind};
ghost use Rattle.term_tree.specs.declared.node.Node.TheVariants.{Op};
ghost use Rattle.term_tree.specs.declared.refusal.Refusal.{Refusal};
ghost use Rattle.term_tree.specs.declared.script.Assertion.{Assertion};
ghost use Rattle.horn_shape.specs.Clause.{IsClauseOf, IsLegalScript};
ghost use Rattle.horn_shape.specs.Flags.{ArePlainFlags};
ghost use Rattle.clause_normal.specs.Reading.{all_clauses, normal_reading, refusal_at, system_reading};
ghost use Rattle.clause_form.specs.System.{are_clauses, is_clause};
ghost use Rattle.clause_normal.specs.machinery.Making.{AreTablesOf, HasFewArguments, MeansHorn, MeansNormal};

use crate::making::{has_number, normal_with};
use crate::stop::{ClauseStop, NormalStop};
use crate::tables::{Tables, tables_of};
use base::{Copied, Items, Memory};
use clause_form::{Clause, System};
use horn_shape::{HornClause, HornStop, PlainTerms, clause_with};
use std::alloc::Global;
use term_tree::{Assertion, Checked, Kind, Node, Pred, Refusal, Script, Sort, TermId, Terms};

/// The refusal of the assertion by that kind at that offset.
fn refusal_at(kind: Kind, offset: u64, assertion: Assertion) -> ClauseStop
    ensures { result ≡ ClauseStop.Refused (refusal_at kind offset assertion) }
{
    ClauseStop::Refused(Refusal {
        kind,
        offset,
        command: assertion.command,
    })
}

fn not_horn(stop: HornStop, assertion: Assertion) -> ClauseStop
    ensures { MeansHorn stop assertion result }
{
    match stop {
        HornStop::Memory => ClauseStop::Memory,
        HornStop::NotHorn { offset } => refusal_at(Kind::NotHorn, offset, assertion),
    }
}

fn not_normal(stop: NormalStop, assertion: Assertion) -> ClauseStop
    ensures { MeansNormal stop assertion result }
{
    match stop {
        NormalStop::Memory => ClauseStop::Memory,
        NormalStop::TooWide { offset } => refusal_at(Kind::TooWide, offset, assertion),
        NormalStop::Count { offset } => refusal_at(Kind::Count, offset, assertion),
    }
}

/// An operation has fewer than 2^63 arguments, as many as a list can hold, for a proof that needs it.
fn count_own(node: &Node)
    ensures { (op : OpKind) (args : List TermId) → node.now ≡ Op op args → length args < 2 ^ 63 }
{
    if let Node::Op { args, .. } = node {
        let _count = args.as_slice().len();
    }
}

/// Each operation in the terms has fewer than 2^63 arguments, for a proof that needs it of all terms.
fn count_arguments(terms: &Terms)
    ensures { HasFewArguments terms.now.nodes }
{
    for i in 0..terms.len() {
        let Ok(number) = u32::try_from(i) else {
            return;
        };
        count_own(terms.node(TermId(number)));
    }
}

/// The normal clause of the assertion's Horn clause, or its refusal.
fn read_normal(
    alloc: Global,
    script: &Script,
    tables: &Tables,
    clause: &HornClause,
    index: usize,
    assertion: Assertion,
) -> Result<Clause, ClauseStop>
    requires legal { IsLegalScript script.now }
    requires clause { IsClauseOf script.now index clause.now }
    requires tables { AreTablesOf script.now tables.now }
    requires few { HasFewArguments script.now.terms.nodes }
    requires there { slice_get script.now.asserts index ≡ Some assertion }
    ensures kept { IfOk result (λ made. is_clause (map (λ p. p.args) script.now.preds) made ≡ true) }
    ensures made { IfOk result (λ made. normal_reading script.now index assertion ≡ Ok made) }
    ensures refused { (refusal : Refusal) → IsErrOf result (ClauseStop.Refused refusal) → normal_reading script.now index assertion ≡ Err refusal }
{
    has_number(assertion.term);
    script.terms.arena_law();
    match normal_with(alloc, script, tables, clause) {
        Ok(made) => Ok(made),
        Err(stop) => Err(not_normal(stop, assertion)),
    }
}

/// The normal clause of the assertion of that number, or its refusal.
fn read_clause(
    alloc: Global,
    script: &Script,
    plain: &PlainTerms,
    tables: &Tables,
    index: usize,
    assertion: Assertion,
) -> Result<Clause, ClauseStop>
    requires there { slice_get script.now.asserts index ≡ Some assertion }
    requires legal { IsLegalScript script.now }
    requires flags { ArePlainFlags script.now.terms.nodes plain.now }
    requires tables { AreTablesOf script.now tables.now }
    requires few { HasFewArguments script.now.terms.nodes }
    ensures kept { IfOk result (λ clause. is_clause (map (λ p. p.args) script.now.preds) clause ≡ true) }
    ensures made { IfOk result (λ clause. normal_reading script.now index assertion ≡ Ok clause) }
    ensures refused { (refusal : Refusal) → IsErrOf result (ClauseStop.Refused refusal) → normal_reading script.now index assertion ≡ Err refusal }
{
    match clause_with(alloc, script, plain, index) {
        Ok(clause) => read_normal(alloc, script, tables, &clause, index, assertion),
        Err(stop) => Err(not_horn(stop, assertion)),
    }
}

/// The clauses of all assertions in order, or the first refusal.
fn read_all(alloc: Global, script: &Script) -> Result<Items<Clause>, ClauseStop>
    requires { IsLegalScript script.now }
    ensures kept { IfOk result (λ clauses. are_clauses (map (λ p. p.args) script.now.preds) clauses ≡ true) }
    ensures made { IfOk result (λ clauses. all_clauses script.now 0 script.now.asserts ≡ Ok clauses) }
    ensures refused { (refusal : Refusal) → IsErrOf result (ClauseStop.Refused refusal) → all_clauses script.now 0 script.now.asserts ≡ Err refusal }
{
    count_arguments(&script.terms);
    let plain = PlainTerms::of(alloc, &script.terms)?;
    let tables = tables_of(alloc, script.preds.as_slice(), &script.terms)?;
    let mut clauses = Items::new(alloc);
    for (index, assertion) in script.asserts.as_slice().iter().enumerate() {
        let clause = read_clause(alloc, script, &plain, &tables, index, *assertion)?;
        clauses.push(clause)?;
    }
    Ok(clauses)
}

/// The sorts of the arguments of each predicate.
fn argument_sorts(alloc: Global, preds: &[Pred]) -> Result<Items<Items<Sort>>, Memory>
    ensures { IfOk result (λ sorts. sorts ≡ map (λ p. p.args) preds.now) }
{
    let mut sorts = Items::new(alloc);
    for pred in preds {
        sorts.push(pred.args.copy(alloc)?)?;
    }
    Ok(sorts)
}

/// The clauses of the script's assertions, in their order. `Refused` has the first refusal of an
/// assertion: `NotHorn` at the first subterm that fits no form of a Horn clause, `TooWide` at the first
/// term without room, `Count` at the command. Without one it has the stop that the script has.
pub fn read_clauses(alloc: Global, checked: &Checked) -> Result<System, ClauseStop>
    requires { IsLegalScript checked.now.script }
    ensures made { IfOk result (λ system. system_reading checked.now ≡ Ok system) }
    ensures refused { (refusal : Refusal) → IsErrOf result (ClauseStop.Refused refusal) → system_reading checked.now ≡ Err refusal }
{
    let clauses = read_all(alloc, &checked.script)?;
    if let Some(refusal) = checked.stop {
        return Err(ClauseStop::Refused(refusal));
    }
    let preds = argument_sorts(alloc, checked.script.preds.as_slice())?;
    Ok(System::of_legal(clauses, preds))
}
