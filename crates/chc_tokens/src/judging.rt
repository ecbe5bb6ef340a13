ghost use Rattle.std.specs.Prelude.{◌≡◌, ◌↔◌, Some, option_map, IfOk, OnOk, IsErrOf, IsTrue, is_some, true};
ghost use Rattle.chc_tokens.specs.Instances.{token_atom_at, is_broken};
ghost use Rattle.chc_tokens.specs.Kept.{kept_lemma, kept_why};
ghost use Rattle.chc_tokens.specs.Queries.{query_at};
ghost use Rattle.chc_tokens.specs.Tokens.{IsKept, IsNoLift, IsNotBroken, IsOther, MayKeep, breaks};
ghost use Rattle.chc_tokens.specs.declared.goal.Goal.TheVariants.{Holds};
ghost use Rattle.refutation_trees.specs.KeptEvidence.{given_form};

use crate::asking::query_of_lemma;
use crate::keeping::NoLift;
use crate::seeing::Seen;
use crate::stop::TokenStop;
use crate::used::Used;
use crate::why::Why;
use base::{Memory, Same};
use clause_form::{Atom, System};
use cube_forms::{Lemma, Tuple};
use lin_atoms::Form;
use refutation_trees::GaveUp;
use std::alloc::Global;

/// Whether the head's tuple at the point breaks the lemma.
fn breaks_head(
    alloc: Global,
    head: &Option<Atom>,
    point: &[i64],
    lemma: &Lemma,
) -> Result<bool, Memory>
    ensures { IfOk result (λ b. b ≡ is_broken lemma.now (option_map (token_atom_at point.now) head.now)) }
{
    match head {
        Some(head) => {
            let tuple = Tuple::at(alloc, point, head.args.as_slice())?;
            Ok(lemma.excludes(tuple.as_slice()))
        }
        None => Ok(false),
    }
}

/// Whether the head of the instance breaks the lemma.
fn breaks(alloc: Global, sys: &System, seen: &Seen, lemma: &Lemma) -> Result<bool, Memory>
    ensures { IfOk result (λ b. b ≡ breaks sys.now seen.now lemma.now) }
{
    match sys.clauses().get(seen.clause() as usize) {
        Some(clause) => breaks_head(alloc, &clause.head, seen.point(), lemma),
        None => Ok(false),
    }
}

fn found_query(
    alloc: Global,
    sys: &System,
    clause: u32,
    lemma: &Lemma,
    used: &[Used],
) -> Result<Option<Form>, Memory>
    ensures { IfOk result (λ found. found ≡ query_at sys.now clause (Holds lemma.now) used.now) }
{
    match sys.clauses().get(clause as usize) {
        Some(clause) => query_of_lemma(alloc, clause, lemma, used),
        None => Ok(None),
    }
}

/// Whether the form that was given up is that of the query whether the lemma is broken.
fn is_asked(
    alloc: Global,
    sys: &System,
    lemma: &Lemma,
    clause: u32,
    used: &[Used],
    evidence: &GaveUp,
) -> Result<bool, Memory>
    requires { is_some (query_at sys.now clause (Holds lemma.now) used.now) ≡ true }
    ensures { IfOk result (λ b. IsTrue b ↔ (query_at sys.now clause (Holds lemma.now) used.now ≡ Some (given_form evidence.now))) }
{
    match found_query(alloc, sys, clause, lemma, used)? {
        Some(query) => Ok(query.equals(evidence.form())),
        None => unreachable!(),
    }
}

/// Nothing, where the reason keeps the lemma from being lifted, else why it doesn't.
fn judge(alloc: Global, sys: &System, lemma: &Lemma, why: &Why) -> Result<(), TokenStop>
    requires { MayKeep sys.now lemma.now why.now }
    ensures kept { OnOk result (IsKept sys.now lemma.now why.now) }
    ensures not_broken { IsErrOf result TokenStop.NotBroken → IsNotBroken sys.now lemma.now why.now }
    ensures other { IsErrOf result TokenStop.OtherForm → IsOther sys.now lemma.now why.now }
    ensures none { IsErrOf result TokenStop.NoInstance → ⊥ }
{
    match why {
        Why::Broken(seen) => {
            if breaks(alloc, sys, seen, lemma)? {
                Ok(())
            } else {
                Err(TokenStop::NotBroken)
            }
        }
        Why::Unknown {
            clause,
            used,
            evidence,
        } => {
            if is_asked(alloc, sys, lemma, *clause, used.as_slice(), evidence)? {
                Ok(())
            } else {
                Err(TokenStop::OtherForm)
            }
        }
    }
}

/// Keeps a lemma with what keeps it from being lifted: an instance whose head breaks it, or evidence
/// that the query whether there is one was given up. It is `NotBroken` exactly where the head of the
/// instance satisfies the lemma, and `OtherForm` exactly where the evidence is of another form.
pub fn no_lift(alloc: Global, sys: &System, lemma: Lemma, why: Why) -> Result<NoLift, TokenStop>
    requires { MayKeep sys.now lemma why }
    ensures lemma { IfOk result (λ n. kept_lemma n ≡ lemma) }
    ensures why { IfOk result (λ n. kept_why n ≡ why) }
    ensures no_lift { IfOk result (λ n. IsNoLift sys.now n) }
    ensures not_broken { IsErrOf result TokenStop.NotBroken → IsNotBroken sys.now lemma why }
    ensures other { IsErrOf result TokenStop.OtherForm → IsOther sys.now lemma why }
    ensures none { IsErrOf result TokenStop.NoInstance → ⊥ }
{
    judge(alloc, sys, &lemma, &why)?;
    Ok(NoLift { lemma, why })
}

/// Keeps a lemma with a reason that is known to keep it from being lifted, as when the very form that
/// `query_of` made was just given up. No form is made, and nothing is compared.
pub fn no_lift_by(sys: &System, lemma: Lemma, why: Why) -> NoLift
    requires { IsKept sys.now lemma why }
    ensures lemma { kept_lemma result ≡ lemma }
    ensures why { kept_why result ≡ why }
    ensures no_lift { IsNoLift sys.now result }
{
    let _sys = sys;
    NoLift { lemma, why }
}
