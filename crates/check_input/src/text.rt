//! Verdicts, printed.

ghost use Rattle.std.specs.Prelude.{◌≡◌, ◌<◌, ◌++◌, ◌-◌, [], codes, decimal, IfOk, OnOk, ℕ, List};
ghost use Rattle.term_tree.specs.declared.script.Script.{Script as AScript};
ghost use Rattle.term_tree.specs.declared.sort.Sort.{Sort as ASort};
ghost use Rattle.term_tree.specs.Truth.{as_values};
ghost use Rattle.horn_shape.specs.Clause.{IsClauseOf, IsLegalScript};
ghost use Rattle.answer_text.specs.Names.{spaced, value_text};
ghost use Rattle.chc_checker.specs.declared.verdict.Verdict.TheVariants.{Wrong};
ghost use Rattle.chc_checker.specs.Verdicts.{Judges};
ghost use Rattle.check_input.specs.Texts.{AreSortsFor, AreSortsOf, IsAssertionOf, IsVerdictText, hidden_text, place_text, verdict_text};

use crate::pieces::{push_numeral, push_short, push_sum, push_values, values_at};
use base::Memory;
use chc_checker::{Hidden, Place, Verdict};
use horn_shape::{HornClause, HornStop, clause_of};
use std::alloc::Global;
use term_tree::{Script, Sort, Value};

fn push_assertion(out: &mut Vec<u8>, number: u32) -> Result<(), Memory>
    ensures { OnOk result (out.new.items ≡ out.old.items ++ (codes "; assertion " ++ decimal number)) }
{
    out.extend_from_slice(b"; assertion ")?;
    push_short(out, number)?;
    Ok(())
}

fn push_at(out: &mut Vec<u8>, values: &[Value]) -> Result<(), Memory>
    ensures { OnOk result (out.new.items ≡ out.old.items ++ (codes " at (" ++ spaced value_text values.now ++ codes ")\n")) }
{
    out.extend_from_slice(b" at (")?;
    push_values(out, values)?;
    out.extend_from_slice(b")\n")?;
    Ok(())
}

fn push_instance(
    alloc: Global,
    out: &mut Vec<u8>,
    sorts: &[Sort],
    assertion: u32,
    numbers: &[i64],
) -> Result<(), Memory>
    ensures { OnOk result (out.new.items ≡ out.old.items ++ (codes "; assertion " ++ decimal assertion ++ codes " at (" ++ spaced value_text (as_values sorts.now numbers.now) ++ codes ")\n")) }
{
    let values = values_at(alloc, sorts, numbers)?;
    push_assertion(out, assertion)?;
    push_at(out, values.as_slice())?;
    Ok(())
}

fn push_place(
    alloc: Global,
    out: &mut Vec<u8>,
    start: u64,
    sorts: &[Sort],
    place: &Place,
) -> Result<(), Memory>
    ensures { OnOk result (out.new.items ≡ out.old.items ++ place_text start sorts.now place.now) }
{
    match place {
        Place::Byte(offset) => {
            out.extend_from_slice(b"; byte ")?;
            push_sum(out, start, *offset)?;
            out.extend_from_slice(b"\n")?;
        }
        Place::Step(number) => {
            out.extend_from_slice(b"; step ")?;
            push_numeral(out, *number)?;
            out.extend_from_slice(b"\n")?;
        }
        Place::Instance { assertion, values } => {
            push_instance(alloc, out, sorts, *assertion, values.as_slice())?
        }
    }
    Ok(())
}

fn push_hidden(out: &mut Vec<u8>, hidden: &Hidden) -> Result<(), Memory>
    ensures { OnOk result (out.new.items ≡ out.old.items ++ hidden_text hidden.now) }
{
    match hidden {
        Hidden::Assertion(number) => {
            out.extend_from_slice(b"; assertion ")?;
            push_short(out, *number)?;
            out.extend_from_slice(b"\n")?;
        }
        Hidden::Step(number) => {
            out.extend_from_slice(b"; step ")?;
            push_numeral(out, *number)?;
            out.extend_from_slice(b"\n")?;
        }
    }
    Ok(())
}

/// The text of a verdict, where the answer begins there, and the variables of the assertion that it
/// tells an instance of have these sorts.
fn verdict_text(
    alloc: Global,
    start: u64,
    sorts: &[Sort],
    verdict: &Verdict,
) -> Result<Vec<u8>, Memory>
    ensures { IfOk result (λ text. text.items ≡ verdict_text start sorts.now verdict.now) }
{
    let mut out = Vec::new(alloc);
    match verdict {
        Verdict::Valid => out.extend_from_slice(b"valid\n")?,
        Verdict::Wrong { place } => {
            out.extend_from_slice(b"wrong\n")?;
            push_place(alloc, &mut out, start, sorts, place)?;
        }
        Verdict::NotShown { place, .. } => {
            out.extend_from_slice(b"not shown\n")?;
            push_hidden(&mut out, place)?;
        }
    }
    Ok(out)
}

/// The text of a verdict that tells no instance.
fn plain_text(alloc: Global, start: u64, verdict: &Verdict) -> Result<Vec<u8>, Memory>
    ensures { (script : AScript) → AreSortsFor script verdict.now [] → IfOk result (λ text. IsVerdictText script start verdict.now text.items) }
{
    let text = verdict_text(alloc, start, &[], verdict)?;
    Ok(text)
}

/// The clause of the assertion of that number, from 1.
fn clause_at(alloc: Global, script: &Script, assertion: u32) -> Result<HornClause, Memory>
    requires legal { IsLegalScript script.now }
    requires from_one { 0 < assertion }
    requires there { IsAssertionOf script.now assertion }
    ensures { IfOk result (λ clause. IsClauseOf script.now (assertion - 1) clause) }
{
    match clause_of(alloc, script, assertion as usize - 1) {
        Ok(clause) => Ok(clause),
        Err(HornStop::Memory) => Err(Memory),
        Err(HornStop::NotHorn { .. }) => unreachable!(),
    }
}

/// The text of a verdict that tells an instance of the assertion of that number, from 1.
fn instance_text(
    alloc: Global,
    script: &Script,
    start: u64,
    verdict: &Verdict,
    assertion: u32,
) -> Result<Vec<u8>, Memory>
    requires legal { IsLegalScript script.now }
    requires there { IsAssertionOf script.now assertion }
    ensures { ((sorts : List ASort) → AreSortsOf script.now assertion sorts → AreSortsFor script.now verdict.now sorts) → IfOk result (λ text. IsVerdictText script.now start verdict.now text.items) }
{
    let clause = clause_at(alloc, script, assertion)?;
    let sorts = clause.vars.as_slice();
    let text = verdict_text(alloc, start, sorts, verdict)?;
    Ok(text)
}

/// The text of a verdict that tells a place where the answer is wrong.
fn wrong_text(
    alloc: Global,
    script: &Script,
    start: u64,
    verdict: &Verdict,
    place: &Place,
) -> Result<Vec<u8>, Memory>
    requires legal { IsLegalScript script.now }
    requires judges { (nodes : ℕ) × (bytes : List ℕ) × Judges nodes script.now bytes verdict.now }
    requires is { verdict.now ≡ Wrong place.now }
    ensures { IfOk result (λ text. IsVerdictText script.now start verdict.now text.items) }
{
    match place {
        Place::Byte(offset) => {
            let _offset = offset;
            plain_text(alloc, start, verdict)
        }
        Place::Step(number) => {
            let _number = number;
            plain_text(alloc, start, verdict)
        }
        Place::Instance { assertion, values } => {
            let _values = values;
            instance_text(alloc, script, start, verdict, *assertion)
        }
    }
}

/// The text of a verdict on an answer to the script that begins at `start` of the input.
pub(crate) fn text_of(
    alloc: Global,
    script: &Script,
    start: u64,
    verdict: &Verdict,
) -> Result<Vec<u8>, Memory>
    requires legal { IsLegalScript script.now }
    requires judges { (nodes : ℕ) × (bytes : List ℕ) × Judges nodes script.now bytes verdict.now }
    ensures { IfOk result (λ text. IsVerdictText script.now start verdict.now text.items) }
{
    match verdict {
        Verdict::Valid => plain_text(alloc, start, verdict),
        Verdict::Wrong { place } => wrong_text(alloc, script, start, verdict, place),
        Verdict::NotShown { place, evidence } => {
            let _place = place;
            let _evidence = evidence;
            plain_text(alloc, start, verdict)
        }
    }
}
