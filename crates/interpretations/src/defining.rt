//! The definitions of the predicates.

ghost use Rattle.std.specs.Prelude.{◌≡◌, ◌<◌, ◌^◌, ◌++◌, [], ◌∷◌, length, map, true, IfOk, IsErrOf, OnOk, ℕ};
ghost use Rattle.std.specs.List.{enumerate_from};
ghost use Rattle.cube_forms.specs.Cubes.{cube_is_below};
ghost use Rattle.lemma_frames.specs.Frames.{IsInFrame, lemma_of};
ghost use Rattle.answer_text.specs.Terms.{parameter_name};
ghost use Rattle.interpretations.specs.Definitions.{AreDefinitionsOf, HavePlaces, IsDefinitionOf};
ghost use Rattle.interpretations.specs.Size.{IsTooLarge};

use crate::conjunctions::defining_term;
use crate::kept::kept_lemmas;
use crate::stop::DefinitionStop;
use answer_text::push_parameter_name;
use base::{Items, Memory};
use lemma_frames::Frames;
use std::alloc::Global;
use term_tree::{Definition, Name, Pred, Sort, Terms};

/// The name of the parameter of that number.
fn parameter(alloc: Global, number: u64) -> Result<Name, Memory>
    ensures { IfOk result (λ name. name.bytes ≡ parameter_name number) }
{
    let mut bytes = Vec::new(alloc);
    push_parameter_name(&mut bytes, number)?;
    Ok(Name {
        bytes: Items::from_vec(bytes),
    })
}

/// The parameters of a predicate whose arguments have these sorts.
fn parameters(alloc: Global, sorts: &[Sort]) -> Result<Items<Name>, Memory>
    ensures { IfOk result (λ names. map (λ name. name.bytes) names ≡ map (λ p. parameter_name p.0) (enumerate_from 0 sorts.now)) }
{
    let mut names = Vec::new(alloc);
    for (number, _) in sorts.iter().enumerate() {
        names.push(parameter(alloc, number as u64)?)?;
    }
    Ok(Items::from_vec(names))
}

/// The predicate of that number, defined by the lemmas of the level's frame on it.
fn definition(
    alloc: Global,
    frames: &Frames,
    level: u32,
    number: u32,
    pred: &Pred,
) -> Result<Definition, DefinitionStop>
    requires there { number < frames.now.preds }
    requires places { (n : ℕ) → IsInFrame frames.now.lemmas number level n → cube_is_below (length pred.now.args) (lemma_of frames.now.lemmas n) ≡ true }
    ensures made { IfOk result (λ definition. IsDefinitionOf frames.now.lemmas level number pred.now definition) }
    ensures full { IsErrOf result DefinitionStop.Full → IsTooLarge frames.now.lemmas level }
{
    let sorts = pred.args.as_slice();
    let params = parameters(alloc, sorts)?;
    let kept = kept_lemmas(alloc, frames, number, level)?;
    let mut terms = Terms::new(alloc);
    let body = defining_term(alloc, &mut terms, sorts, kept.as_slice())?;
    terms.arena_law();
    Ok(Definition {
        pred: number,
        params,
        terms,
        body,
    })
}

/// One definition more.
fn add(definitions: &mut Vec<Definition>, one: Definition) -> Result<(), Memory>
    ensures { OnOk result (definitions.new.items ≡ definitions.old.items ++ one ∷ []) }
{
    definitions.push(one)?;
    Ok(())
}

/// One definition for each predicate, in the order of declaration: its parameters are `x0`, `x1` and
/// so on, and its term is made of the lemmas of this level or more on it, as they are printed. At
/// the level of a sat end they are a solution. `Full` comes only where the lemmas on some predicate
/// have some 2^32 nodes.
pub fn solution(
    alloc: Global,
    preds: &[Pred],
    frames: &Frames,
    level: u32,
) -> Result<Items<Definition>, DefinitionStop>
    requires few { length preds.now < 2 ^ 32 }
    requires preds { length preds.now ≡ frames.now.preds }
    requires places { HavePlaces preds.now frames.now.lemmas }
    ensures made { IfOk result (λ definitions. AreDefinitionsOf frames.now.lemmas level 0 preds.now definitions) }
    ensures full { IsErrOf result DefinitionStop.Full → IsTooLarge frames.now.lemmas level }
{
    let mut definitions = Vec::new(alloc);
    for (number, pred) in preds.iter().enumerate() {
        let one = definition(alloc, frames, level, number as u32, pred)?;
        add(&mut definitions, one)?;
    }
    Ok(Items::from_vec(definitions))
}
