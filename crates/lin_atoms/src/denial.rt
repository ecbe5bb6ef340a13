ghost use Rattle.std.specs.Prelude.{◌≡◌, [], ◌∷◌, IfOk, OnOk, IsErrOf, pos, true, false};
ghost use Rattle.std.specs.List.{list_all};
ghost use Rattle.lin_atoms.specs.Linear.{fits};
ghost use Rattle.lin_atoms.specs.Algebra.{negated, plus};
ghost use Rattle.lin_atoms.specs.Denial.{denial, lit_fits};

use crate::lin::Lin;
use crate::lit::Lit;
use crate::stop::WideStop;
use base::{Copied, Items, Memory};
use std::alloc::Global;

fn one(alloc: Global, lit: Lit) -> Result<Items<Lit>, WideStop>
    ensures made { IfOk result (λ lits. lits ≡ lit ∷ []) }
    ensures narrow { IsErrOf result WideStop.Wide → ⊥ }
{
    let lits = Vec::from_array(alloc, [lit]).map_err(Memory::from)?;
    Ok(Items::from_vec(lits))
}

fn two(alloc: Global, first: Lit, second: Lit) -> Result<Items<Lit>, WideStop>
    ensures made { IfOk result (λ lits. lits ≡ first ∷ second ∷ []) }
    ensures narrow { IsErrOf result WideStop.Wide → ⊥ }
{
    let lits = Vec::from_array(alloc, [first, second]).map_err(Memory::from)?;
    Ok(Items::from_vec(lits))
}

/// 1 more than the form.
fn one_more(alloc: Global, lin: &Lin) -> Result<Lin, WideStop>
    ensures made { IfOk result (λ made. made ≡ plus lin.now (pos 1)) }
    ensures within { OnOk result (fits (plus lin.now (pos 1)) ≡ true) }
    ensures wide { IsErrOf result WideStop.Wide → fits (plus lin.now (pos 1)) ≡ false }
{
    lin.copy(alloc)?.plus(1).ok_or(WideStop::Wide)
}

/// 1 less the form.
fn one_less(alloc: Global, lin: &Lin) -> Result<Lin, WideStop>
    ensures made { IfOk result (λ made. made ≡ plus (negated lin.now) (pos 1)) }
    ensures within { OnOk result (fits (plus (negated lin.now) (pos 1)) ≡ true) }
    ensures wide { IsErrOf result WideStop.Wide → fits (plus (negated lin.now) (pos 1)) ≡ false }
{
    lin.negated(alloc)?.plus(1).ok_or(WideStop::Wide)
}

/// Literals, one or for an equality two, of which one is true exactly where this one is false.
/// There are none with numbers of this width exactly where a constant passes it.
pub fn denied(alloc: Global, lit: &Lit) -> Result<Items<Lit>, WideStop>
    ensures made { IfOk result (λ lits. lits ≡ denial lit.now) }
    ensures within { OnOk result (list_all lit_fits (denial lit.now) ≡ true) }
    ensures wide { IsErrOf result WideStop.Wide → list_all lit_fits (denial lit.now) ≡ false }
{
    match lit {
        Lit::Le(lin) => {
            let above = one_less(alloc, lin)?;
            one(alloc, Lit::Le(above))
        }
        Lit::Eq(lin) => {
            let below = one_more(alloc, lin)?;
            let above = one_less(alloc, lin)?;
            two(alloc, Lit::Le(below), Lit::Le(above))
        }
        Lit::Div(d, lin) => {
            let _constant = lin.constant();
            let kept = lin.copy(alloc)?;
            one(alloc, Lit::NDiv(*d, kept))
        }
        Lit::NDiv(d, lin) => {
            let _constant = lin.constant();
            let kept = lin.copy(alloc)?;
            one(alloc, Lit::Div(*d, kept))
        }
    }
}
