ghost use Rattle.std.specs.Prelude.{◌≡◌, true, false, IfOk, OnOk, IsErrOf};
ghost use Rattle.cube_forms.specs.Cubes.{cube_at, has_room, lit_at};
ghost use Rattle.lin_atoms.specs.Denial.{lit_fits};

use base::Memory;
use lin_atoms::{Lit, WideStop};
use std::alloc::Global;

/// The literal with each place replaced by its argument, the coefficients of one variable added
/// up. A place past the end keeps its number.
pub fn lit_at(alloc: Global, lit: &Lit, args: &[u32]) -> Result<Lit, WideStop>
    ensures made { IfOk result (λ made. made ≡ lit_at args.now lit.now) }
    ensures within { OnOk result (lit_fits (lit_at args.now lit.now) ≡ true) }
    ensures wide { IsErrOf result WideStop.Wide → lit_fits (lit_at args.now lit.now) ≡ false }
{
    match lit {
        Lit::Le(lin) => Ok(Lit::Le(lin.renamed(alloc, args)?)),
        Lit::Eq(lin) => Ok(Lit::Eq(lin.renamed(alloc, args)?)),
        Lit::Div(d, lin) => Ok(Lit::Div(*d, lin.renamed(alloc, args)?)),
        Lit::NDiv(d, lin) => Ok(Lit::NDiv(*d, lin.renamed(alloc, args)?)),
    }
}

/// The literals so.
pub(crate) fn lits_at(alloc: Global, lits: &[Lit], args: &[u32]) -> Result<Vec<Lit>, WideStop>
    ensures made { IfOk result (λ made. made.items ≡ cube_at args.now lits.now) }
    ensures within { OnOk result (has_room args.now lits.now ≡ true) }
    ensures wide { IsErrOf result WideStop.Wide → has_room args.now lits.now ≡ false }
{
    let mut made = Vec::new(alloc);
    for lit in lits {
        let placed = lit_at(alloc, lit, args)?;
        made.push(placed).map_err(Memory::from)?;
    }
    Ok(made)
}
