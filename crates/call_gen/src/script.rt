//! The script, as one that was checked.

ghost use Rattle.std.specs.Prelude.{◌≡◌, ◌≤◌, ◌<◌, ◌^◌, IfOk};
ghost use Rattle.term_tree.specs.Arena.{IsArena};
ghost use Rattle.horn_shape.specs.Clause.{IsLegalScript};
ghost use Rattle.call_gen.specs.Summaries.{generated};

use base::Memory;
use clause_gen::{generated_terms_are_legal, script_of};
use std::alloc::Global;
use term_tree::{Checked, Script};

/// The script of that depth and seed.
fn made(alloc: Global, depth: u32, seed: u32) -> Result<Script, Memory>
    requires depth { depth ≤ 12 }
    requires seed { seed < 2 ^ 31 }
    ensures is { IfOk result (λ script. script ≡ (generated depth seed).script) }
    ensures arena { IfOk result (λ script. IsArena script.terms.nodes) }
{
    let script = script_of(alloc, depth, seed)?;
    script.terms.arena_law();
    Ok(script)
}

/// The script of that depth and seed, of which nothing is refused.
pub(crate) fn checked_of(alloc: Global, depth: u32, seed: u32) -> Result<Checked, Memory>
    requires depth { depth ≤ 12 }
    requires seed { seed < 2 ^ 31 }
    ensures is { IfOk result (λ checked. checked ≡ generated depth seed) }
    ensures arena { IfOk result (λ checked. IsArena checked.script.terms.nodes) }
    ensures legal { IfOk result (λ checked. IsLegalScript checked.script) }
{
    let script = made(alloc, depth, seed)?;
    // A law, which runs nothing: the assertions are legal.
    generated_terms_are_legal();
    Ok(Checked { script, stop: None })
}
