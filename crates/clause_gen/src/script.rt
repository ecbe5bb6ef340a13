ghost use Rattle.std.specs.Prelude.{◌≡◌, ◌<◌, ◌≤◌, ◌^◌, ◌*◌, ◌+◌, pos, IfOk, IsTrue, length, codes};
ghost use Rattle.base.specs.Widths.{short_limit};
ghost use Rattle.clause_gen.specs.Generated.{root_number, generated_nodes, generated_asserts, generated_preds, generated_script};
ghost use Rattle.clause_gen.specs.machinery.Order.{are_in_order};

use crate::arena::terms_of;
use crate::pieces::{children, leaves, parent, query};
use base::{Items, Memory};
use std::alloc::Global;
use term_tree::{Assertion, Name, Node, Pred, Script, Sort, TermId};

/// The number of the root, by one step of a linear congruential generator.
fn start_of(seed: u32) -> u32
    ensures value { result ≡ root_number seed }
    ensures small { result < 1000 }
{
    let step = 1_103_515_245 * u64::from(seed) + 12_345;
    (step % 2_147_483_648 % 1000) as u32
}

fn power_of_two(depth: u32) -> u64
    requires { depth ≤ 12 }
    ensures value { result ≡ 2 ^ depth }
    ensures small { result < 2 ^ 13 }
{
    2u64.pow(depth)
}

fn signed(n: u64) -> i64
    requires { n < short_limit }
    ensures { result ≡ pos n }
{
    n as i64
}

fn nodes(alloc: Global, depth: u32, start: u32) -> Result<Vec<Node>, Memory>
    requires depth { depth ≤ 12 }
    requires start { start < 1000 }
    ensures { IfOk result (λ nodes. nodes.items ≡ generated_nodes depth start) }
{
    let width = power_of_two(depth);
    let start = u64::from(start);
    let low = signed(start * width);
    let high = signed((start + 1) * width);
    let mut nodes = Vec::new(alloc);
    leaves(alloc, &mut nodes, low, high)?;
    children(alloc, &mut nodes)?;
    parent(alloc, &mut nodes)?;
    query(alloc, &mut nodes, i64::from(depth), signed(start))?;
    Ok(nodes)
}

fn assertion(term: u32, command: u32) -> Assertion
    ensures { result ≡ record { term = record { 0 = term }; offset = 0; command = command } }
{
    Assertion {
        term: TermId(term),
        offset: 0,
        command,
    }
}

fn asserts(alloc: Global) -> Result<Items<Assertion>, Memory>
    ensures { IfOk result (λ asserts. asserts ≡ generated_asserts) }
{
    let mut asserts = Items::new(alloc);
    asserts.push(assertion(14, 2))?;
    asserts.push(assertion(34, 3))?;
    asserts.push(assertion(38, 4))?;
    Ok(asserts)
}

fn preds(alloc: Global) -> Result<Items<Pred>, Memory>
    ensures { IfOk result (λ preds. preds ≡ generated_preds) }
{
    let bytes = Items::from_slice(alloc, b"node")?;
    let args = Items::from_slice(alloc, &[Sort::Int, Sort::Int])?;
    let name = Name { bytes };
    let mut preds = Items::new(alloc);
    preds.push(Pred { name, args })?;
    Ok(preds)
}

/// The script of that depth and seed.
pub fn script_of(alloc: Global, depth: u32, seed: u32) -> Result<Script, Memory>
    requires depth { depth ≤ 12 }
    requires seed { seed < 2 ^ 31 }
    ensures { IfOk result (λ script. script ≡ generated_script depth seed) }
{
    let nodes = nodes(alloc, depth, start_of(seed))?;
    let terms = terms_of(alloc, nodes.as_slice())?;
    let preds = preds(alloc)?;
    let asserts = asserts(alloc)?;
    Ok(Script {
        preds,
        asserts,
        terms,
    })
}
