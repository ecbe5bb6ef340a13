ghost use Rattle.std.specs.Prelude.{◌≡◌, ◌<◌, ◌≤◌, ◌^◌, ◌*◌, ◌+◌, ◌++◌, IfOk, OnOk, decimal};
ghost use Rattle.clause_gen.specs.Generated.{root_number};
ghost use Rattle.gen_text.specs.Texts.{generated_text, leaves_text, parents_text, root_text, script_text};

use base::Memory;
use itoa::Buffer;
use std::alloc::Global;

/// The number of the root, by one step of a linear congruential generator.
fn start_of(seed: u32) -> u64
    ensures value { result ≡ root_number seed }
    ensures small { result < 1000 }
{
    let step = 1_103_515_245 * u64::from(seed) + 12_345;
    step % 2_147_483_648 % 1000
}

fn power_of_two(depth: u32) -> u64
    requires { depth ≤ 12 }
    ensures value { result ≡ 2 ^ depth }
    ensures small { result < 2 ^ 13 }
{
    2u64.pow(depth)
}

/// Appends the number's digits.
fn push_number(out: &mut Vec<u8>, number: u64) -> Result<(), Memory>
    ensures { OnOk result (out.new.items ≡ out.old.items ++ decimal number) }
{
    let mut buffer = Buffer::new();
    out.extend_from_slice(buffer.format(number).as_bytes())?;
    Ok(())
}

/// Every number from `low` to `high` is a node of depth 0.
fn push_leaves(out: &mut Vec<u8>, low: u64, high: u64) -> Result<(), Memory>
    ensures { OnOk result (out.new.items ≡ out.old.items ++ leaves_text low high) }
{
    out.extend_from_slice(b"(assert (forall ((d Int) (i Int)) (=> (and (= d 0) (<= ")?;
    push_number(out, low)?;
    out.extend_from_slice(b" i) (< i ")?;
    push_number(out, high)?;
    out.extend_from_slice(b")) (node d i))))\n")?;
    Ok(())
}

/// A node stands over its two children.
fn push_parents(out: &mut Vec<u8>) -> Result<(), Memory>
    ensures { OnOk result (out.new.items ≡ out.old.items ++ parents_text) }
{
    out.extend_from_slice(
        b"(assert (forall ((d Int) (i Int)) (=> (and (node d (* 2 i)) (node d (+ (* 2 i) 1))) (node (+ d 1) i))))\n",
    )?;
    Ok(())
}

/// The root is no node.
fn push_root(out: &mut Vec<u8>, depth: u64, start: u64) -> Result<(), Memory>
    ensures { OnOk result (out.new.items ≡ out.old.items ++ root_text depth start) }
{
    out.extend_from_slice(b"(assert (not (node ")?;
    push_number(out, depth)?;
    out.extend_from_slice(b" ")?;
    push_number(out, start)?;
    out.extend_from_slice(b")))\n")?;
    Ok(())
}

/// All commands, where the leaves are the numbers from `low` to `high`, and the root has that depth and
/// number.
fn push_script(out: &mut Vec<u8>, low: u64, high: u64, depth: u64, start: u64) -> Result<(), Memory>
    ensures { OnOk result (out.new.items ≡ out.old.items ++ script_text low high depth start) }
{
    out.extend_from_slice(b"(set-logic HORN)\n(declare-fun node (Int Int) Bool)\n")?;
    push_leaves(out, low, high)?;
    push_parents(out)?;
    push_root(out, depth, start)?;
    out.extend_from_slice(b"(check-sat)\n")?;
    Ok(())
}

/// The text of the generated script of that depth and seed.
pub fn text_of(alloc: Global, depth: u32, seed: u32) -> Result<Vec<u8>, Memory>
    requires depth { depth ≤ 12 }
    requires seed { seed < 2 ^ 31 }
    ensures { IfOk result (λ text. text.items ≡ generated_text depth seed) }
{
    let start = start_of(seed);
    let width = power_of_two(depth);
    let low = start * width;
    let high = (start + 1) * width;
    let mut text = Vec::new(alloc);
    push_script(&mut text, low, high, u64::from(depth), start)?;
    Ok(text)
}
