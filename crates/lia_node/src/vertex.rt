//! What a vertex tells.

ghost use Rattle.std.specs.Prelude.{◌≡◌, ◌<◌, ◌^◌, length, map, IfOk, IfSome, IsNone, true, false, slice_index_or};
ghost use Rattle.std.specs.List.{list_all};
ghost use Rattle.lin_atoms.specs.Linear.{is_short};
ghost use Rattle.lin_atoms.specs.Ratio.{Fraction};
ghost use Rattle.lia_node.specs.Vertices.{floored, is_whole};
ghost use Rattle.lia_node.specs.machinery.Values.{IsOfValues};

use crate::examined::Examined;
use base::Memory;
use lin_atoms::Ratio;
use std::alloc::Global;

/// The value rounded down.
fn floored(ratio: &Ratio) -> i64
    requires { is_short (floored ratio.now) ≡ true }
    ensures is { result ≡ floored ratio.now }
    ensures short { is_short result ≡ true }
{
    ratio.num().div_euclid(ratio.den()) as i64
}

/// Whether the value is an integer.
fn is_whole(ratio: &Ratio) -> bool
    ensures { result ≡ is_whole ratio.now }
{
    ratio.num().rem_euclid(ratio.den()) == 0
}

/// The first of the values that isn't an integer.
fn first_fraction(ratios: &[Ratio]) -> Option<usize>
    ensures within { IfSome result (λ v. v < length ratios.now) }
    ensures some { IfSome result (λ v. (d : Fraction) → is_whole (slice_index_or ratios.now v d) ≡ false) }
    ensures none { IsNone result → list_all is_whole ratios.now ≡ true }
{
    for (v, ratio) in ratios.iter().enumerate() {
        if !is_whole(ratio) {
            return Some(v);
        }
    }
    None
}

/// The value of this number, rounded down.
fn floor_at(ratios: &[Ratio], v: usize) -> i64
    requires within { v < length ratios.now }
    requires short { list_all (λ q. is_short (floored q)) ratios.now ≡ true }
    ensures { (d : Fraction) → result ≡ floored (slice_index_or ratios.now v d) }
{
    floored(&ratios[v])
}

/// The values rounded down.
fn floors(alloc: Global, ratios: &[Ratio]) -> Result<Vec<i64>, Memory>
    requires { list_all (λ q. is_short (floored q)) ratios.now ≡ true }
    ensures is { IfOk result (λ made. made.items ≡ map floored ratios.now) }
    ensures short { IfOk result (λ made. list_all is_short made.items ≡ true) }
{
    let mut made = Vec::with_capacity(alloc, ratios.len())?;
    for ratio in ratios {
        made.push(floored(ratio))?;
    }
    Ok(made)
}

/// A value that isn't an integer, or all values rounded down, where each is one.
pub(crate) fn of_values(alloc: Global, ratios: &[Ratio]) -> Result<Examined, Memory>
    requires short { list_all (λ q. is_short (floored q)) ratios.now ≡ true }
    requires few { length ratios.now < 2 ^ 32 }
    ensures { IfOk result (λ answer. IsOfValues ratios.now answer) }
{
    match first_fraction(ratios) {
        Some(v) => Ok(Examined::Fraction {
            variable: v as u32,
            floor: floor_at(ratios, v),
        }),
        None => {
            let point = floors(alloc, ratios)?;
            Ok(Examined::Model(point))
        }
    }
}
