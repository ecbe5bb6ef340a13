//! Names of variables.

ghost use Rattle.std.specs.Prelude.{◌≡◌, ◌<◌, ◌+◌, ◌++◌, ◌^◌, ℕ, Some, length, map, unwrap_or, IfOk, OnOk};
ghost use Rattle.std.specs.Ordering.{nat_cmp};
ghost use Rattle.std.specs.BTreeMap.{get};
ghost use Rattle.term_tree.specs.declared.sort.Sort.TheVariants.{Int as IntSort};
ghost use Rattle.term_tables.specs.machinery.Table.{sort_in};
ghost use Rattle.term_formulas.specs.Written.{naming_by};
ghost use Rattle.term_widths.specs.machinery.Apart.{placed_naming};

use base::{Items, Memory};
use std::alloc::Global;
use std::collections::BTreeMap;
use term_forms::Names;
use term_tables::SortTable;
use term_tree::{Sort, TermId};

fn keep(auxiliary: &mut BTreeMap<u32, u32>, id: u32, variable: u32) -> Result<(), Memory>
    ensures here { OnOk result (get nat_cmp auxiliary.new id ≡ Some variable) }
    ensures others { OnOk result ((q : ℕ) → (id ≡ q → ⊥) → get nat_cmp auxiliary.new q ≡ get nat_cmp auxiliary.old q) }
{
    auxiliary.insert(id, variable)?;
    Ok(())
}

/// Names under which variables stand for these, and the auxiliary ones of the places are numbered from
/// `first` on. A place that stands twice has its first number.
pub fn names_over(alloc: Global, own: Vec<u32>, first: u32, placed: &[u32]) -> Result<Names, Memory>
    requires { first + length placed.now < 2 ^ 32 }
    ensures { IfOk result (λ names. naming_by names ≡ placed_naming own.items first placed.now) }
{
    let mut auxiliary = BTreeMap::new(alloc);
    let mut left = placed.len();
    while left > 0 {
        left -= 1;
        keep(&mut auxiliary, placed[left], first + left as u32)?;
    }
    Ok(Names { own, auxiliary })
}

fn sort_or_int(sort: Option<Sort>) -> Sort
    ensures { result ≡ unwrap_or sort IntSort }
{
    sort.unwrap_or(Sort::Int)
}

/// The sorts of an assertion's own variables, and then those of its auxiliary ones.
pub(crate) fn sorts_of(
    alloc: Global,
    sorts: &SortTable,
    own: &[Sort],
    placed: &[u32],
) -> Result<Items<Sort>, Memory>
    ensures { IfOk result (λ all. all ≡ own.now ++ map (λ id. unwrap_or (sort_in sorts.now id) IntSort) placed.now) }
{
    let mut all = Items::from_slice(alloc, own)?;
    for id in placed {
        all.push(sort_or_int(sorts.sort(TermId(*id))))?;
    }
    Ok(all)
}
