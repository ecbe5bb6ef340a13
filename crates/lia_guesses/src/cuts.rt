//! Cuts: combinations of bounds that a vertex meets, divided by the entry of a basic variable with a
//! fraction, and rounded.

use crate::chain::Chain;
use crate::conflicts::of_conflict;
use crate::joining::join_all;
use crate::parts::set_sides;
use crate::rows::taken;
use crate::said::Said;
use crate::sides::{Bound, Sides, all_sides, meet_all};
use base::Memory;
use int_rows::Tableau;
use lin_atoms::{Lin, Lit, Ratio};
use simplex_core::{Feasible, feasible};
use std::alloc::Global;

/// A bound on how many cuts are added at once.
const MOST_CUTS: usize = 4;

/// Cuts, and how these are derived.
#[derive(Drop)]
struct Cuts {
    found: Vec<Said>,
    chain: Chain,
}

/// A bound that the vertex meets.
#[derive(Clone, Copy)]
struct Met {
    bound: Bound,
    /// 1 for an upper bound, -1 for a lower one.
    sign: i128,
}

/// Whether the ratio is the integer.
fn is_at(ratio: &Ratio, bound: Bound) -> bool {
    ratio.den() == 1 && ratio.num() == bound.value
}

/// The bound of a column that the vertex meets, with the multiplier of a cut.
fn bound_met(own: &Sides, ratio: &Ratio, entry: i128, divisor: i128) -> Option<(Met, i128)> {
    if let Some(bound) = own.lower {
        if is_at(ratio, bound) {
            return Some((Met { bound, sign: -1 }, entry.checked_rem_euclid(divisor)?));
        }
    }
    let bound = own.upper?;
    if is_at(ratio, bound) {
        let times = entry.checked_neg()?.checked_rem_euclid(divisor)?;
        return Some((Met { bound, sign: 1 }, times));
    }
    None
}

/// What a row is made a cut of.
#[derive(Drop)]
struct Sum {
    /// The coefficients of the variables and quotients.
    coefficients: Vec<i128>,
    constant: i128,
    multipliers: Vec<(u32, i64)>,
}

fn add_to(coefficients: &mut [i128], variable: u32, coefficient: i128, times: i128) -> Option<()> {
    let own = coefficients.get_mut(variable as usize)?;
    *own = own.checked_add(coefficient.checked_mul(times)?)?;
    Some(())
}

fn add_terms(coefficients: &mut [i128], terms: &[(u32, i128)], times: i128) -> Option<()> {
    for (variable, coefficient) in terms {
        if add_to(coefficients, *variable, *coefficient, times).is_none() {
            return None;
        }
    }
    Some(())
}

impl Sum {
    /// Adds `times` times a column's form.
    fn add_form(&mut self, forms: &[Vec<(u32, i128)>], column: usize, times: i128) -> Option<()> {
        let variables = self.coefficients.len();
        if column < variables {
            return add_to(
                self.coefficients.as_mut_slice(),
                u32::try_from(column).ok()?,
                1,
                times,
            );
        }
        let terms = forms.get(column - variables)?;
        add_terms(self.coefficients.as_mut_slice(), terms.as_slice(), times)
    }

    /// Adds `times` times the literal that a bound of a column is.
    fn add_bound(
        &mut self,
        forms: &[Vec<(u32, i128)>],
        column: usize,
        met: Met,
        times: i128,
    ) -> Option<()> {
        let signed = met.sign.checked_mul(times)?;
        self.add_form(forms, column, signed)?;
        let value = signed.checked_mul(met.bound.value)?;
        self.constant = self.constant.checked_sub(value)?;
        Some(())
    }
}

/// What is known of the columns at a vertex.
#[derive(Drop)]
struct Vertex<'a> {
    forms: &'a [Vec<(u32, i128)>],
    sides: &'a [Sides],
    ratios: &'a [Ratio],
}

/// A column of the row joins the sum, where it has to. Not where it is at no bound.
fn add_column(
    alloc: Global,
    chain: &mut Chain,
    sum: &mut Sum,
    vertex: &Vertex,
    column: usize,
    entry: i64,
    divisor: i64,
) -> Result<bool, Memory> {
    if entry.checked_rem(divisor) == Some(0) {
        return Ok(true);
    }
    let (Some(own), Some(ratio)) = (vertex.sides.get(column), vertex.ratios.get(column)) else {
        return Ok(false);
    };
    let Some((met, times)) = bound_met(own, ratio, i128::from(entry), i128::from(divisor)) else {
        return Ok(false);
    };
    let (Some(()), Ok(short)) = (
        sum.add_bound(vertex.forms, column, met, times),
        i64::try_from(times),
    ) else {
        return Ok(false);
    };
    let own = taken(alloc, chain, met.bound, short)?;
    sum.multipliers.push(own)?;
    Ok(true)
}

/// The columns of the row join the sum. Whether all can.
fn add_columns(
    alloc: Global,
    chain: &mut Chain,
    sum: &mut Sum,
    vertex: &Vertex,
    entries: &[i64],
    divisor: i64,
) -> Result<bool, Memory> {
    for (column, entry) in entries.iter().enumerate() {
        if !add_column(alloc, chain, sum, vertex, column, *entry, divisor)? {
            return Ok(false);
        }
    }
    Ok(true)
}

/// A coefficient divided by the number, where that divides it.
fn divided(coefficient: i128, divisor: i128) -> Option<i64> {
    if coefficient.checked_rem(divisor)? != 0 {
        return None;
    }
    i64::try_from(coefficient.checked_div(divisor)?).ok()
}

/// The term of a variable that occurs, divided, where that has room. Whether it has.
fn put_divided(
    terms: &mut Vec<(u32, i64)>,
    variable: usize,
    coefficient: i128,
    divisor: i128,
) -> Result<bool, Memory> {
    if coefficient == 0 {
        return Ok(true);
    }
    match (u32::try_from(variable), divided(coefficient, divisor)) {
        (Ok(variable), Some(coefficient)) => {
            terms.push((variable, coefficient))?;
            Ok(true)
        }
        _ => Ok(false),
    }
}

/// The sum divided and rounded, where a variable is left.
fn rounded(alloc: Global, sum: &Sum, divisor: i128) -> Result<Option<Lin>, Memory> {
    let mut terms = Vec::new(alloc);
    for (variable, coefficient) in sum.coefficients.iter().enumerate() {
        if !put_divided(&mut terms, variable, *coefficient, divisor)? {
            return Ok(None);
        }
    }
    if terms.is_empty() {
        return Ok(None);
    }
    match ceiling(sum.constant, divisor) {
        Some(constant) => Ok(Lin::new(terms, constant).ok()),
        None => Ok(None),
    }
}

/// The quotient rounded up.
fn ceiling(constant: i128, divisor: i128) -> Option<i128> {
    constant
        .checked_neg()?
        .checked_div_euclid(divisor)?
        .checked_neg()
}

impl Cuts {
    /// The cut of a row, where it has one.
    fn put_row(
        &mut self,
        alloc: Global,
        vertex: &Vertex,
        variables: usize,
        entries: &[i64],
        divisor: i64,
    ) -> Result<bool, Memory> {
        let mut sum = Sum {
            coefficients: vec![in alloc; 0; variables]?,
            constant: 0,
            multipliers: Vec::new(alloc),
        };
        if !add_columns(alloc, &mut self.chain, &mut sum, vertex, entries, divisor)? {
            return Ok(false);
        }
        let Some(lin) = rounded(alloc, &sum, i128::from(divisor))? else {
            return Ok(false);
        };
        let number = self.chain.round(sum.multipliers, divisor)?;
        self.found.push(Said {
            number,
            lit: Lit::Le(lin),
        })?;
        Ok(true)
    }

    /// The cut of the row, where its basic variable has a fraction.
    fn put_basic(
        &mut self,
        alloc: Global,
        tableau: &Tableau,
        vertex: &Vertex,
        basic: usize,
        entries: &[i64],
    ) -> Result<bool, Memory> {
        match (vertex.ratios.get(basic), entries.get(basic)) {
            (Some(ratio), Some(divisor)) => {
                if ratio.den() == 1 || *divisor < 2 {
                    Ok(false)
                } else {
                    self.put_row(alloc, vertex, tableau.columns(), entries, *divisor)
                }
            }
            _ => Ok(false),
        }
    }

    /// The first cuts of the rows. Whether there is one.
    fn put_rows(
        &mut self,
        alloc: Global,
        tableau: &Tableau,
        vertex: &Vertex,
    ) -> Result<bool, Memory> {
        let mut count = 0;
        'rows: for row in 0..tableau.rows() {
            if count < MOST_CUTS
                && self.put_basic(alloc, tableau, vertex, tableau.basic(row), tableau.row(row))?
            {
                count += 1;
            }
        }
        Ok(count > 0)
    }

    /// Cuts of the vertex join the tableau and its forms. Whether there are any, and room for all of them.
    fn join(
        &mut self,
        alloc: Global,
        tableau: &mut Tableau,
        forms: &mut Vec<Vec<(u32, i128)>>,
        sides: &[Sides],
        ratios: &[Ratio],
    ) -> Result<bool, Memory> {
        let before = self.found.len();
        let vertex = Vertex {
            forms: forms.as_slice(),
            sides,
            ratios,
        };
        if !self.put_rows(alloc, tableau, &vertex)? {
            return Ok(false);
        }
        match self.found.as_slice().get(before..) {
            Some(cuts) => join_all(alloc, tableau, forms, cuts),
            None => Ok(false),
        }
    }

    /// One round: the bounds contradict, or cuts of the vertex join the tableau and its forms.
    fn round(
        &mut self,
        alloc: Global,
        tableau: &mut Tableau,
        forms: &mut Vec<Vec<(u32, i128)>>,
        said: &[Said],
    ) -> Result<Told, Memory> {
        let variables = tableau.columns();
        let mut sides = all_sides(alloc, said, forms.as_slice(), variables)?;
        let sides = sides.as_mut_slice();
        meet_all(sides, self.found.as_slice(), forms.as_slice(), variables);
        set_sides(tableau, sides);
        match feasible(alloc, tableau)? {
            Feasible::Vertex(ratios) => {
                let have_joined = self.join(alloc, tableau, forms, sides, ratios.as_slice())?;
                Ok(if_told(have_joined, Told::More))
            }
            Feasible::Conflict(multipliers) => {
                let chain = &mut self.chain;
                let is_closed = of_conflict(alloc, chain, multipliers.as_slice(), sides)?;
                Ok(if_told(is_closed, Told::Closed))
            }
            Feasible::Wide(_) => Ok(Told::Nothing),
        }
    }
}

/// What a round comes to.
#[derive(Clone, Copy)]
enum Told {
    More,
    /// The chain is closed.
    Closed,
    Nothing,
}

/// What a round comes to, where it comes to anything.
fn if_told(is_told: bool, told: Told) -> Told {
    if is_told { told } else { Told::Nothing }
}

/// Cuts and bounds that contradict, where so many rounds of cuts at most lead to them. The tableau has rows of the
/// forms, and may have been pivoted. Forms of cuts join both.
pub(crate) fn of_cuts(
    alloc: Global,
    tableau: &mut Tableau,
    forms: &mut Vec<Vec<(u32, i128)>>,
    said: &[Said],
    known: usize,
    rounds: u32,
) -> Result<Option<Chain>, Memory> {
    let mut cuts = Cuts {
        found: Vec::new(alloc),
        chain: Chain::new(alloc, known),
    };
    'rounds: for _ in 0..rounds {
        match cuts.round(alloc, tableau, forms, said)? {
            Told::More => {}
            Told::Nothing => return Ok(None),
            Told::Closed => {
                let Cuts { chain, .. } = cuts;
                return Ok(Some(chain));
            }
        }
    }
    Ok(None)
}
