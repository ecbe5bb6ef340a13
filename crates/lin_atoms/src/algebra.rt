ghost use Rattle.std.specs.Prelude.{◌≡◌, ◌+ℤ◌, IfOk, OnOk, IsErrOf, map, true, false};
ghost use Rattle.lin_atoms.specs.Linear.{fits};
ghost use Rattle.lin_atoms.specs.Algebra.{added, name_in, put_for, renamed, scaled};

use crate::accumulator::product;
use crate::lin::Lin;
use crate::stop::WideStop;
use crate::wide_terms;
use base::Memory;
use std::alloc::Global;

/// The terms with other variables.
fn with_names(alloc: Global, terms: &[(u32, i64)], names: &[u32]) -> Result<Vec<(u32, i64)>, Memory>
    ensures { IfOk result (λ made. made.items ≡ map (λ t. (name_in names.now t.0, t.1)) terms.now) }
{
    let mut made = Vec::with_capacity(alloc, terms.len())?;
    for (variable, coefficient) in terms {
        let name = name_in(names, *variable);
        made.push((name, *coefficient))?;
    }
    Ok(made)
}

fn name_in(names: &[u32], variable: u32) -> u32
    ensures { result ≡ name_in names.now variable }
{
    let at = variable as usize;
    if at < names.len() {
        names[at]
    } else {
        variable
    }
}

/// The terms with one variable for another.
fn with_name(
    alloc: Global,
    terms: &[(u32, i64)],
    variable: u32,
    name: u32,
) -> Result<Vec<(u32, i64)>, Memory>
    ensures { IfOk result (λ made. made.items ≡ map (λ t. (put_for name variable t.0, t.1)) terms.now) }
{
    let mut made = Vec::with_capacity(alloc, terms.len())?;
    for (old, coefficient) in terms {
        let new = put_for(name, variable, *old);
        made.push((new, *coefficient))?;
    }
    Ok(made)
}

fn put_for(name: u32, variable: u32, old: u32) -> u32
    ensures { result ≡ put_for name variable old }
{
    if old == variable { name } else { old }
}

/// The sum of the constants.
fn constants(a: &Lin, b: &Lin) -> i128
    ensures { result ≡ a.now.constant +ℤ b.now.constant }
{
    a.constant() + b.constant()
}

impl Lin {
    /// The sum of the two forms.
    pub fn added(&self, alloc: Global, other: &Lin) -> Result<Lin, WideStop>
        ensures made { IfOk result (λ made. made ≡ added self.now other.now) }
        ensures within { OnOk result (fits (added self.now other.now) ≡ true) }
        ensures wide { IsErrOf result WideStop.Wide → fits (added self.now other.now) ≡ false }
    {
        let terms = wide_terms::added(alloc, self.terms(), other.terms())?;
        let constant = constants(self, other);
        Lin::of_wide(alloc, terms, constant)
    }

    /// The form times the number.
    pub fn scaled(&self, alloc: Global, k: i64) -> Result<Lin, WideStop>
        ensures made { IfOk result (λ made. made ≡ scaled k self.now) }
        ensures within { OnOk result (fits (scaled k self.now) ≡ true) }
        ensures wide { IsErrOf result WideStop.Wide → fits (scaled k self.now) ≡ false }
    {
        let terms = wide_terms::scaled(alloc, self.terms(), k)?;
        let constant = product(k, self.constant());
        Lin::of_wide(alloc, terms, constant)
    }

    /// The form with each variable replaced by its name, that stands at the variable's number;
    /// a variable past the end keeps its own. Coefficients of one name are added up.
    pub fn renamed(&self, alloc: Global, names: &[u32]) -> Result<Lin, WideStop>
        ensures made { IfOk result (λ made. made ≡ renamed (name_in names.now) self.now) }
        ensures within { OnOk result (fits (renamed (name_in names.now) self.now) ≡ true) }
        ensures wide { IsErrOf result WideStop.Wide → fits (renamed (name_in names.now) self.now) ≡ false }
    {
        let named = with_names(alloc, self.terms(), names)?;
        let terms = wide_terms::collected(alloc, named.as_slice())?;
        let constant = self.constant();
        Lin::of_wide(alloc, terms, constant)
    }

    /// The form with one variable put for another, whose coefficients are added up.
    pub fn replaced(&self, alloc: Global, variable: u32, name: u32) -> Result<Lin, WideStop>
        ensures made { IfOk result (λ made. made ≡ renamed (put_for name variable) self.now) }
        ensures within { OnOk result (fits (renamed (put_for name variable) self.now) ≡ true) }
        ensures wide { IsErrOf result WideStop.Wide → fits (renamed (put_for name variable) self.now) ≡ false }
    {
        let named = with_name(alloc, self.terms(), variable, name)?;
        let terms = wide_terms::collected(alloc, named.as_slice())?;
        let constant = self.constant();
        Lin::of_wide(alloc, terms, constant)
    }
}
