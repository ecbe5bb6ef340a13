//! What all tuples of a predicate that were met have in common: linear equations, and residues of
//! simple forms.

ghost use Rattle.std.specs.Prelude.{◌≡◌, [], IsSome, OnOk, unwrap_or};
ghost use Rattle.guess_hulls.specs.Hulls.{equations_of};

use crate::reducing::primitive;
use crate::values::combined;
use base::{Copied, Memory};
use guess_table::value_at;
use lin_atoms::{Divisor, Lin, Lit, gcd};
use std::alloc::Global;

/// How many arguments a predicate has at most, for a hull.
const MOST_PLACES: usize = 64;

/// How many for residues.
pub(crate) const MOST_WITH_RESIDUES: usize = 10;

/// Of how many arguments the residues of pairs are kept.
const MOST_IN_PAIRS: u32 = 8;

/// How many arguments a predicate has at most for residues of triples.
const MOST_WITH_TRIPLES: usize = 5;

/// The widest coefficient of an equation.
const WIDEST: i64 = 1 << 40;

/// A form, and a number that divides its value at each tuple: 0 as long as each value is 0, and 1 where
/// nothing is known.
#[derive(Drop)]
struct Residue {
    lin: Lin,
    modulus: i64,
}

/// What the tuples of a predicate have in common.
pub(crate) struct Hull {
    /// Forms that are 0 at each tuple.
    equations: Vec<Lin>,
    residues: Vec<Residue>,
}

impl Drop for Hull {
    fn drop(self) {
        let Hull {
            equations: _,
            residues: _,
        } = self;
    }
}

/// What is known of the tuples of a predicate.
pub(crate) enum Known {
    /// No tuple was met.
    Nothing,
    /// What those that were met have in common.
    Common(Hull),
}

impl Drop for Known {
    fn drop(self) {
        match self {
            Known::Nothing => {}
            Known::Common(_) => {}
        }
    }
}

/// The form of these variables, each with a sign, that is 0 at the tuple.
fn form_at(alloc: Global, tuple: &[i64], terms: &[(u32, i64)]) -> Result<Option<Lin>, Memory> {
    let kept = Vec::from_slice(alloc, terms)?;
    let lin = match Lin::new(kept, 0) {
        Ok(lin) => lin,
        Err(_) => return Ok(None),
    };
    match value_at(&lin, tuple) {
        Some(value) => match value.checked_neg() {
            Some(less) => Ok(lin.plus(less)),
            None => Ok(None),
        },
        None => Ok(None),
    }
}

/// Adds the residue of a form, before a second tuple is known.
fn push_residue(
    alloc: Global,
    residues: &mut Vec<Residue>,
    tuple: &[i64],
    terms: &[(u32, i64)],
) -> Result<(), Memory> {
    if let Some(lin) = form_at(alloc, tuple, terms)? {
        residues.push(Residue { lin, modulus: 0 })?;
    }
    Ok(())
}

/// Adds the residues of sums and differences of three places.
fn push_triples(
    alloc: Global,
    residues: &mut Vec<Residue>,
    tuple: &[i64],
    i: u32,
    j: u32,
    end: u32,
) -> Result<(), Memory> {
    for k in j..end {
        if k > j {
            push_residue(alloc, residues, tuple, &[(i, 1), (j, 1), (k, 1)])?;
            push_residue(alloc, residues, tuple, &[(i, 1), (j, 1), (k, -1)])?;
            push_residue(alloc, residues, tuple, &[(i, 1), (j, -1), (k, 1)])?;
            push_residue(alloc, residues, tuple, &[(i, 1), (j, -1), (k, -1)])?;
        }
    }
    Ok(())
}

/// Adds the residues of a place alone, and with later ones.
fn push_residues(
    alloc: Global,
    residues: &mut Vec<Residue>,
    tuple: &[i64],
    i: u32,
    end: u32,
) -> Result<(), Memory> {
    push_residue(alloc, residues, tuple, &[(i, 1)])?;
    for j in i..end {
        if j > i {
            push_residue(alloc, residues, tuple, &[(i, 1), (j, 1)])?;
            push_residue(alloc, residues, tuple, &[(i, 1), (j, -1)])?;
            if tuple.len() <= MOST_WITH_TRIPLES {
                push_triples(alloc, residues, tuple, i, j, end)?;
            }
        }
    }
    Ok(())
}

/// Adds the residues of places alone, and of pairs and triples, where there are few places.
fn push_all_residues(
    alloc: Global,
    residues: &mut Vec<Residue>,
    tuple: &[i64],
) -> Result<(), Memory> {
    if tuple.len() > MOST_WITH_RESIDUES {
        return Ok(());
    }
    let end = match u32::try_from(tuple.len()) {
        Ok(count) => count.min(MOST_IN_PAIRS),
        Err(_) => MOST_IN_PAIRS,
    };
    for i in 0..end {
        push_residues(alloc, residues, tuple, i, end)?;
    }
    Ok(())
}

/// Adds the equations of places.
fn push_places(alloc: Global, equations: &mut Vec<Lin>, tuple: &[i64]) -> Result<(), Memory> {
    let end = match u32::try_from(tuple.len()) {
        Ok(count) => count,
        Err(_) => 0,
    };
    for i in 0..end {
        if let Some(lin) = form_at(alloc, tuple, &[(i, 1)])? {
            equations.push(lin)?;
        }
    }
    Ok(())
}

/// The hull of one tuple, where it has few places.
pub(crate) fn hull_of(alloc: Global, tuple: &[i64]) -> Result<Hull, Memory> {
    let mut hull = Hull {
        equations: Vec::new(alloc),
        residues: Vec::new(alloc),
    };
    if tuple.len() <= MOST_PLACES {
        push_places(alloc, &mut hull.equations, tuple)?;
        push_all_residues(alloc, &mut hull.residues, tuple)?;
    }
    Ok(hull)
}

fn is_within_widest(lin: &Lin) -> bool {
    for (_, coefficient) in lin.terms() {
        if *coefficient > WIDEST || *coefficient < -WIDEST {
            return false;
        }
    }
    true
}

/// The first equation that is broken at the tuple, and its value there.
fn first_broken(equations: &[Lin], tuple: &[i64]) -> Option<(usize, i64)> {
    for (at, lin) in equations.iter().enumerate() {
        match value_at(lin, tuple) {
            Some(0) => {}
            Some(value) => return Some((at, value)),
            None => {}
        }
    }
    None
}

/// The equation with a multiple of a broken one, so that it holds at the tuple, if numbers have room.
fn mended(
    alloc: Global,
    lin: &Lin,
    broken: &Lin,
    value: i64,
    tuple: &[i64],
) -> Result<Option<Lin>, Memory> {
    match value_at(lin, tuple) {
        Some(0) => Ok(Some(lin.copy(alloc)?)),
        Some(own) => {
            let less = match own.checked_neg() {
                Some(less) => less,
                None => return Ok(None),
            };
            match combined(alloc, value, lin, less, broken)? {
                Some(made) => {
                    let made = primitive(alloc, &made)?;
                    if is_within_widest(&made) && made.terms().len() > 0 {
                        Ok(Some(made))
                    } else {
                        Ok(None)
                    }
                }
                None => Ok(None),
            }
        }
        None => Ok(None),
    }
}

/// The equations but the one at a place, which is broken at the tuple, each so that it holds there.
fn mended_by(
    alloc: Global,
    equations: &[Lin],
    broken: usize,
    value: i64,
    tuple: &[i64],
) -> Result<Vec<Lin>, Memory> {
    let mut made = Vec::new(alloc);
    for (at, lin) in equations.iter().enumerate() {
        if at != broken {
            if let Some(of) = equations.get(broken) {
                if let Some(lin) = mended(alloc, lin, of, value, tuple)? {
                    made.push(lin)?;
                }
            }
        }
    }
    Ok(made)
}

/// The modulus that divides the value at one more tuple.
fn narrowed(residue: &Residue, tuple: &[i64]) -> i64 {
    match value_at(&residue.lin, tuple) {
        Some(value) => {
            let both = gcd(
                u128::from(residue.modulus.unsigned_abs()),
                u128::from(value.unsigned_abs()),
            );
            match i64::try_from(both) {
                Ok(modulus) => modulus,
                Err(_) => 1,
            }
        }
        None => 1,
    }
}

/// Lowers each modulus to what divides the value at one more tuple, too.
fn narrow_all(residues: &mut Vec<Residue>, tuple: &[i64]) {
    for residue in residues.iter_mut() {
        if residue.modulus != 1 {
            residue.modulus = narrowed(residue, tuple);
        }
    }
}

/// Of the residues that say something the one at a place says nothing any more, nor do those that are 0.
fn lower_at(residues: &mut Vec<Residue>, at: usize) {
    let mut count: usize = 0;
    for residue in residues.iter_mut() {
        if residue.modulus > 1 {
            if count == at {
                residue.modulus = 1;
            }
            count = count.saturating_add(1);
        } else {
            residue.modulus = 1;
        }
    }
}

/// The equations as literals.
fn push_equations(alloc: Global, lits: &mut Vec<Lit>, equations: &[Lin]) -> Result<(), Memory> {
    for lin in equations {
        lits.push(Lit::Eq(lin.copy(alloc)?))?;
    }
    Ok(())
}

/// The residues that say something as literals.
fn push_divisibilities(
    alloc: Global,
    lits: &mut Vec<Lit>,
    residues: &[Residue],
) -> Result<(), Memory> {
    for residue in residues {
        if residue.modulus > 1 {
            if let Some(divisor) = Divisor::new(residue.modulus) {
                lits.push(Lit::Div(divisor, residue.lin.copy(alloc)?))?;
            }
        }
    }
    Ok(())
}

impl Hull {
    /// Takes one more tuple in.
    pub(crate) fn add(&mut self, alloc: Global, tuple: &[i64]) -> Result<(), Memory> {
        if let Some((broken, value)) = first_broken(self.equations.as_slice(), tuple) {
            self.equations = mended_by(alloc, self.equations.as_slice(), broken, value, tuple)?;
        }
        narrow_all(&mut self.residues, tuple);
        Ok(())
    }

    /// Lets the equation at a place go.
    pub(crate) fn drop_equation(&mut self, at: usize) {
        if at < self.equations.len() {
            let _old = self.equations.remove(at);
        }
    }

    /// Lets the divisibility at a place go, and all of forms that are 0.
    pub(crate) fn drop_divisibility(&mut self, at: usize) {
        lower_at(&mut self.residues, at);
    }

    /// Lets all divisibilities go.
    pub(crate) fn drop_divisibilities(&mut self, alloc: Global) {
        self.residues = Vec::new(alloc);
    }

    /// Has the residues of another one in place of its own, and gives it these.
    pub(crate) fn swap_residues(&mut self, other: &mut Hull) {
        std::mem::swap(&mut self.residues, &mut other.residues);
    }

    /// Adds the forms of equations of two and more places.
    pub(crate) fn push_long_forms(
        &self,
        alloc: Global,
        forms: &mut Vec<Lin>,
    ) -> Result<(), Memory> {
        for lin in self.equations.as_slice() {
            if lin.terms().len() > 1 {
                forms.push(lin.copy(alloc)?)?;
            }
        }
        Ok(())
    }

    /// The forms that are 0 at each tuple.
    pub(crate) fn equations(&self) -> &[Lin]
        ensures { result.now ≡ self.now.equations.items }
    {
        self.equations.as_slice()
    }

    /// The divisibilities.
    pub(crate) fn divisibilities(&self, alloc: Global) -> Result<Vec<Lit>, Memory> {
        let mut lits = Vec::new(alloc);
        push_divisibilities(alloc, &mut lits, self.residues.as_slice())?;
        Ok(lits)
    }

    /// The equations, and the divisibilities where these are asked for, too.
    pub(crate) fn literals(&self, alloc: Global, whole: bool) -> Result<Vec<Lit>, Memory> {
        let mut lits = Vec::new(alloc);
        push_equations(alloc, &mut lits, self.equations.as_slice())?;
        if whole {
            push_divisibilities(alloc, &mut lits, self.residues.as_slice())?;
        }
        Ok(lits)
    }
}

impl Known {
    /// Takes a tuple in.
    pub(crate) fn take(&mut self, alloc: Global, tuple: &[i64]) -> Result<(), Memory>
        ensures { OnOk result (IsSome (equations_of self.new)) }
    {
        match self {
            Known::Nothing => *self = Known::Common(hull_of(alloc, tuple)?),
            Known::Common(hull) => hull.add(alloc, tuple)?,
        }
        Ok(())
    }

    /// The forms that are 0 at each tuple; none where no tuple was met.
    pub(crate) fn equations(&self) -> &[Lin]
        ensures { result.now ≡ unwrap_or (equations_of self.now) [] }
    {
        match self {
            Known::Nothing => &[],
            Known::Common(hull) => hull.equations(),
        }
    }
}
