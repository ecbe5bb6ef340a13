ghost use Rattle.std.specs.Prelude.{◌≡◌, IfOk};
ghost use Rattle.std.specs.List.{list_all};
ghost use Rattle.lin_atoms.specs.Truth.{is_below};

use crate::lit::Lit;
use base::{Copied, Items, Memory, Same};
use std::alloc::Global;

/// A formula: literals under conjunctions and disjunctions. An empty conjunction is true, an
/// empty disjunction false.
pub enum Form {
    True,
    False,
    Lit(Lit),
    And(Items<Form>),
    Or(Items<Form>),
}

impl Drop for Form {
    fn drop(self) {
        match self {
            Form::True => {}
            Form::False => {}
            Form::Lit(_) => {}
            Form::And(parts) => drop(parts),
            Form::Or(parts) => drop(parts),
        }
    }
}

impl Form {
    /// An equal formula.
    #[cycle(copy)]
    pub fn copy(&self, alloc: Global) -> Result<Form, Memory>
        ensures { IfOk result (λ copied. copied ≡ self.now) }
    {
        match self {
            Form::True => Ok(Form::True),
            Form::False => Ok(Form::False),
            Form::Lit(lit) => Ok(Form::Lit(lit.copy(alloc)?)),
            Form::And(parts) => Ok(Form::And(copy_all(alloc, parts.as_slice())?)),
            Form::Or(parts) => Ok(Form::Or(copy_all(alloc, parts.as_slice())?)),
        }
    }

    /// Whether each variable that occurs is below `n`, so that a point of that length has them all.
    #[cycle(is_below)]
    pub fn is_below(&self, n: usize) -> bool
        ensures { result ≡ is_below n self.now }
    {
        match self {
            Form::True => true,
            Form::False => true,
            Form::Lit(lit) => lit.is_below(n),
            Form::And(parts) => all_are_below(parts.as_slice(), n),
            Form::Or(parts) => all_are_below(parts.as_slice(), n),
        }
    }
}

#[cycle(copy)]
fn copy_all(alloc: Global, parts: &[Form]) -> Result<Items<Form>, Memory>
    ensures { IfOk result (λ copied. copied ≡ parts.now) }
{
    let mut copied = Items::new(alloc);
    for part in parts {
        copied.push(part.copy(alloc)?)?;
    }
    Ok(copied)
}

#[cycle(is_below)]
fn all_are_below(parts: &[Form], n: usize) -> bool
    ensures { result ≡ list_all (is_below n) parts.now }
{
    for part in parts {
        if !part.is_below(n) {
            return false;
        }
    }
    true
}

/// Hands the method on, so that lists and boxes of formulas are copied too.
impl Copied for Form {
    fn copy(&self, alloc: Global) -> Result<Form, Memory> {
        Form::copy(self, alloc)
    }
}

impl Same for Form {
    fn equals(&self, other: &Form) -> bool {
        match (self, other) {
            (Form::True, Form::True) => true,
            (Form::False, Form::False) => true,
            (Form::Lit(a), Form::Lit(b)) => a.equals(b),
            (Form::And(a), Form::And(b)) => a.equals(b),
            (Form::Or(a), Form::Or(b)) => a.equals(b),
            _ => false,
        }
    }
}
