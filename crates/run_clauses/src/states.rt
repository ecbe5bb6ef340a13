//! How far an instance of a clause is known.

use crate::ranges::Ranges;
use base::Memory;
use lin_atoms::Form;
use std::alloc::Global;

/// What is known of an instance, and what still has to hold.
#[derive(Drop)]
pub(crate) struct State<'a> {
    pub(crate) ranges: Ranges,
    /// Formulas that have to hold and aren't known to.
    pub(crate) forms: Vec<&'a Form>,
    /// For each body atom the number of its tuple, once it is chosen.
    pub(crate) premises: Vec<Option<u32>>,
}

impl<'a> State<'a> {
    /// A copy of what is known of the instance.
    pub(crate) fn copy(&self, alloc: Global) -> Result<State<'a>, Memory> {
        let ranges = self.ranges.copy(alloc)?;
        let mut forms = Vec::with_capacity(alloc, self.forms.len())?;
        for form in self.forms.as_slice() {
            forms.push(*form)?;
        }
        let premises = Vec::from_slice(alloc, self.premises.as_slice())?;
        Ok(State {
            ranges,
            forms,
            premises,
        })
    }
}
