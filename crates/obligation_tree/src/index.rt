ghost use Rattle.std.specs.Prelude.{◌≡◌, [], ◌∷◌, ◌++◌, ◌==◌, not, filter, IfOk};

use base::Memory;
use cube_forms::Held;
use std::alloc::Global;

/// The numbers of the live obligations, and of those without live children, ascending.
pub(crate) struct Index {
    pub(crate) live: Vec<u32>,
    pub(crate) leaves: Vec<u32>,
}

impl Drop for Index {
    fn drop(self) {
        let Index { live: _, leaves: _ } = self;
    }
}

/// The numbers but one, and behind them the next.
fn replaced(alloc: Global, numbers: &[u32], one: u32, next: u32) -> Result<Vec<u32>, Memory>
    ensures { IfOk result (λ others. others.items ≡ filter (λ number. not (one == number)) numbers.now ++ next ∷ []) }
{
    let mut others = Vec::with_capacity(alloc, numbers.len() + 1)?;
    for number in numbers {
        if one != *number {
            others.push(*number)?;
        }
    }
    others.push(next)?;
    Ok(others)
}

/// The numbers, and behind them the next.
fn extended(alloc: Global, numbers: &[u32], next: u32) -> Result<Vec<u32>, Memory>
    ensures { IfOk result (λ longer. longer.items ≡ numbers.now ++ next ∷ []) }
{
    let mut longer = Vec::with_capacity(alloc, numbers.len() + 1)?;
    longer.extend_from_slice(numbers)?;
    longer.push(next)?;
    Ok(longer)
}

impl Index {
    /// The lists with one more obligation, which hangs under a live one.
    pub(crate) fn with(
        &self,
        alloc: Global,
        parent: u32,
        number: u32,
    ) -> Result<Held<Index>, Memory>
        ensures live { IfOk result (λ index. index.live.items ≡ self.now.live.items ++ number ∷ []) }
        ensures leaves { IfOk result (λ index. index.leaves.items ≡ filter (λ leaf. not (parent == leaf)) self.now.leaves.items ++ number ∷ []) }
    {
        let live = extended(alloc, self.live.as_slice(), number)?;
        let leaves = replaced(alloc, self.leaves.as_slice(), parent, number)?;
        Ok(Held::new(alloc, Index { live, leaves })?)
    }
}
