ghost use Rattle.std.specs.Prelude.{◌≡◌, IfOk, ◌<◌, ◌^◌};
ghost use Rattle.term_tables.specs.machinery.Table.{sort_in, AreSorts};

use crate::sorts::{node_sort, sort_in};
use base::Memory;
use std::alloc::Global;
use std::marker::Model;
use term_tree::{Pred, Sort, TermId, Terms};

/// The sort of every term, where it is well sorted. It is found once, from the sorts of each term's
/// parts, and serves every assertion of a script.
#[derive(Drop)]
pub struct SortTable {
    sorts: Vec<Option<Sort>>,
}

impl Model for SortTable {
    ghost use Rattle.std.specs.Prelude.{List, Option};
    ghost use Rattle.term_tree.specs.declared.sort.Sort.{Sort};

    ghost Value = { List (Option Sort) };

    ghost view = { λ t. t.sorts.items };
}

impl SortTable {
    /// Looks at every term once.
    pub fn of(alloc: Global, preds: &[Pred], terms: &Terms) -> Result<SortTable, Memory>
        ensures { IfOk result (λ table. AreSorts preds.now terms.now.nodes table) }
    {
        let mut sorts = Vec::with_capacity(alloc, terms.len())?;
        for i in 0..terms.len() {
            let Ok(number) = u32::try_from(i) else {
                return Ok(SortTable { sorts });
            };
            let sort = node_sort(preds, terms.node(TermId(number)), sorts.as_slice());
            sorts.push(sort)?;
        }
        Ok(SortTable { sorts })
    }

    /// The sort of the term, where it is well sorted.
    pub fn sort(&self, id: TermId) -> Option<Sort>
        ensures sort { result ≡ sort_in self.now id.0 }
        ensures short { id.0 < 2 ^ 32 }
    {
        let _number = id.0;
        sort_in(self.sorts.as_slice(), id)
    }
}
