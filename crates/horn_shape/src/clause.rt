use base::Items;
use term_tree::{Sort, TermId};

/// A term as it stands in an assertion: under these `let` terms, the outermost first. A guard that is
/// negated counts as true where its term is false; arguments are never negated.
pub struct Part {
    pub lets: Items<TermId>,
    pub term: TermId,
    pub negated: bool,
}

impl Drop for Part {
    fn drop(self) {
        let Part {
            lets: _,
            term: _,
            negated: _,
        } = self;
    }
}

/// A predicate, numbered from 0 in the order of the declarations, at its arguments.
pub struct AtomUse {
    pub pred: u32,
    pub args: Items<Part>,
}

impl Drop for AtomUse {
    fn drop(self) {
        let AtomUse { pred: _, args: _ } = self;
    }
}

/// What an assertion says as a Horn clause: for all values of the variables, body atoms and guards
/// imply the head. Without a head they are said to be contradictory. Assertions are numbered from 0,
/// and the variables are the term's own, from 0 on.
pub struct HornClause {
    pub assertion: u32,
    pub vars: Items<Sort>,
    pub atoms: Items<AtomUse>,
    pub guards: Items<Part>,
    pub head: Option<AtomUse>,
}

impl Drop for HornClause {
    fn drop(self) {
        let HornClause {
            assertion: _,
            vars: _,
            atoms: _,
            guards: _,
            head: _,
        } = self;
    }
}
