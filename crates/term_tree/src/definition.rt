use crate::node::TermId;
use crate::script::Name;
use crate::terms::Terms;
use base::Items;

/// A definition of a predicate: its parameters, and a term over them, which are variables from 0 on
/// in the term. The sorts of the parameters are those of the predicate's arguments.
#[derive(Debug)]
pub struct Definition {
    pub pred: u32,
    pub params: Items<Name>,
    pub terms: Terms,
    pub body: TermId,
}

impl Drop for Definition {
    fn drop(self) {
        let Definition {
            pred: _,
            params: _,
            terms: _,
            body: _,
        } = self;
    }
}
