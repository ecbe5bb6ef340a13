use base::Items;
use cube_forms::Tuple;

/// A derived tuple: the conclusion of an instance of a clause whose body tuples are earlier facts.
pub struct Fact {
    /// The clause's number.
    pub clause: u32,
    /// The values of the clause's variables in the instance.
    pub point: Items<i64>,
    /// For each body atom in order, the number of the fact that is its tuple.
    pub premises: Items<u32>,
    /// The head's predicate, none for false.
    pub pred: Option<u32>,
    /// The head's tuple, empty for false.
    pub tuple: Tuple,
}

impl Drop for Fact {
    fn drop(self) {
        let Fact {
            clause: _,
            point: _,
            premises: _,
            pred: _,
            tuple: _,
        } = self;
    }
}
