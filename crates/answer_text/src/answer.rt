use base::Items;
use term_tree::{Definition, Value};

/// Why it is not known whether a script is satisfiable.
#[derive(Clone, Copy)]
pub enum UnknownCause {
    /// All units of work that were given are spent, this many.
    Units(u32),
    /// No step was left to take.
    Stalled,
    /// A worker had no memory.
    NoMemory,
}

/// A step of a derivation: an instance of an assertion whose body atoms are the conclusions of
/// earlier steps. Steps and assertions are numbered from 1.
pub struct Line {
    pub number: u64,
    pub assertion: u64,
    /// The values of the assertion's variables, in order.
    pub values: Items<Value>,
    /// The steps that give its body atoms, in order.
    pub premises: Items<u64>,
    /// The predicate and its arguments; none for false.
    pub head: Option<(u32, Items<Value>)>,
}

impl Drop for Line {
    fn drop(self) {
        let Line {
            number: _,
            assertion: _,
            values: _,
            premises: _,
            head: _,
        } = self;
    }
}

/// An answer to a script.
#[derive(Drop)]
pub enum Answer {
    /// A solution: one definition for each predicate, in order of declaration.
    Sat(Items<Definition>),
    /// A derivation of false.
    Unsat(Items<Line>),
    Unknown { level: u32, cause: UnknownCause },
}
