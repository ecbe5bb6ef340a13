use term_tree::Sort;

/// A term without parts.
#[derive(Clone, Copy)]
pub enum Atom {
    Number(i64),
    Truth(bool),
    /// A quantified variable or a parameter, by its number.
    BoundVariable {
        number: u32,
        sort: Sort,
    },
    /// A name that a `let` binds, by the number of its term.
    LetName {
        number: u32,
        sort: Sort,
        constant: Option<i64>,
    },
    /// A predicate without arguments, by its number.
    Predicate(u32),
}
