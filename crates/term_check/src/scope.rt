use term_tree::{Name, Sort};

/// What a bound name stands for.
#[derive(Clone, Copy)]
pub enum Bound {
    /// A quantified variable or a parameter, by its number.
    Variable {
        number: u32,
        sort: Sort,
    },
    /// A term that a `let` binds; such terms are numbered from the outermost `let` inwards.
    Let {
        number: u32,
        sort: Sort,
        constant: Option<i64>,
    },
}

/// A bound name, as contracts see it.
#[derive(Drop)]
pub struct Named {
    pub name: Name,
    pub bound: Bound,
}

/// A bound name, with what it stands for outside of its binder.
#[derive(Clone, Copy)]
pub struct Binding<'a> {
    pub name: &'a [u8],
    pub bound: Bound,
    pub outside: Option<Bound>,
}

/// A bound name and what it stands for.
#[derive(Clone, Copy)]
pub struct Meaning<'a> {
    pub name: &'a [u8],
    pub bound: Bound,
}
