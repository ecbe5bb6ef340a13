use term_tree::{Kind, Sort};

/// What a term is to the rules of the term around it: where it starts in the text, its sort, and,
/// where it is a constant, its value.
#[derive(Clone, Copy, Debug, PartialEq, Eq)]
pub struct Part {
    pub start: u32,
    pub sort: Sort,
    pub constant: Option<i64>,
}

/// The first rule that a tree breaks, and where.
#[derive(Clone, Copy, Debug, PartialEq, Eq)]
pub struct Fault {
    pub kind: Kind,
    pub offset: u32,
}
