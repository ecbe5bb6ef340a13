/// One of the two bounds of a form.
#[derive(Clone, Copy)]
pub(crate) enum Side {
    Lower,
    Upper,
}

/// A bound of a literal, and how many times it is taken.
#[derive(Clone, Copy)]
pub(crate) struct Taken {
    pub(crate) literal: usize,
    pub(crate) side: Side,
    pub(crate) times: i64,
}
