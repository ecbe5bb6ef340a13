/// Where a column of a tableau stands: in the basis, or outside it at its lower bound, at its upper
/// bound or at 0.
#[derive(Clone, Copy, Debug, PartialEq, Eq)]
pub enum Standing {
    Basic,
    AtLower,
    AtUpper,
    AtZero,
}
