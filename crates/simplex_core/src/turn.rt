//! What a moment of the run is.

/// A bound of a column.
#[derive(Clone, Copy, Debug, PartialEq, Eq)]
pub enum Side {
    Lower,
    Upper,
}

/// What a moment of the run is: an end of some kind, or a pivot.
#[derive(Clone, Copy, Debug, PartialEq, Eq)]
pub enum Turn {
    /// The column's lower bound is above its upper bound.
    Crossed {
        column: usize,
    },
    /// The column's value has no room.
    Wide {
        column: usize,
    },
    /// Each column is within its bounds.
    Vertex,
    /// The basic column of the row breaks that bound, and no column can help.
    Conflict {
        row: usize,
        side: Side,
    },
    /// The basic column of the row, which breaks that bound, leaves, and the column enters.
    Pivot {
        row: usize,
        column: usize,
        side: Side,
    },
}
