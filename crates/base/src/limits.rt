//! The limits of what is read and of what is made of it, each named once.

/// The most bytes that a text may have.
pub const MOST_BYTES: usize = 16_777_216;

/// The most lists that may be open at once.
pub const MOST_OPEN: usize = 2000;

/// The most predicates of a script.
pub const MOST_PREDICATES: usize = 4096;

/// The most arguments of a predicate.
pub const MOST_ARGUMENTS: usize = 256;

/// The most assertions of a script.
pub const MOST_ASSERTIONS: usize = 65536;

/// The most arguments of `distinct`.
pub const MOST_DISTINCT: usize = 64;

/// The most rows of a tableau.
pub const MOST_ROWS: usize = 1024;

/// The most variables of a clause.
pub const MOST_VARIABLES: usize = 2048;

/// The most workers that share a book.
pub const MOST_WORKERS: u32 = 64;
