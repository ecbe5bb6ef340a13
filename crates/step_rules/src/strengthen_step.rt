//! A Strengthen: what it says, and the rules that it must keep.

pub(crate) mod part;
pub(crate) mod rules;
