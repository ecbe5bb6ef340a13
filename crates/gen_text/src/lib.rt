//! The text of a generated script.
#![tactic(auto)]

mod text;

pub use text::text_of;
