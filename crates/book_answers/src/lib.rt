//! From a script to the book that its clauses open, and from a book that has ended to the answer and
//! its text, or to the closed level alone where memory was wanted.
#![tactic(auto)]

mod answers;
mod opening;
mod texts;
mod wanting;

pub use answers::answer_at;
pub use opening::{Opened, open};
pub use texts::{level_holds, text_at};
pub use wanting::unfinished_lines;
