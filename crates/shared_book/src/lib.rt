//! One book behind one lock, shared by up to 64 workers. What is known of the book at every moment when
//! the lock is got stands in the type behind it; each change is one of that type's methods, whose
//! contracts say in full what they change; and the calls of the shared book take the lock and make one
//! of them. A ledger ties what each worker has written to the length of the journal.
#![tactic(auto)]

mod claiming;
mod job;
mod locked;
mod over;
mod run;
mod share;
mod shared;
mod taking;
mod tally;

pub use job::Job;
pub use locked::Locked;
pub use over::Over;
pub use run::Run;
pub use share::Share;
pub use shared::SharedBook;
