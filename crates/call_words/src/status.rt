//! How a call ends.

ghost use Rattle.std.specs.Prelude.{◌≡◌};
ghost use Rattle.call_words.specs.Status.{status_number};

/// How a call ended.
#[derive(Clone, Copy, Debug, PartialEq, Eq)]
pub enum Status {
    /// A script is solved, an answer is valid, or a summary is written.
    Answered,
    /// The script is refused.
    Refused,
    /// The words are no command.
    Usage,
    /// The source has failed.
    ReadFault,
    /// The sink has failed.
    WriteFault,
    /// Memory was wanted.
    Memory,
    /// The answer that was checked is wrong.
    Wrong,
    /// The answer that was checked isn't shown.
    NotShown,
}

impl Status {
    /// The number by which the program tells how it ended, from 0 to 7.
    pub fn number(self) -> u8
        ensures { result ≡ status_number self }
    {
        match self {
            Status::Answered => 0,
            Status::Refused => 1,
            Status::Usage => 2,
            Status::ReadFault => 3,
            Status::WriteFault => 4,
            Status::Memory => 5,
            Status::Wrong => 6,
            Status::NotShown => 7,
        }
    }
}
