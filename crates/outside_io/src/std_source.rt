ghost use Rattle.std.specs.Prelude.{◌≡◌, None};
ghost use Rattle.outside_io.specs.declared.turn.Turn.TheVariants.{Before};

use crate::source::Source;
use crate::turn::{Failed, Turn};
use std::io::Read;

/// Standard input, or any other reader. It tells no content.
#[derive(Drop)]
pub struct StdSource<R> {
    inner: R,
    turns: u64,
    faults: u64,
    last: Turn,
    ends: u64,
}

impl<R: Read> StdSource<R> {
    /// A source of what the reader gives.
    pub fn new(inner: R) -> StdSource<R>
        ensures faults { ⟦<StdSource<R> as Source>⟧.faults result ≡ 0 }
        ensures turns { ⟦<StdSource<R> as Source>⟧.turns result ≡ 0 }
        ensures last { ⟦<StdSource<R> as Source>⟧.last result ≡ Before }
        ensures ends { ⟦<StdSource<R> as Source>⟧.ends result ≡ 0 }
    {
        StdSource {
            inner,
            turns: 0,
            faults: 0,
            last: Turn::Before,
            ends: 0,
        }
    }
}

impl<R: Read> Source for StdSource<R> {
    ghost left = { λ _. None };

    ghost faults = { λ s. s.faults };

    ghost turns = { λ s. s.turns };

    ghost last = { λ s. s.last };

    ghost ends = { λ s. s.ends };

    fn take(&mut self, into: &mut [u8]) -> Result<usize, Failed> {
        self.turns = self.turns.saturating_add(1);
        match self.inner.read(into) {
            Ok(count) => {
                self.last = Turn::of_take(count, into);
                self.ends = self.last.counted_in(self.ends);
                Ok(count)
            }
            Err(_) => {
                self.faults = self.faults.saturating_add(1);
                self.last = Turn::Fault;
                Err(Failed)
            }
        }
    }
}
