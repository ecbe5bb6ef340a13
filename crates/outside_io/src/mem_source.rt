ghost use Rattle.std.specs.Prelude.{◌≡◌, ◌<◌, ◌≤◌, Some, length, drop};
ghost use Rattle.outside_io.specs.declared.turn.Turn.TheVariants.{Before};

use crate::source::Source;
use crate::turn::{Failed, Turn};

/// Bytes in memory, given a few at a time.
#[derive(Drop)]
pub struct MemSource {
    bytes: Vec<u8>,
    at: usize,
    step: usize,
    fails: Vec<u64>,
    turns: u64,
    faults: u64,
    last: Turn,
    ends: u64,
    ghost some: { 0 < step },
    ghost within: { at ≤ length bytes.items },
}

impl MemSource {
    /// A source of these bytes that gives at most `step` of them a turn. The turns whose numbers,
    /// from 1, stand in `fails` fail.
    pub fn new(bytes: Vec<u8>, step: usize, fails: Vec<u64>) -> MemSource
        requires { 0 < step }
        ensures left { ⟦<MemSource as Source>⟧.left result ≡ Some bytes.items }
        ensures faults { ⟦<MemSource as Source>⟧.faults result ≡ 0 }
        ensures turns { ⟦<MemSource as Source>⟧.turns result ≡ 0 }
        ensures last { ⟦<MemSource as Source>⟧.last result ≡ Before }
        ensures ends { ⟦<MemSource as Source>⟧.ends result ≡ 0 }
        ensures fails { ⟦<MemSource as Source>⟧.fails result ≡ Some fails.items }
        ensures step { ⟦<MemSource as Source>⟧.step result ≡ Some step }
    {
        MemSource {
            bytes,
            at: 0,
            step,
            fails,
            turns: 0,
            faults: 0,
            last: Turn::Before,
            ends: 0,
        }
    }
}

impl Source for MemSource {
    ghost left = { λ s. Some (drop s.at s.bytes.items) };

    ghost faults = { λ s. s.faults };

    ghost turns = { λ s. s.turns };

    ghost last = { λ s. s.last };

    ghost ends = { λ s. s.ends };

    ghost fails = { λ s. Some s.fails.items };

    ghost step = { λ s. Some s.step };

    fn take(&mut self, into: &mut [u8]) -> Result<usize, Failed> {
        self.turns = self.turns.saturating_add(1);
        if self.fails.contains(&self.turns) {
            self.faults = self.faults.saturating_add(1);
            self.last = Turn::Fault;
            return Err(Failed);
        }
        let rest = &self.bytes[self.at..];
        let count = rest.len().min(into.len()).min(self.step);
        into[..count].copy_from_slice(&rest[..count]);
        self.at += count;
        self.last = Turn::of_take(count, into);
        self.ends = self.last.counted_in(self.ends);
        Ok(count)
    }
}
