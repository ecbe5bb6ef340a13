ghost use Rattle.std.specs.Prelude.{◌≡◌, ◌+◌, ◌<◌, ◌≤◌, [], Some, vec_len, vec_capacity, IfOk};
ghost use Rattle.outside_io.specs.declared.turn.Turn.TheVariants.{Before};

use crate::sink::Sink;
use crate::turn::{Failed, Turn};
use base::Memory;
use std::alloc::Global;

/// A sink in memory with room for `room` bytes, which takes a few at a time.
#[derive(Drop)]
pub struct MemSink {
    held: Vec<u8>,
    room: usize,
    step: usize,
    fails: Vec<u64>,
    turns: u64,
    faults: u64,
    last: Turn,
    ghost some: { 0 < step },
    ghost reserved: { vec_len held + room ≤ vec_capacity held },
}

impl MemSink {
    /// An empty sink that holds up to `room` bytes and takes at most `step` of them a turn. The turns
    /// whose numbers, from 1, stand in `fails` fail, and those where bytes meet no room. All of the
    /// room is reserved here, so that no later call takes memory.
    pub fn new(alloc: Global, room: usize, step: usize, fails: Vec<u64>) -> Result<MemSink, Memory>
        requires { 0 < step }
        ensures held { IfOk result (λ sink. ⟦<MemSink as Sink>⟧.held sink ≡ Some []) }
        ensures room { IfOk result (λ sink. ⟦<MemSink as Sink>⟧.room sink ≡ Some room) }
        ensures faults { IfOk result (λ sink. ⟦<MemSink as Sink>⟧.faults sink ≡ 0) }
        ensures turns { IfOk result (λ sink. ⟦<MemSink as Sink>⟧.turns sink ≡ 0) }
        ensures last { IfOk result (λ sink. ⟦<MemSink as Sink>⟧.last sink ≡ Before) }
        ensures fails { IfOk result (λ sink. ⟦<MemSink as Sink>⟧.fails sink ≡ Some fails.items) }
        ensures step { IfOk result (λ sink. ⟦<MemSink as Sink>⟧.step sink ≡ Some step) }
    {
        let held = Vec::with_capacity(alloc, room)?;
        Ok(MemSink {
            held,
            room,
            step,
            fails,
            turns: 0,
            faults: 0,
            last: Turn::Before,
        })
    }

    /// The bytes that it holds, in the order in which they were put.
    pub fn held(&self) -> &[u8]
        ensures { ⟦<MemSink as Sink>⟧.held self.now ≡ Some result.now }
    {
        self.held.as_slice()
    }
}

impl Sink for MemSink {
    ghost held = { λ s. Some s.held.items };

    ghost room = { λ s. Some s.room };

    ghost faults = { λ s. s.faults };

    ghost turns = { λ s. s.turns };

    ghost last = { λ s. s.last };

    ghost fails = { λ s. Some s.fails.items };

    ghost step = { λ s. Some s.step };

    fn put(&mut self, piece: &[u8]) -> Result<usize, Failed> {
        self.turns = self.turns.saturating_add(1);
        if self.fails.contains(&self.turns) || self.room == 0 && !piece.is_empty() {
            self.faults = self.faults.saturating_add(1);
            self.last = Turn::Fault;
            return Err(Failed);
        }
        let count = piece.len().min(self.room).min(self.step);
        self.held.extend_from_slice(&piece[..count]).unwrap();
        self.room -= count;
        self.last = Turn::Moved;
        Ok(count)
    }
}
