ghost use Rattle.std.specs.Prelude.{◌≡◌, ◌≤◌, length, None, IfOk};
ghost use Rattle.outside_io.specs.declared.turn.Turn.TheVariants.{Before};

use crate::sink::Sink;
use crate::turn::{Failed, Turn};
use std::io::{self, Write};

/// Standard output, or any other writer. It tells no content, since a writer may have kept bytes back
/// when it fails.
#[derive(Drop)]
pub struct StdSink<W> {
    inner: W,
    turns: u64,
    faults: u64,
    last: Turn,
}

impl<W: Write> StdSink<W> {
    /// A sink that writes to the writer.
    pub fn new(inner: W) -> StdSink<W>
        ensures faults { ⟦<StdSink<W> as Sink>⟧.faults result ≡ 0 }
        ensures turns { ⟦<StdSink<W> as Sink>⟧.turns result ≡ 0 }
        ensures last { ⟦<StdSink<W> as Sink>⟧.last result ≡ Before }
    {
        StdSink {
            inner,
            turns: 0,
            faults: 0,
            last: Turn::Before,
        }
    }
}

/// Writes once, and flushes, so that a fault shows in the turn that it belongs to.
fn write_through<W: Write>(inner: &mut W, piece: &[u8]) -> io::Result<usize>
    ensures { IfOk result (λ n. n ≤ length piece.now) }
{
    let count = inner.write(piece)?;
    inner.flush()?;
    Ok(count)
}

impl<W: Write> Sink for StdSink<W> {
    ghost held = { λ _. None };

    ghost faults = { λ s. s.faults };

    ghost turns = { λ s. s.turns };

    ghost last = { λ s. s.last };

    fn put(&mut self, piece: &[u8]) -> Result<usize, Failed> {
        self.turns = self.turns.saturating_add(1);
        match write_through(&mut self.inner, piece) {
            Ok(count) if count > 0 || piece.is_empty() => {
                self.last = Turn::Moved;
                Ok(count)
            }
            _ => {
                self.faults = self.faults.saturating_add(1);
                self.last = Turn::Fault;
                Err(Failed)
            }
        }
    }
}
