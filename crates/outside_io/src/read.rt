ghost use Rattle.std.specs.Prelude.{◌≡◌, ◌+◌, ◌≤◌, vec_len, IfOk, OnOk, OnErr, IfSome, IsErrOf, IsTrue};
ghost use Rattle.outside_io.specs.Bytes.{Takes, TakesCount, TakesAtMost, IsAtEnd};
ghost use Rattle.outside_io.specs.Counts.{counted};
ghost use Rattle.outside_io.specs.Stops.{faults_after_reading};
ghost use Rattle.outside_io.specs.Turns.{is_named};
ghost use Rattle.outside_io.specs.declared.turn.Turn.TheVariants.{End, Fault};

use crate::source::Source;
use crate::turn::Failed;
use std::alloc::{AllocError, Global};
use thiserror::Error;

/// The most bytes that are asked for in one turn.
const CHUNK: usize = 65_536;

/// Why reading stopped.
#[derive(Clone, Copy, Debug, PartialEq, Eq, Error)]
pub enum ReadStop {
    #[error("out of memory")]
    Memory,
    #[error("the input is too long")]
    TooLong,
    #[error("the source has failed")]
    ReadFault,
}

impl From<AllocError> for ReadStop {
    ghost use Rattle.std.specs.Prelude.{◌≡◌};
    ghost use Rattle.outside_io.specs.declared.read.ReadStop.TheVariants.{Memory};

    ghost from_gives = { λ _ e. e ≡ Memory };

    fn from(_: AllocError) -> ReadStop {
        ReadStop::Memory
    }
}

impl From<Failed> for ReadStop {
    ghost use Rattle.std.specs.Prelude.{◌≡◌};
    ghost use Rattle.outside_io.specs.declared.read.ReadStop.TheVariants.{ReadFault};

    ghost from_gives = { λ _ e. e ≡ ReadFault };

    fn from(_: Failed) -> ReadStop {
        ReadStop::ReadFault
    }
}

/// All the bytes up to the end, where these are at most `limit`. It stops at the end, at the first
/// fault, and at byte `limit + 1`. After want of memory the bytes that were taken are lost.
pub fn read_all<S: Source>(alloc: Global, src: &mut S, limit: usize) -> Result<Vec<u8>, ReadStop>
    ensures all { IfOk result (λ bytes. IfSome (S.left src.old) (λ left. bytes.items ≡ left)) }
    ensures taken { IfOk result (λ bytes. Takes bytes.items (S.left src.old) (S.left src.new)) }
    ensures end { OnOk result (S.last src.new ≡ End) }
    ensures once { OnOk result (S.ends src.new ≡ counted (S.ends src.old)) }
    ensures unended { OnErr result (S.ends src.new ≡ S.ends src.old) }
    ensures at_end { OnOk result (IsAtEnd (S.left src.new)) }
    ensures within { IfOk result (λ bytes. vec_len bytes ≤ limit) }

    ensures too_long { IsErrOf result ReadStop.TooLong → TakesCount (limit + 1) (S.left src.old) (S.left src.new) }
    ensures read_fault { IsErrOf result ReadStop.ReadFault → TakesAtMost limit (S.left src.old) (S.left src.new) }
    ensures memory { IsErrOf result ReadStop.Memory → TakesAtMost (limit + 1) (S.left src.old) (S.left src.new) }

    // One turn at most has failed, the last, and exactly at a fault. It is one of those named.
    ensures faults { S.faults src.new ≡ faults_after_reading result (S.faults src.old) }
    ensures last { IsErrOf result ReadStop.ReadFault → S.last src.new ≡ Fault }
    ensures named { S.fails src.new ≡ S.fails src.old }
    ensures cause { IsErrOf result ReadStop.ReadFault → IfSome (S.fails src.old) (λ named. IsTrue (is_named named (S.turns src.new))) }

    ensures turns { S.turns src.new ≤ S.turns src.old + limit + 1 }
{
    let mut bytes = Vec::new(alloc);
    let mut buffer = [0; CHUNK];
    while bytes.len() <= limit {
        let wanted = (limit - bytes.len()).min(CHUNK - 1) + 1;
        let count = src.take(&mut buffer[..wanted])?;
        if count == 0 {
            return Ok(bytes);
        }
        bytes.extend_from_slice(&buffer[..count])?;
    }
    Err(ReadStop::TooLong)
}
