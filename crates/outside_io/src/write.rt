ghost use Rattle.std.specs.Prelude.{◌≡◌, ◌+◌, ◌<◌, ◌≤◌, ◌||◌, ℕ, length, take, OnOk, OnErr, IfSome, IsTrue};
ghost use Rattle.outside_io.specs.Bytes.{Appends, Uses};
ghost use Rattle.outside_io.specs.Counts.{faults_after};
ghost use Rattle.outside_io.specs.Turns.{is_named, is_full};
ghost use Rattle.outside_io.specs.declared.turn.Turn.TheVariants.{Fault};

use crate::sink::Sink;
use crate::turn::Failed;

/// Puts all the bytes at the end, again and again until none is left. It stops at the first fault. It
/// takes no memory.
pub fn write_all<K: Sink>(sink: &mut K, bytes: &[u8]) -> Result<(), Failed>
    ensures ok { OnOk result (Appends bytes.now (K.held sink.old) (K.held sink.new)) }
    ensures room { OnOk result (Uses (length bytes.now) (K.room sink.old) (K.room sink.new)) }

    // A prefix was put, and not all.
    ensures err { OnErr result ((n : ℕ) × (n < length bytes.now) × Appends (take n bytes.now) (K.held sink.old) (K.held sink.new) × Uses n (K.room sink.old) (K.room sink.new)) }

    // One turn at most has failed, the last, and exactly at a fault. It is one of those named, or met no room.
    ensures faults { K.faults sink.new ≡ faults_after result (K.faults sink.old) }
    ensures last { OnErr result (K.last sink.new ≡ Fault) }
    ensures named { K.fails sink.new ≡ K.fails sink.old }
    ensures cause { OnErr result (IfSome (K.fails sink.old) (λ named. IsTrue (is_named named (K.turns sink.new) || is_full (K.room sink.new)))) }

    ensures turns { K.turns sink.new ≤ K.turns sink.old + length bytes.now }
{
    let mut at = 0;
    while at < bytes.len() {
        at += sink.put(&bytes[at..])?;
    }
    Ok(())
}
