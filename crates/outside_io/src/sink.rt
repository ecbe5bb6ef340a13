ghost use Rattle.std.specs.Prelude.{◌≡◌, ◌<◌, ◌≤◌, ℕ, List, length, min, None, IfOk, IfSome};
ghost use Rattle.std.specs.declared.option.Option.{Option};
ghost use Rattle.outside_io.specs.Bytes.{moved, moved_count, Appends, Uses};
ghost use Rattle.outside_io.specs.Counts.{counted, faults_after};
ghost use Rattle.outside_io.specs.Turns.{put_turn, has_failed, refuses};
ghost use Rattle.outside_io.specs.declared.turn.Turn.{Turn};

use crate::turn::Failed;

/// Where bytes go.
pub trait Sink {
    /// The bytes that it holds, where it tells them.
    ghost held: { Self → Option (List ℕ) };

    /// How many more bytes it can hold, where it tells that.
    ghost room: { Self → Option ℕ } = { λ _. None };

    /// How often it has failed.
    ghost faults: { Self → ℕ };

    /// How often it was asked. The first turn has the number 1.
    ghost turns: { Self → ℕ };

    /// How the last turn went.
    ghost last: { Self → Turn };

    /// The numbers of the turns that fail whatever the room, where it tells them.
    ghost fails: { Self → Option (List ℕ) } = { λ _. None };

    /// The most bytes that it takes in one turn, where it tells that.
    ghost step: { Self → Option ℕ } = { λ _. None };

    /// Puts the first bytes of the piece at the end, at least one if there is one.
    fn put(&mut self, piece: &[u8]) -> Result<usize, Failed>
        ensures count { IfOk result (λ n. n ≤ length piece.now) }
        ensures some { IfOk result (λ n. 0 < length piece.now → 0 < n) }
        ensures bytes { Appends (moved result piece.now) (held self.old) (held self.new) }
        ensures room { Uses (moved_count result) (room self.old) (room self.new) }

        ensures faults { faults self.new ≡ faults_after result (faults self.old) }
        ensures turns { turns self.new ≡ counted (turns self.old) }
        ensures last { last self.new ≡ put_turn result }

        // Where it tells which turns fail, exactly those do, and those where bytes meet no room.
        ensures named { fails self.new ≡ fails self.old }
        ensures cause { IfSome (fails self.old) (λ named. has_failed result ≡ refuses named (turns self.new) (room self.old) piece.now) }

        // Where it tells its step, it takes as many bytes as that, its room and the piece allow.
        ensures same_step { step self.new ≡ step self.old }
        ensures taken { IfSome (step self.old) (λ step. IfSome (room self.old) (λ room. IfOk result (λ n. n ≡ min (min (length piece.now) room) step))) };
}
