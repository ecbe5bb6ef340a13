ghost use Rattle.std.specs.Prelude.{◌≡◌, ◌<◌, ◌≤◌, ℕ, List, length, min, None, IfOk, IfSome};
ghost use Rattle.std.specs.declared.option.Option.{Option};
ghost use Rattle.outside_io.specs.Bytes.{moved, Takes, IsAtEnd};
ghost use Rattle.outside_io.specs.Counts.{counted, faults_after};
ghost use Rattle.outside_io.specs.Turns.{taken_turn, ends_after, has_failed, is_named};
ghost use Rattle.outside_io.specs.declared.turn.Turn.{Turn};

use crate::turn::Failed;

/// Where bytes come from.
pub trait Source {
    /// The bytes that are left, where it tells them.
    ghost left: { Self → Option (List ℕ) };

    /// How often it has failed.
    ghost faults: { Self → ℕ };

    /// How often it was asked. The first turn has the number 1.
    ghost turns: { Self → ℕ };

    /// How the last turn went.
    ghost last: { Self → Turn };

    /// How often it was at its end.
    ghost ends: { Self → ℕ };

    /// The numbers of the turns that fail, where it tells them.
    ghost fails: { Self → Option (List ℕ) } = { λ _. None };

    /// The most bytes that it gives in one turn, where it tells that.
    ghost step: { Self → Option ℕ } = { λ _. None };

    /// Takes the next bytes, as many as it likes to give. None, into a buffer that is not empty, is
    /// the end.
    fn take(&mut self, into: &mut [u8]) -> Result<usize, Failed>
        ensures count { IfOk result (λ n. n ≤ length into.new) }
        ensures bytes { Takes (moved result into.new) (left self.old) (left self.new) }
        ensures end { IfOk result (λ n. n ≡ 0 → 0 < length into.new → IsAtEnd (left self.old)) }

        ensures faults { faults self.new ≡ faults_after result (faults self.old) }
        ensures turns { turns self.new ≡ counted (turns self.old) }
        ensures last { last self.new ≡ taken_turn result into.new }
        ensures ends { ends self.new ≡ ends_after (last self.new) (ends self.old) }

        // Where it tells which turns fail, exactly those do.
        ensures named { fails self.new ≡ fails self.old }
        ensures cause { IfSome (fails self.old) (λ named. has_failed result ≡ is_named named (turns self.new)) }

        // Where it tells its step, it gives as many bytes as that, its bytes and the buffer allow.
        ensures same_step { step self.new ≡ step self.old }
        ensures given { IfSome (step self.old) (λ step. IfSome (left self.old) (λ left. IfOk result (λ n. n ≡ min (min (length left) (length into.new)) step))) };
}
