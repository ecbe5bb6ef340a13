ghost use Rattle.std.specs.Prelude.{◌≡◌, ◌≢◌, ◌<◌, ◌↔◌, [], IfSome, IsSome};
ghost use Rattle.outside_io.specs.Bytes.{Appends};
ghost use Rattle.outside_io.specs.Counts.{counted};
ghost use Rattle.outside_io.specs.declared.turn.Turn.TheVariants.{Fault};
ghost use Rattle.outside_io.specs.Turns.{EndsOnce};
ghost use Rattle.term_tree.specs.declared.refusal.Refusal.{Refusal};
ghost use Rattle.answer_text.specs.Lines.{memory_text};
ghost use Rattle.check_input.specs.Inputs.{HasNoSystemOfCheck, HasRefusedScript};
ghost use Rattle.call_check.specs.Calls.{Checks, IsUnrefusedCheck, RefusesCheck, TellsVerdict, WritesPartOfCheck};
ghost use Rattle.sort_check.specs.Scripts.{ReadsInput};

use crate::plan::{Plan, plan_for};
use answer_text::memory_line;
use call_words::Status;
use check_input::inputs_are_parted_once;
use outside_io::{Sink, Source, write_all};
use sort_check::no_script_is_refused;
use std::alloc::Global;
use term_tree::Refusal;

/// How a call of `check` ended.
#[derive(Drop)]
pub struct Checked {
    pub status: Status,
    /// The bytes that were read, all of them. None where the end wasn't met.
    pub read: Vec<u8>,
    /// The refusal, exactly where the script is refused.
    pub refusal: Option<Refusal>,
}

/// Checks what the source gives: a script, a line that is the marker, and an answer. One text is written
/// into the sink: the verdict, or why there is none. Forms are given up after `nodes` inner nodes of a
/// split tree, at least 1.
///
/// Where a source or sink does not tell its bytes, the clauses on these say nothing.
pub fn check_call<S: Source, K: Sink>(
    alloc: Global,
    nodes: u32,
    source: &mut S,
    sink: &mut K,
) -> Checked
    requires some { 0 < nodes }
    ensures no_usage { result.status ≢ Status.Usage }

    // Answered, Wrong and NotShown: the sink holds the text of a verdict on the answer to the script that stands before it in the bytes read, and the verdict is of the status's kind: valid, wrong, not shown.
    ensures valid { result.status ≡ Status.Answered → Checks nodes (S.left source.old) result.read.items Status.Answered (K.held sink.old) (K.held sink.new) }
    ensures wrong { result.status ≡ Status.Wrong → Checks nodes (S.left source.old) result.read.items Status.Wrong (K.held sink.old) (K.held sink.new) }
    ensures not_shown { result.status ≡ Status.NotShown → Checks nodes (S.left source.old) result.read.items Status.NotShown (K.held sink.old) (K.held sink.new) }

    // Refused: it holds the line of the script's refusal.
    ensures refused { IfSome result.refusal (λ refusal. RefusesCheck (S.left source.old) (S.ends source.old) (S.ends source.new) result.read.items refusal (K.held sink.old) (K.held sink.new)) }
    ensures refuses_all { IfSome result.refusal (ReadsInput (S.left source.old) result.read.items) }
    ensures refusal { IsSome result.refusal ↔ (result.status ≡ Status.Refused) }

    // Both exactly: of an input that has no refusal none is told, and where the script is refused by the rules of commands, or has no system of clauses, no verdict is. However the terms of the script
    // are numbered, its clauses are the same (`texts_have_one_system` in `clause_readings`).
    ensures judges_scripts { IfSome (S.left source.old) (λ bytes. IsUnrefusedCheck bytes → result.status ≢ Status.Refused) }
    ensures refuses_others { IfSome (S.left source.old) (λ bytes. (refusal : Refusal) → HasRefusedScript bytes refusal → TellsVerdict result.status → ⊥) }
    ensures refuses_shapes { IfSome (S.left source.old) (λ bytes. HasNoSystemOfCheck bytes → TellsVerdict result.status → ⊥) }

    // ReadFault: exactly where the source has failed, and then nothing is written.
    ensures source_faults { result.status ≢ Status.ReadFault → S.faults source.new ≡ S.faults source.old }
    ensures read_fault { result.status ≡ Status.ReadFault → S.faults source.new ≡ counted (S.faults source.old) }
    ensures stops_reading { result.status ≡ Status.ReadFault → S.last source.new ≡ Fault }
    ensures unwritten { result.status ≡ Status.ReadFault → K.turns sink.new ≡ K.turns sink.old }
    ensures holds_nothing { result.status ≡ Status.ReadFault → K.held sink.new ≡ K.held sink.old }
    ensures failed_read { result.status ≡ Status.ReadFault → result.read.items ≡ [] }

    // WriteFault: exactly where the sink has failed, and then it holds a prefix of what was meant.
    ensures sink_faults { result.status ≢ Status.WriteFault → K.faults sink.new ≡ K.faults sink.old }
    ensures write_fault { result.status ≡ Status.WriteFault → K.faults sink.new ≡ counted (K.faults sink.old) }
    ensures stops_writing { result.status ≡ Status.WriteFault → K.last sink.new ≡ Fault }
    ensures writes_part { result.status ≡ Status.WriteFault → WritesPartOfCheck nodes (S.left source.old) (S.ends source.old) (S.ends source.new) result.read.items (K.held sink.old) (K.held sink.new) }

    // Memory: want of memory.
    ensures memory { result.status ≡ Status.Memory → Appends memory_text (K.held sink.old) (K.held sink.new) }

    // Whatever the status: nothing is asked of the source after its end, and the report keeps all that was read up to it, and nothing of an input whose end wasn't met.
    ensures ends { EndsOnce (S.ends source.old) (S.ends source.new) (S.last source.new) }
    ensures reads_all { S.ends source.new ≢ S.ends source.old → IfSome (S.left source.old) (λ bytes. result.read.items ≡ bytes) }
    ensures reads_none { S.ends source.new ≢ counted (S.ends source.old) → result.read.items ≡ [] }
{
    // Laws, which run nothing: an input has one script, and what is judged isn't refused by the rules of
    // commands.
    inputs_are_parted_once();
    no_script_is_refused();
    match plan_for(alloc, source, nodes) {
        Plan::Valid { read, text } => {
            let status = match write_all(sink, text.as_slice()) {
                Ok(()) => Status::Answered,
                Err(_) => Status::WriteFault,
            };
            Checked {
                status,
                read,
                refusal: None,
            }
        }
        Plan::Wrong { read, text } => {
            let status = match write_all(sink, text.as_slice()) {
                Ok(()) => Status::Wrong,
                Err(_) => Status::WriteFault,
            };
            Checked {
                status,
                read,
                refusal: None,
            }
        }
        Plan::NotShown { read, text } => {
            let status = match write_all(sink, text.as_slice()) {
                Ok(()) => Status::NotShown,
                Err(_) => Status::WriteFault,
            };
            Checked {
                status,
                read,
                refusal: None,
            }
        }
        Plan::Refused {
            read,
            refusal,
            line,
        } => match write_all(sink, line.as_slice()) {
            Ok(()) => Checked {
                status: Status::Refused,
                read,
                refusal: Some(refusal),
            },
            Err(_) => Checked {
                status: Status::WriteFault,
                read,
                refusal: None,
            },
        },
        Plan::Overlong { refusal, line } => {
            let read = Vec::new(alloc);
            match write_all(sink, line.as_slice()) {
                Ok(()) => Checked {
                    status: Status::Refused,
                    read,
                    refusal: Some(refusal),
                },
                Err(_) => Checked {
                    status: Status::WriteFault,
                    read,
                    refusal: None,
                },
            }
        }
        Plan::ReadFault => Checked {
            status: Status::ReadFault,
            read: Vec::new(alloc),
            refusal: None,
        },
        Plan::OutOfMemory { read } => {
            let status = match write_all(sink, memory_line()) {
                Ok(()) => Status::Memory,
                Err(_) => Status::WriteFault,
            };
            Checked {
                status,
                read,
                refusal: None,
            }
        }
    }
}
