ghost use Rattle.std.specs.Prelude.{◌≡◌, ◌≢◌, ◌↔◌, ◌⊎◌, ◌∷◌, ℕ, [], length, drop, map, IfOk, IfErr, IfSome, IsSome, None};
ghost use Rattle.std.specs.String.{string_bytes};
ghost use Rattle.std.specs.IoError.{error_kind};
ghost use Rattle.std.specs.Vec.Iter.{into_iter_items};
ghost use Rattle.outside_io.specs.Bytes.{Appends};
ghost use Rattle.outside_io.specs.Counts.{counted};
ghost use Rattle.outside_io.specs.declared.turn.Turn.TheVariants.{Fault};
ghost use Rattle.outside_io.specs.Turns.{EndsOnce};
ghost use Rattle.term_tree.specs.declared.refusal.Refusal.{Refusal};
ghost use Rattle.sort_check.specs.Scripts.{IsRefused, ReadsInput};
ghost use Rattle.answer_text.specs.Lines.{usage_text, memory_text};
ghost use Rattle.call_words.specs.Status.{status_number};
ghost use Rattle.call_words.specs.Words.{IsCall, IsCheckCall, IsGenCall, IsNoGenCall};
ghost use Rattle.call_words.specs.declared.limits.Limits.{Limits};
ghost use Rattle.call_solve.specs.Clauses.{HasNoSystem, IsUnrefused};
ghost use Rattle.book_answers.specs.Wanting.{wanting_text};
ghost use Rattle.call_solve.specs.Headline.{Answers, AreCounts, IsBookFor, Refuses, WritesPart};
ghost use Rattle.check_input.specs.Inputs.{HasNoSystemOfCheck, HasRefusedScript};
ghost use Rattle.call_check.specs.Calls.{Checks, IsUnrefusedCheck, RefusesCheck, TellsVerdict, WritesPartOfCheck};
ghost use Rattle.call_gen.specs.Summaries.{IsGeneratedBook, Summarises, WritesPartOfSummary};
ghost use Rattle.chc_cli.specs.Commands.{ByCommand, ByReader, BySearch, HoldsPart, HoldsPartOfUsage, HoldsPartOfWant, IsNoCommand, OfCheck};

use crate::run::{chc_run, no_command, no_memory};
use crate::words::words_after_name;
use call_solve::Report;
use call_words::Status;
use outside_io::{Sink, Source};
use std::alloc::Global;
use std::env::Args;
use std::io::{self, ErrorKind};
use std::sync::Wait;
use std::thread::Threads;
use worker_pool::FreeGate;

/// What `main` does: it hands all the words after the program's name to `chc_run`, with a gate that
/// holds no worker, and ends with the report's status. Words that can't be read as text are no command;
/// where they can't be had for want of memory, that is the answer.
pub fn chc_main<W: Threads + Wait + Sync, S: Source, K: Sink>(
    rt: &W,
    alloc: Global,
    args: io::Result<Args>,
    source: &mut S,
    sink: &mut K,
) -> Report
    // The words are all of them: no other list of words is taken for theirs.
    ensures solves { IfOk args (λ args. (limits : Limits) → IsCall (map string_bytes (drop 1 (into_iter_items args))) limits → result.status ≢ Status.Usage) }
    ensures checks { IfOk args (λ args. (nodes : ℕ) → IsCheckCall (map string_bytes (drop 1 (into_iter_items args))) nodes → result.status ≢ Status.Usage) }
    ensures generates { IfOk args (λ args. (depth seed : ℕ) → IsGenCall (map string_bytes (drop 1 (into_iter_items args))) depth seed
        → result.status ≢ Status.WriteFault → result.status ≢ Status.Memory → result.status ≡ Status.Answered) }
    ensures gen_unread { IfOk args (λ args. (depth seed : ℕ) → IsGenCall (map string_bytes (drop 1 (into_iter_items args))) depth seed → S.turns source.new ≡ S.turns source.old) }
    ensures other_words { IfOk args (λ args. IsNoCommand (map string_bytes (drop 1 (into_iter_items args))) → result.status ≢ Status.WriteFault → result.status ≢ Status.Memory → result.status ≡ Status.Usage) }
    ensures no_text { IfErr args (λ e. error_kind e ≢ ErrorKind.OutOfMemory → result.status ≢ Status.WriteFault → result.status ≡ Status.Usage) }
    ensures no_room { IfErr args (λ e. error_kind e ≡ ErrorKind.OutOfMemory → result.status ≢ Status.WriteFault → result.status ≡ Status.Memory) }
    ensures no_words { IfErr args (λ e. S.turns source.new ≡ S.turns source.old) }
    ensures no_book { IfErr args (λ e. result.book ≡ None) }
    ensures keeps_nothing { IfErr args (λ e. result.read.items ≡ []) }

    // What `chc_run` says of each status, and whatever the status.
    ensures answered { IfOk args (λ args. result.status ≡ Status.Answered → ByCommand (map string_bytes (drop 1 (into_iter_items args)))
        (λ limits. Answers limits result.read.items result.book (K.held sink.old) (K.held sink.new))
        (λ nodes. Checks nodes (S.left source.old) result.read.items Status.Answered (K.held sink.old) (K.held sink.new))
        (λ depth seed. Summarises depth seed result.book (K.held sink.old) (K.held sink.new))) }
    ensures wrong { IfOk args (λ args. result.status ≡ Status.Wrong → OfCheck (map string_bytes (drop 1 (into_iter_items args)))
        (λ nodes. Checks nodes (S.left source.old) result.read.items Status.Wrong (K.held sink.old) (K.held sink.new))) }
    ensures not_shown { IfOk args (λ args. result.status ≡ Status.NotShown → OfCheck (map string_bytes (drop 1 (into_iter_items args)))
        (λ nodes. Checks nodes (S.left source.old) result.read.items Status.NotShown (K.held sink.old) (K.held sink.new))) }
    ensures answers_all { IfOk args (λ args. IsNoGenCall (map string_bytes (drop 1 (into_iter_items args)))
        → result.status ≡ Status.Answered → IfSome (S.left source.old) (λ bytes. result.read.items ≡ bytes)) }
    ensures refused { IfOk args (λ args. IfSome result.refusal (λ refusal. ByReader (map string_bytes (drop 1 (into_iter_items args)))
        (λ limits. Refuses (S.left source.old) (S.ends source.old) (S.ends source.new) result.read.items refusal (K.held sink.old) (K.held sink.new))
        (λ nodes. RefusesCheck (S.left source.old) (S.ends source.old) (S.ends source.new) result.read.items refusal (K.held sink.old) (K.held sink.new)))) }
    ensures refuses_all { IfSome result.refusal (ReadsInput (S.left source.old) result.read.items) }
    ensures refusal { IsSome result.refusal ↔ (result.status ≡ Status.Refused) }
    ensures book { IfOk args (λ args. IfSome result.book (λ b. BySearch (map string_bytes (drop 1 (into_iter_items args)))
        (λ limits. IsBookFor limits result.read.items b) (λ depth seed. IsGeneratedBook depth seed b))) }
    ensures counts { IfOk args (λ args. IfSome result.book (λ b. BySearch (map string_bytes (drop 1 (into_iter_items args)))
        (λ limits. AreCounts limits b result.counts.items) (λ depth seed. result.counts.items ≡ length b.journal ∷ []))) }
    ensures uncounted { result.book ≡ None → result.counts.items ≡ [] }
    ensures check_book { IfOk args (λ args. (nodes : ℕ) → IsCheckCall (map string_bytes (drop 1 (into_iter_items args))) nodes → result.book ≡ None) }
    ensures answers_scripts { IfOk args (λ args. (limits : Limits) → IsCall (map string_bytes (drop 1 (into_iter_items args))) limits
        → IfSome (S.left source.old) (λ bytes. IsUnrefused bytes → result.status ≢ Status.Refused)) }
    ensures refuses_others { IfOk args (λ args. (limits : Limits) → IsCall (map string_bytes (drop 1 (into_iter_items args))) limits
        → IfSome (S.left source.old) (λ bytes. (refusal : Refusal) → IsRefused bytes refusal → result.status ≢ Status.Answered)) }
    ensures refuses_shapes { IfOk args (λ args. (limits : Limits) → IsCall (map string_bytes (drop 1 (into_iter_items args))) limits
        → IfSome (S.left source.old) (λ bytes. HasNoSystem bytes → result.status ≢ Status.Answered)) }
    ensures checks_scripts { IfOk args (λ args. (nodes : ℕ) → IsCheckCall (map string_bytes (drop 1 (into_iter_items args))) nodes
        → IfSome (S.left source.old) (λ bytes. IsUnrefusedCheck bytes → result.status ≢ Status.Refused)) }
    ensures checks_no_others { IfOk args (λ args. (nodes : ℕ) → IsCheckCall (map string_bytes (drop 1 (into_iter_items args))) nodes
        → IfSome (S.left source.old) (λ bytes. (refusal : Refusal) → HasRefusedScript bytes refusal → TellsVerdict result.status → ⊥)) }
    ensures checks_no_shapes { IfOk args (λ args. (nodes : ℕ) → IsCheckCall (map string_bytes (drop 1 (into_iter_items args))) nodes
        → IfSome (S.left source.old) (λ bytes. HasNoSystemOfCheck bytes → TellsVerdict result.status → ⊥)) }
    ensures unopened { IsSome result.refusal → result.book ≡ None }
    ensures gen_read { IfOk args (λ args. (depth seed : ℕ) → IsGenCall (map string_bytes (drop 1 (into_iter_items args))) depth seed → result.read.items ≡ []) }
    ensures unread { IfOk args (λ args. IsNoCommand (map string_bytes (drop 1 (into_iter_items args))) → S.turns source.new ≡ S.turns source.old) }
    ensures other_book { IfOk args (λ args. IsNoCommand (map string_bytes (drop 1 (into_iter_items args))) → result.book ≡ None) }
    ensures other_read { result.status ≡ Status.Usage → result.read.items ≡ [] }
    ensures unwritten { result.status ≡ Status.ReadFault → K.turns sink.new ≡ K.turns sink.old }
    ensures reads_all { S.ends source.new ≢ S.ends source.old → IfSome (S.left source.old) (λ bytes. result.read.items ≡ bytes) }
    ensures reads_none { S.ends source.new ≢ counted (S.ends source.old) → result.read.items ≡ [] }
    ensures usage { result.status ≡ Status.Usage → Appends usage_text (K.held sink.old) (K.held sink.new) }
    ensures source_faults { result.status ≢ Status.ReadFault → S.faults source.new ≡ S.faults source.old }
    ensures read_fault { result.status ≡ Status.ReadFault → S.faults source.new ≡ counted (S.faults source.old) }
    ensures sink_faults { result.status ≢ Status.WriteFault → K.faults sink.new ≡ K.faults sink.old }
    ensures write_fault { result.status ≡ Status.WriteFault → K.faults sink.new ≡ counted (K.faults sink.old) }
    ensures holds_nothing { result.status ≡ Status.ReadFault → K.held sink.new ≡ K.held sink.old }
    ensures stops_reading { result.status ≡ Status.ReadFault → S.last source.new ≡ Fault }
    ensures failed_read { result.status ≡ Status.ReadFault → result.read.items ≡ [] }
    ensures stops_writing { result.status ≡ Status.WriteFault → K.last sink.new ≡ Fault }
    ensures memory { result.status ≡ Status.Memory → Appends (wanting_text result.book) (K.held sink.old) (K.held sink.new) }

    // WriteFault: a prefix of what was meant for these words, or of the memory line where there was no room for them.
    ensures writes_part { IfOk args (λ args. result.status ≡ Status.WriteFault → (ByCommand (map string_bytes (drop 1 (into_iter_items args)))
        (λ limits. WritesPart limits (S.left source.old) (S.ends source.old) (S.ends source.new) result.read.items result.book (K.held sink.old) (K.held sink.new))
        (λ nodes. WritesPartOfCheck nodes (S.left source.old) (S.ends source.old) (S.ends source.new) result.read.items (K.held sink.old) (K.held sink.new))
        (λ depth seed. WritesPartOfSummary depth seed result.book (K.held sink.old) (K.held sink.new))
        ⊎ HoldsPartOfUsage (map string_bytes (drop 1 (into_iter_items args))) result.read.items (K.held sink.old) (K.held sink.new)
        ⊎ HoldsPartOfWant result.read.items (K.held sink.old) (K.held sink.new))
        ⊎ HoldsPart memory_text (K.held sink.old) (K.held sink.new)) }
    ensures writes_part_of_usage { IfErr args (λ e. error_kind e ≢ ErrorKind.OutOfMemory → result.status ≡ Status.WriteFault → HoldsPart usage_text (K.held sink.old) (K.held sink.new)) }
    ensures writes_part_of_memory { IfErr args (λ e. error_kind e ≡ ErrorKind.OutOfMemory → result.status ≡ Status.WriteFault → HoldsPart memory_text (K.held sink.old) (K.held sink.new)) }

    ensures ends { EndsOnce (S.ends source.old) (S.ends source.new) (S.last source.new) }
{
    match args {
        Ok(args) => match words_after_name(alloc, args) {
            Ok(words) => chc_run(rt, alloc, words.as_slice(), source, sink, &FreeGate),
            Err(_) => no_memory(alloc, sink),
        },
        Err(error) if error.kind() == ErrorKind::OutOfMemory => no_memory(alloc, sink),
        Err(_) => no_command(alloc, sink),
    }
}

/// The number that the program ends with.
pub fn exit_number(report: &Report) -> u8
    ensures { result ≡ status_number report.now.status }
{
    report.status.number()
}
