ghost use Rattle.std.specs.Prelude.{◌≡◌, ◌≢◌, ◌↔◌, ◌⊎◌, ◌∷◌, [], length, map, ℕ, None, IfSome, IsSome};
ghost use Rattle.std.specs.String.{string_bytes};
ghost use Rattle.outside_io.specs.Bytes.{Appends};
ghost use Rattle.outside_io.specs.Counts.{counted};
ghost use Rattle.outside_io.specs.declared.turn.Turn.TheVariants.{Fault};
ghost use Rattle.outside_io.specs.Turns.{EndsOnce};
ghost use Rattle.term_tree.specs.declared.refusal.Refusal.{Refusal};
ghost use Rattle.sort_check.specs.Scripts.{IsRefused, ReadsInput};
ghost use Rattle.answer_text.specs.Lines.{memory_text, usage_text};
ghost use Rattle.call_words.specs.Words.{IsCall, IsCheckCall, IsGenCall, IsNoGenCall};
ghost use Rattle.call_words.specs.declared.limits.Limits.{Limits};
ghost use Rattle.call_solve.specs.Clauses.{HasNoSystem, IsUnrefused};
ghost use Rattle.book_answers.specs.Wanting.{wanting_text};
ghost use Rattle.call_solve.specs.Headline.{Answers, AreCounts, IsBookFor, Refuses, WritesPart};
ghost use Rattle.check_input.specs.Inputs.{HasNoSystemOfCheck, HasRefusedScript};
ghost use Rattle.call_check.specs.Calls.{Checks, IsUnrefusedCheck, RefusesCheck, TellsVerdict, WritesPartOfCheck};
ghost use Rattle.call_gen.specs.Summaries.{IsGeneratedBook, Summarises, WritesPartOfSummary};
ghost use Rattle.chc_cli.specs.Commands.{ByCommand, ByReader, BySearch, HoldsPart, HoldsPartOfUsage, HoldsPartOfWant, IsNoCommand, OfCheck};

use crate::command::{Command, command_of};
use answer_text::{memory_line, usage_line};
use call_check::check_call;
use call_gen::gen_call;
use call_solve::{Report, solve_call};
use call_words::{Status, calls_exclude_each_other};
use outside_io::{Sink, Source, write_all};
use std::alloc::Global;
use std::sync::Wait;
use std::thread::Threads;
use worker_pool::Gate;

/// The program: it carries out the words after the program's name over what the source gives, and
/// writes one text into the sink. A call of `solve` solves a script by as many workers as the words say,
/// and several pass the gate before each of their turns; a call of `check` checks the answer that stands
/// behind a script; and a call of `gen` solves the script that a depth and a seed give.
///
/// Where a source or sink does not tell its bytes, the clauses on these say nothing.
pub fn chc_run<W: Threads + Wait + Sync, S: Source, K: Sink, G: Gate>(
    rt: &W,
    alloc: Global,
    words: &[String],
    source: &mut S,
    sink: &mut K,
    gate: &G,
) -> Report
    // Answered, for `solve`: the book over the clauses of the script that the bytes read spell has ended, and the sink holds the answer of its end: a derivation of false by the script's assertions,
    // definitions under which each of them is true, or the closed level and the cause. For `check`: the sink holds the verdict on the bytes read, and it is that the answer is valid.
    // For `gen`: the book over the clauses of the generated script has ended, and the sink holds its summary.
    ensures answered { result.status ≡ Status.Answered → ByCommand (map string_bytes words.now)
        (λ limits. Answers limits result.read.items result.book (K.held sink.old) (K.held sink.new))
        (λ nodes. Checks nodes (S.left source.old) result.read.items Status.Answered (K.held sink.old) (K.held sink.new))
        (λ depth seed. Summarises depth seed result.book (K.held sink.old) (K.held sink.new)) }
    ensures answers_all { IsNoGenCall (map string_bytes words.now) → result.status ≡ Status.Answered → IfSome (S.left source.old) (λ bytes. result.read.items ≡ bytes) }

    // Wrong and NotShown, for `check` alone: the sink holds such a verdict, that the answer is wrong, or that it isn't shown.
    ensures wrong { result.status ≡ Status.Wrong → OfCheck (map string_bytes words.now)
        (λ nodes. Checks nodes (S.left source.old) result.read.items Status.Wrong (K.held sink.old) (K.held sink.new)) }
    ensures not_shown { result.status ≡ Status.NotShown → OfCheck (map string_bytes words.now)
        (λ nodes. Checks nodes (S.left source.old) result.read.items Status.NotShown (K.held sink.old) (K.held sink.new)) }

    // Refused: it holds the line of the one refusal of the bytes, for `check` of those that stand before the marker.
    ensures refused { IfSome result.refusal (λ refusal. ByReader (map string_bytes words.now)
        (λ limits. Refuses (S.left source.old) (S.ends source.old) (S.ends source.new) result.read.items refusal (K.held sink.old) (K.held sink.new))
        (λ nodes. RefusesCheck (S.left source.old) (S.ends source.old) (S.ends source.new) result.read.items refusal (K.held sink.old) (K.held sink.new))) }
    ensures refuses_all { IfSome result.refusal (ReadsInput (S.left source.old) result.read.items) }
    ensures refusal { IsSome result.refusal ↔ (result.status ≡ Status.Refused) }

    // Both exactly for `solve`: of bytes that have no refusal none is told, and bytes that are no script, or have no system of clauses, are not answered. These speak of every way in which the terms
    // of a script may be numbered; one tells it for all (`one_reading_is_enough` in `printed_laws`).
    ensures answers_scripts { (limits : Limits) → IsCall (map string_bytes words.now) limits
        → IfSome (S.left source.old) (λ bytes. IsUnrefused bytes → result.status ≢ Status.Refused) }
    ensures refuses_others { (limits : Limits) → IsCall (map string_bytes words.now) limits
        → IfSome (S.left source.old) (λ bytes. (refusal : Refusal) → IsRefused bytes refusal → result.status ≢ Status.Answered) }
    ensures refuses_shapes { (limits : Limits) → IsCall (map string_bytes words.now) limits
        → IfSome (S.left source.old) (λ bytes. HasNoSystem bytes → result.status ≢ Status.Answered) }

    // And for `check`: of an input whose script has no refusal none is told, and where it is refused by the rules of commands, or has no system of clauses, no verdict is. Here, too, one reading of the
    // script tells it for all, and a verdict of `valid` holds of each (`valid_verdicts_hold`).
    ensures checks_scripts { (nodes : ℕ) → IsCheckCall (map string_bytes words.now) nodes
        → IfSome (S.left source.old) (λ bytes. IsUnrefusedCheck bytes → result.status ≢ Status.Refused) }
    ensures checks_no_others { (nodes : ℕ) → IsCheckCall (map string_bytes words.now) nodes
        → IfSome (S.left source.old) (λ bytes. (refusal : Refusal) → HasRefusedScript bytes refusal → TellsVerdict result.status → ⊥) }
    ensures checks_no_shapes { (nodes : ℕ) → IsCheckCall (map string_bytes words.now) nodes
        → IfSome (S.left source.old) (λ bytes. HasNoSystemOfCheck bytes → TellsVerdict result.status → ⊥) }

    // Whatever the status: the book is one of the script that the bytes read spell, or for `gen` of the generated one, within the limits, and no derivation of false is as low as its closed level.
    ensures book { IfSome result.book (λ b. BySearch (map string_bytes words.now) (λ limits. IsBookFor limits result.read.items b) (λ depth seed. IsGeneratedBook depth seed b)) }
    ensures unopened { IsSome result.refusal → result.book ≡ None }

    // One count for each worker, and they sum to the length of its journal.
    ensures counts { IfSome result.book (λ b. BySearch (map string_bytes words.now)
        (λ limits. AreCounts limits b result.counts.items) (λ depth seed. result.counts.items ≡ length b.journal ∷ [])) }
    ensures uncounted { result.book ≡ None → result.counts.items ≡ [] }

    // `gen` asks nothing of the source, and ends with a summary, a sink that has failed, or want of memory.
    ensures generates { (depth seed : ℕ) → IsGenCall (map string_bytes words.now) depth seed → result.status ≢ Status.WriteFault → result.status ≢ Status.Memory → result.status ≡ Status.Answered }
    ensures gen_unread { (depth seed : ℕ) → IsGenCall (map string_bytes words.now) depth seed → S.turns source.new ≡ S.turns source.old }
    ensures gen_read { (depth seed : ℕ) → IsGenCall (map string_bytes words.now) depth seed → result.read.items ≡ [] }

    // Usage: words that are no command are answered so, unless memory is wanted to read them, and nothing is read for them.
    ensures usage { result.status ≡ Status.Usage → Appends usage_text (K.held sink.old) (K.held sink.new) }
    ensures solves { (limits : Limits) → IsCall (map string_bytes words.now) limits → result.status ≢ Status.Usage }
    ensures checks { (nodes : ℕ) → IsCheckCall (map string_bytes words.now) nodes → result.status ≢ Status.Usage }
    ensures other_words { IsNoCommand (map string_bytes words.now) → result.status ≢ Status.WriteFault → result.status ≢ Status.Memory → result.status ≡ Status.Usage }
    ensures unread { IsNoCommand (map string_bytes words.now) → S.turns source.new ≡ S.turns source.old }
    ensures other_book { IsNoCommand (map string_bytes words.now) → result.book ≡ None }
    ensures check_book { (nodes : ℕ) → IsCheckCall (map string_bytes words.now) nodes → result.book ≡ None }
    ensures other_read { result.status ≡ Status.Usage → result.read.items ≡ [] }

    // ReadFault: exactly where the source has failed, and then nothing is written.
    ensures source_faults { result.status ≢ Status.ReadFault → S.faults source.new ≡ S.faults source.old }
    ensures read_fault { result.status ≡ Status.ReadFault → S.faults source.new ≡ counted (S.faults source.old) }
    ensures stops_reading { result.status ≡ Status.ReadFault → S.last source.new ≡ Fault }
    ensures unwritten { result.status ≡ Status.ReadFault → K.turns sink.new ≡ K.turns sink.old }
    ensures holds_nothing { result.status ≡ Status.ReadFault → K.held sink.new ≡ K.held sink.old }
    ensures failed_read { result.status ≡ Status.ReadFault → result.read.items ≡ [] }

    // WriteFault: exactly where the sink has failed, and then it holds a prefix of what was meant.
    ensures sink_faults { result.status ≢ Status.WriteFault → K.faults sink.new ≡ K.faults sink.old }
    ensures write_fault { result.status ≡ Status.WriteFault → K.faults sink.new ≡ counted (K.faults sink.old) }
    ensures stops_writing { result.status ≡ Status.WriteFault → K.last sink.new ≡ Fault }
    ensures writes_part { result.status ≡ Status.WriteFault → ByCommand (map string_bytes words.now)
        (λ limits. WritesPart limits (S.left source.old) (S.ends source.old) (S.ends source.new) result.read.items result.book (K.held sink.old) (K.held sink.new))
        (λ nodes. WritesPartOfCheck nodes (S.left source.old) (S.ends source.old) (S.ends source.new) result.read.items (K.held sink.old) (K.held sink.new))
        (λ depth seed. WritesPartOfSummary depth seed result.book (K.held sink.old) (K.held sink.new))
        ⊎ HoldsPartOfUsage (map string_bytes words.now) result.read.items (K.held sink.old) (K.held sink.new)
        ⊎ HoldsPartOfWant result.read.items (K.held sink.old) (K.held sink.new) }

    // Memory: want of memory: the closed level of the book, where there is one.
    ensures memory { result.status ≡ Status.Memory → Appends (wanting_text result.book) (K.held sink.old) (K.held sink.new) }

    // Whatever the status: nothing is asked of the source after its end, and the report keeps all that was read up to it, and nothing of an input whose end wasn't met.
    ensures ends { EndsOnce (S.ends source.old) (S.ends source.new) (S.last source.new) }
    ensures reads_all { S.ends source.new ≢ S.ends source.old → IfSome (S.left source.old) (λ bytes. result.read.items ≡ bytes) }
    ensures reads_none { S.ends source.new ≢ counted (S.ends source.old) → result.read.items ≡ [] }
{
    // A law, which runs nothing: words never call two commands.
    calls_exclude_each_other();
    match command_of(alloc, words) {
        Command::Solve(limits) => solve_call(rt, alloc, limits, source, sink, gate),
        Command::Check(nodes) => {
            let checked = check_call(alloc, nodes, source, sink);
            Report {
                status: checked.status,
                read: checked.read,
                refusal: checked.refusal,
                book: None,
                counts: Vec::new(alloc),
            }
        }
        Command::Gen { depth, seed } => {
            let summed = gen_call(alloc, depth, seed, sink);
            Report {
                status: summed.status,
                read: Vec::new(alloc),
                refusal: None,
                book: summed.book,
                counts: summed.counts,
            }
        }
        Command::Usage => no_command(alloc, sink),
        Command::Wanting => no_memory(alloc, sink),
    }
}

/// The report where the words are no command.
pub(crate) fn no_command<K: Sink>(alloc: Global, sink: &mut K) -> Report
    ensures statuses { result.status ≢ Status.WriteFault → result.status ≡ Status.Usage }
    ensures read { result.read.items ≡ [] }
    ensures sink_faults { result.status ≢ Status.WriteFault → K.faults sink.new ≡ K.faults sink.old }
    ensures write_fault { result.status ≡ Status.WriteFault → K.faults sink.new ≡ counted (K.faults sink.old) }
    ensures usage { result.status ≡ Status.Usage → Appends usage_text (K.held sink.old) (K.held sink.new) }
    ensures stops_writing { result.status ≡ Status.WriteFault → K.last sink.new ≡ Fault }
    ensures writes_part { result.status ≡ Status.WriteFault → HoldsPart usage_text (K.held sink.old) (K.held sink.new) }
    ensures refusal { result.refusal ≡ None }
    ensures book { result.book ≡ None }
    ensures counts { result.counts.items ≡ [] }
{
    let status = match write_all(sink, usage_line()) {
        Ok(()) => Status::Usage,
        Err(_) => Status::WriteFault,
    };
    Report {
        status,
        read: Vec::new(alloc),
        refusal: None,
        book: None,
        counts: Vec::new(alloc),
    }
}

/// The report where memory was wanted before the words were read.
pub(crate) fn no_memory<K: Sink>(alloc: Global, sink: &mut K) -> Report
    ensures statuses { result.status ≢ Status.WriteFault → result.status ≡ Status.Memory }
    ensures read { result.read.items ≡ [] }
    ensures sink_faults { result.status ≢ Status.WriteFault → K.faults sink.new ≡ K.faults sink.old }
    ensures write_fault { result.status ≡ Status.WriteFault → K.faults sink.new ≡ counted (K.faults sink.old) }
    ensures memory { result.status ≡ Status.Memory → Appends memory_text (K.held sink.old) (K.held sink.new) }
    ensures stops_writing { result.status ≡ Status.WriteFault → K.last sink.new ≡ Fault }
    ensures writes_part { result.status ≡ Status.WriteFault → HoldsPart memory_text (K.held sink.old) (K.held sink.new) }
    ensures refusal { result.refusal ≡ None }
    ensures book { result.book ≡ None }
    ensures counts { result.counts.items ≡ [] }
{
    let status = match write_all(sink, memory_line()) {
        Ok(()) => Status::Memory,
        Err(_) => Status::WriteFault,
    };
    Report {
        status,
        read: Vec::new(alloc),
        refusal: None,
        book: None,
        counts: Vec::new(alloc),
    }
}
