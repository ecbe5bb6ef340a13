ghost use Rattle.std.specs.Prelude.{◌≡◌, ◌≢◌, ◌↔◌, [], None, IfSome, IsSome};
ghost use Rattle.outside_io.specs.Bytes.{Appends};
ghost use Rattle.outside_io.specs.Counts.{counted};
ghost use Rattle.outside_io.specs.declared.turn.Turn.TheVariants.{Fault};
ghost use Rattle.outside_io.specs.Turns.{EndsOnce};
ghost use Rattle.term_tree.specs.declared.refusal.Refusal.{Refusal};
ghost use Rattle.sort_check.specs.Scripts.{IsRefused, ReadsInput};
ghost use Rattle.book_answers.specs.Wanting.{wanting_text};
ghost use Rattle.call_words.specs.Properties.{IsInRange};
ghost use Rattle.call_solve.specs.Clauses.{HasNoSystem, IsUnrefused};
ghost use Rattle.call_solve.specs.Headline.{Answers, AreCounts, IsBookFor, Refuses, WritesPart};

use crate::plan::{Plan, plan_for};
use answer_text::memory_line;
use book_answers::unfinished_lines;
use call_words::{Limits, Status};
use chc_core::Book;
use outside_io::{Sink, Source, write_all};
use sort_check::no_script_is_refused;
use std::alloc::Global;
use std::sync::Wait;
use std::thread::Threads;
use term_tree::Refusal;
use worker_pool::Gate;

/// How a call ended: a call of `solve`, and, as the program reports it, any other.
pub struct Report {
    pub status: Status,
    /// The bytes that were read, all of them. None where the end wasn't met, or nothing is to be read.
    pub read: Vec<u8>,
    /// The refusal, exactly where the script is refused.
    pub refusal: Option<Refusal>,
    /// The book of the clauses of a script that is to be solved, as the workers left it, wherever one was
    /// opened: at its end where the script is answered.
    pub book: Option<Book>,
    /// How many of the book's entries each worker wrote, in their order. None where there is no book.
    pub counts: Vec<u64>,
}

impl Drop for Report {
    fn drop(self) {
        let Report {
            status: _,
            read: _,
            refusal: _,
            book: _,
            counts: _,
        } = self;
    }
}

/// Solves the script that the source gives, by as many workers as the limits say and within them, and
/// writes one text into the sink. Of several workers each passes the gate before each of its turns.
///
/// Where a source or sink does not tell its bytes, the clauses on these say nothing.
pub fn solve_call<W: Threads + Wait + Sync, S: Source, K: Sink, G: Gate>(
    rt: &W,
    alloc: Global,
    limits: Limits,
    source: &mut S,
    sink: &mut K,
    gate: &G,
) -> Report
    requires { IsInRange limits }
    ensures no_usage { result.status ≢ Status.Usage }
    ensures no_wrong { result.status ≢ Status.Wrong }
    ensures no_unshown { result.status ≢ Status.NotShown }

    // Answered: the book over the clauses of the script that the bytes read spell has ended, and the sink holds the answer of its end: a derivation of false by the script's assertions,
    // definitions under which each of them is true, or the closed level and the cause.
    ensures answered { result.status ≡ Status.Answered → Answers limits result.read.items result.book (K.held sink.old) (K.held sink.new) }
    ensures answers_all { result.status ≡ Status.Answered → IfSome (S.left source.old) (λ bytes. result.read.items ≡ bytes) }

    // Refused: it is the line of the one refusal of the bytes.
    ensures refused { IfSome result.refusal (λ refusal. Refuses (S.left source.old) (S.ends source.old) (S.ends source.new) result.read.items refusal (K.held sink.old) (K.held sink.new)) }
    ensures refuses_all { IfSome result.refusal (ReadsInput (S.left source.old) result.read.items) }
    ensures refusal { IsSome result.refusal ↔ (result.status ≡ Status.Refused) }

    // Both exactly: of bytes that have no refusal none is told, and bytes that are no script, or have no system of clauses, are not answered. However the terms of a script are numbered, its clauses
    // are the same (`texts_have_one_system` in `clause_readings`).
    ensures answers_scripts { IfSome (S.left source.old) (λ bytes. IsUnrefused bytes → result.status ≢ Status.Refused) }
    ensures refuses_others { IfSome (S.left source.old) (λ bytes. (refusal : Refusal) → IsRefused bytes refusal → result.status ≢ Status.Answered) }
    ensures refuses_shapes { IfSome (S.left source.old) (λ bytes. HasNoSystem bytes → result.status ≢ Status.Answered) }

    // Whatever the status: the book is one of the script that the bytes read spell, within the limits, and no derivation of false is as low as its closed level. The workers' counts sum to the
    // length of its journal.
    ensures book { IfSome result.book (λ b. IsBookFor limits result.read.items b) }
    ensures counts { IfSome result.book (λ b. AreCounts limits b result.counts.items) }
    ensures unopened { IsSome result.refusal → result.book ≡ None }
    ensures uncounted { result.book ≡ None → result.counts.items ≡ [] }

    // ReadFault: exactly where the source has failed, and then nothing is written.
    ensures source_faults { result.status ≢ Status.ReadFault → S.faults source.new ≡ S.faults source.old }
    ensures read_fault { result.status ≡ Status.ReadFault → S.faults source.new ≡ counted (S.faults source.old) }
    ensures stops_reading { result.status ≡ Status.ReadFault → S.last source.new ≡ Fault }
    ensures unwritten { result.status ≡ Status.ReadFault → K.turns sink.new ≡ K.turns sink.old }
    ensures holds_nothing { result.status ≡ Status.ReadFault → K.held sink.new ≡ K.held sink.old }
    ensures failed_read { result.status ≡ Status.ReadFault → result.read.items ≡ [] }

    // WriteFault: exactly where the sink has failed, and then it holds a prefix of what was meant.
    ensures sink_faults { result.status ≢ Status.WriteFault → K.faults sink.new ≡ K.faults sink.old }
    ensures write_fault { result.status ≡ Status.WriteFault → K.faults sink.new ≡ counted (K.faults sink.old) }
    ensures stops_writing { result.status ≡ Status.WriteFault → K.last sink.new ≡ Fault }
    ensures writes_part { result.status ≡ Status.WriteFault → WritesPart limits (S.left source.old) (S.ends source.old) (S.ends source.new) result.read.items result.book (K.held sink.old) (K.held sink.new) }

    // Memory: want of memory: the closed level of the book, where there is one.
    ensures memory { result.status ≡ Status.Memory → Appends (wanting_text result.book) (K.held sink.old) (K.held sink.new) }

    // Whatever the status: nothing is asked of the source after its end, and the report keeps all that was read up to it, and nothing of an input whose end wasn't met.
    ensures ends { EndsOnce (S.ends source.old) (S.ends source.new) (S.last source.new) }
    ensures reads_all { S.ends source.new ≢ S.ends source.old → IfSome (S.left source.old) (λ bytes. result.read.items ≡ bytes) }
    ensures reads_none { S.ends source.new ≢ counted (S.ends source.old) → result.read.items ≡ [] }
{
    // A law, which runs nothing: what is answered isn't refused by the rules of commands.
    no_script_is_refused();
    match plan_for(rt, alloc, source, limits, gate) {
        Plan::Answered {
            read,
            book,
            counts,
            text,
        } => {
            let status = match write_all(sink, text.as_slice()) {
                Ok(()) => Status::Answered,
                Err(_) => Status::WriteFault,
            };
            Report {
                status,
                read,
                refusal: None,
                book: Some(book),
                counts,
            }
        }
        Plan::Unfinished { read, book, counts } => {
            let mut front = [0; 72];
            let length = unfinished_lines(book.level(), &mut front);
            let status = match write_all(sink, &front[..length]) {
                Ok(()) => Status::Memory,
                Err(_) => Status::WriteFault,
            };
            Report {
                status,
                read,
                refusal: None,
                book: Some(book),
                counts,
            }
        }
        Plan::Refused {
            read,
            refusal,
            line,
        } => match write_all(sink, line.as_slice()) {
            Ok(()) => Report {
                status: Status::Refused,
                read,
                refusal: Some(refusal),
                book: None,
                counts: Vec::new(alloc),
            },
            Err(_) => Report {
                status: Status::WriteFault,
                read,
                refusal: None,
                book: None,
                counts: Vec::new(alloc),
            },
        },
        Plan::Overlong { refusal, line } => {
            let read = Vec::new(alloc);
            match write_all(sink, line.as_slice()) {
                Ok(()) => Report {
                    status: Status::Refused,
                    read,
                    refusal: Some(refusal),
                    book: None,
                    counts: Vec::new(alloc),
                },
                Err(_) => Report {
                    status: Status::WriteFault,
                    read,
                    refusal: None,
                    book: None,
                    counts: Vec::new(alloc),
                },
            }
        }
        Plan::ReadFault => Report {
            status: Status::ReadFault,
            read: Vec::new(alloc),
            refusal: None,
            book: None,
            counts: Vec::new(alloc),
        },
        Plan::OutOfMemory { read } => {
            let status = match write_all(sink, memory_line()) {
                Ok(()) => Status::Memory,
                Err(_) => Status::WriteFault,
            };
            Report {
                status,
                read,
                refusal: None,
                book: None,
                counts: Vec::new(alloc),
            }
        }
    }
}
