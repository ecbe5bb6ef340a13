ghost use Rattle.std.specs.Prelude.{◌≡◌, ◌≢◌, ◌≤◌, ◌<◌, ◌^◌, ◌∷◌, ℕ, [], length, take, None, IfSome};
ghost use Rattle.outside_io.specs.Bytes.{Appends};
ghost use Rattle.outside_io.specs.Counts.{counted};
ghost use Rattle.outside_io.specs.declared.turn.Turn.TheVariants.{Fault};
ghost use Rattle.answer_text.specs.Lines.{memory_text};
ghost use Rattle.call_words.specs.Words.{default_nodes, default_units};
ghost use Rattle.book_answers.specs.Wanting.{wanting_text};
ghost use Rattle.call_gen.specs.Summaries.{IsGeneratedBook, IsGeneratedSummary, Summarises, WritesPartOfSummary, generated};
ghost use Rattle.call_gen.specs.Answers.{IsMadeOf};

use crate::answer::{Generated, answer_for};
use answer_text::memory_line;
use book_answers::unfinished_lines;
use call_words::Status;
use chc_core::Book;
use outside_io::{Sink, write_all};
use std::alloc::Global;

/// The units of a call of `solve` that gives none.
const UNITS: u32 = 50_000;

/// And the inner nodes at which it gives a query up.
const NODES: u32 = 2_000;

/// How a call of `gen` ended.
#[derive(Drop)]
pub struct Summarised {
    pub status: Status,
    /// The book of the script's clauses, wherever one was opened: at its end where the summary is
    /// written.
    pub book: Option<Book>,
    /// How many entries the book has, which its one worker wrote. None where there is no book.
    pub counts: Vec<u64>,
}

/// Solves the script of that depth and seed with one worker, within the limits of a call of `solve` that
/// gives none, and writes one text into the sink.
///
/// Where a sink does not tell its bytes, the clauses on these say nothing.
pub fn gen_call<K: Sink>(alloc: Global, depth: u32, seed: u32, sink: &mut K) -> Summarised
    requires depth { depth ≤ 12 }
    requires seed { seed < 2 ^ 31 }
    ensures few { result.status ≢ Status.WriteFault → result.status ≢ Status.Memory → result.status ≡ Status.Answered }

    // Answered: the book over the clauses of the generated script has ended, and the sink holds its summary: of a derivation of false by the script's assertions, how many steps it has and how high
    // it is, and at any other end what `solve` prints.
    ensures answered { result.status ≡ Status.Answered → Summarises depth seed result.book (K.held sink.old) (K.held sink.new) }

    // Whatever the status: the book is one of that script, within the limits, and no derivation of false is as low as its closed level.
    ensures book { IfSome result.book (λ b. IsGeneratedBook depth seed b) }
    ensures counts { IfSome result.book (λ b. result.counts.items ≡ length b.journal ∷ []) }
    ensures uncounted { result.book ≡ None → result.counts.items ≡ [] }

    // WriteFault: exactly where the sink has failed, and then it holds a prefix of what was meant.
    ensures sink_faults { result.status ≢ Status.WriteFault → K.faults sink.new ≡ K.faults sink.old }
    ensures write_fault { result.status ≡ Status.WriteFault → K.faults sink.new ≡ counted (K.faults sink.old) }
    ensures stops_writing { result.status ≡ Status.WriteFault → K.last sink.new ≡ Fault }
    ensures writes_part { result.status ≡ Status.WriteFault → WritesPartOfSummary depth seed result.book (K.held sink.old) (K.held sink.new) }

    // Memory: want of memory: the closed level of the book, where there is one.
    ensures memory { result.status ≡ Status.Memory → Appends (wanting_text result.book) (K.held sink.old) (K.held sink.new) }
{
    match answer_for(alloc, depth, seed, UNITS, NODES) {
        Ok(found) => written(found, depth, seed, sink),
        Err(_) => wanting(alloc, sink),
    }
}

/// Writes what came of the script of that depth and seed.
fn written<K: Sink>(found: Generated, depth: u32, seed: u32, sink: &mut K) -> Summarised
    requires { IsMadeOf (generated depth seed) default_units default_nodes found }
    ensures few { result.status ≢ Status.WriteFault → result.status ≢ Status.Memory → result.status ≡ Status.Answered }
    ensures answered { result.status ≡ Status.Answered → Summarises depth seed result.book (K.held sink.old) (K.held sink.new) }
    ensures book { IfSome result.book (λ b. IsGeneratedBook depth seed b) }
    ensures counts { IfSome result.book (λ b. result.counts.items ≡ length b.journal ∷ []) }
    ensures uncounted { result.book ≡ None → result.counts.items ≡ [] }
    ensures sink_faults { result.status ≢ Status.WriteFault → K.faults sink.new ≡ K.faults sink.old }
    ensures write_fault { result.status ≡ Status.WriteFault → K.faults sink.new ≡ counted (K.faults sink.old) }
    ensures stops_writing { result.status ≡ Status.WriteFault → K.last sink.new ≡ Fault }
    ensures writes_part { result.status ≡ Status.WriteFault → WritesPartOfSummary depth seed result.book (K.held sink.old) (K.held sink.new) }
    ensures memory { result.status ≡ Status.Memory → Appends (wanting_text result.book) (K.held sink.old) (K.held sink.new) }
{
    match found {
        Generated::Answered { book, counts, text } => {
            answered(book, counts, text, depth, seed, sink)
        }
        Generated::Unfinished { book, counts } => unfinished(book, counts, depth, seed, sink),
    }
}

/// Writes the summary of a book that has ended.
fn answered<K: Sink>(
    book: Book,
    counts: Vec<u64>,
    text: Vec<u8>,
    depth: u32,
    seed: u32,
    sink: &mut K,
) -> Summarised
    requires summary { IsGeneratedSummary depth seed book text.items }
    requires counts { counts.items ≡ length book.journal ∷ [] }
    ensures few { result.status ≢ Status.WriteFault → result.status ≢ Status.Memory → result.status ≡ Status.Answered }
    ensures answered { result.status ≡ Status.Answered → Summarises depth seed result.book (K.held sink.old) (K.held sink.new) }
    ensures book { IfSome result.book (λ b. IsGeneratedBook depth seed b) }
    ensures counts { IfSome result.book (λ b. result.counts.items ≡ length b.journal ∷ []) }
    ensures uncounted { result.book ≡ None → result.counts.items ≡ [] }
    ensures sink_faults { result.status ≢ Status.WriteFault → K.faults sink.new ≡ K.faults sink.old }
    ensures write_fault { result.status ≡ Status.WriteFault → K.faults sink.new ≡ counted (K.faults sink.old) }
    ensures stops_writing { result.status ≡ Status.WriteFault → K.last sink.new ≡ Fault }
    ensures writes_part { result.status ≡ Status.WriteFault → WritesPartOfSummary depth seed result.book (K.held sink.old) (K.held sink.new) }
    ensures memory { result.status ≡ Status.Memory → Appends (wanting_text result.book) (K.held sink.old) (K.held sink.new) }
{
    let (_depth, _seed) = (depth, seed);
    let status = status_of(text.as_slice(), Status::Answered, sink);
    Summarised {
        status,
        book: Some(book),
        counts,
    }
}

/// Writes the closed level of a book for which memory was wanted.
fn unfinished<K: Sink>(
    book: Book,
    counts: Vec<u64>,
    depth: u32,
    seed: u32,
    sink: &mut K,
) -> Summarised
    requires book { IsGeneratedBook depth seed book }
    requires counts { counts.items ≡ length book.journal ∷ [] }
    ensures few { result.status ≢ Status.WriteFault → result.status ≢ Status.Memory → result.status ≡ Status.Answered }
    ensures answered { result.status ≡ Status.Answered → Summarises depth seed result.book (K.held sink.old) (K.held sink.new) }
    ensures book { IfSome result.book (λ b. IsGeneratedBook depth seed b) }
    ensures counts { IfSome result.book (λ b. result.counts.items ≡ length b.journal ∷ []) }
    ensures uncounted { result.book ≡ None → result.counts.items ≡ [] }
    ensures sink_faults { result.status ≢ Status.WriteFault → K.faults sink.new ≡ K.faults sink.old }
    ensures write_fault { result.status ≡ Status.WriteFault → K.faults sink.new ≡ counted (K.faults sink.old) }
    ensures stops_writing { result.status ≡ Status.WriteFault → K.last sink.new ≡ Fault }
    ensures writes_part { result.status ≡ Status.WriteFault → WritesPartOfSummary depth seed result.book (K.held sink.old) (K.held sink.new) }
    ensures memory { result.status ≡ Status.Memory → Appends (wanting_text result.book) (K.held sink.old) (K.held sink.new) }
{
    let (_depth, _seed) = (depth, seed);
    let mut front = [0; 72];
    let length = unfinished_lines(book.level(), &mut front);
    let status = status_of(&front[..length], Status::Memory, sink);
    Summarised {
        status,
        book: Some(book),
        counts,
    }
}

/// Writes the line for want of memory, where there is no book.
fn wanting<K: Sink>(alloc: Global, sink: &mut K) -> Summarised
    ensures statuses { result.status ≢ Status.WriteFault → result.status ≡ Status.Memory }
    ensures book { result.book ≡ None }
    ensures counts { result.counts.items ≡ [] }
    ensures sink_faults { result.status ≢ Status.WriteFault → K.faults sink.new ≡ K.faults sink.old }
    ensures write_fault { result.status ≡ Status.WriteFault → K.faults sink.new ≡ counted (K.faults sink.old) }
    ensures stops_writing { result.status ≡ Status.WriteFault → K.last sink.new ≡ Fault }
    ensures part { result.status ≡ Status.WriteFault → (n : ℕ) × (n < length memory_text) × Appends (take n memory_text) (K.held sink.old) (K.held sink.new) }
    ensures memory { result.status ≡ Status.Memory → Appends memory_text (K.held sink.old) (K.held sink.new) }
{
    let status = status_of(memory_line(), Status::Memory, sink);
    Summarised {
        status,
        book: None,
        counts: Vec::new(alloc),
    }
}

/// Writes a text: the status that is given where all of it is written, else that the sink has failed.
fn status_of<K: Sink>(text: &[u8], status: Status, sink: &mut K) -> Status
    requires { status ≢ Status.WriteFault }
    ensures whole { result ≢ Status.WriteFault → (result ≡ status) × Appends text.now (K.held sink.old) (K.held sink.new) }
    ensures sink_faults { result ≢ Status.WriteFault → K.faults sink.new ≡ K.faults sink.old }
    ensures write_fault { result ≡ Status.WriteFault → K.faults sink.new ≡ counted (K.faults sink.old) }
    ensures stops_writing { result ≡ Status.WriteFault → K.last sink.new ≡ Fault }
    ensures part { result ≡ Status.WriteFault → (n : ℕ) × (n < length text.now) × Appends (take n text.now) (K.held sink.old) (K.held sink.new) }
{
    match write_all(sink, text) {
        Ok(()) => status,
        Err(_) => Status::WriteFault,
    }
}
