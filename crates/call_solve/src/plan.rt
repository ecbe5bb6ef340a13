ghost use Rattle.std.specs.Prelude.{◌≡◌, ◌≢◌, [], ◌≤◌, ◌<◌, List, ℕ, length, vec_len, Some, None, true, false, IfSome, if◌then◌else◌};
ghost use Rattle.base.specs.Limits.{most_bytes};
ghost use Rattle.outside_io.specs.Counts.{counted};
ghost use Rattle.outside_io.specs.declared.turn.Turn.TheVariants.{Fault};
ghost use Rattle.outside_io.specs.Turns.{EndsOnce};
ghost use Rattle.call_words.specs.Properties.{IsInRange};
ghost use Rattle.call_words.specs.declared.limits.Limits.{Limits};
ghost use Rattle.call_solve.specs.machinery.Plans.{IsPlan, IsEnded, IsUnended, is_fault, read_of};

use crate::answer::{Answer, answer_to};
use crate::lines::refusal_line;
use base::MOST_BYTES;
use call_words::Limits;
use chc_core::Book;
use outside_io::{ReadStop, Source, read_all};
use std::alloc::Global;
use std::sync::Wait;
use std::thread::Threads;
use term_tree::{Kind, Refusal};
use worker_pool::Gate;

/// What a call of `solve` is to write, whole, before anything is written.
#[derive(Drop)]
pub(crate) enum Plan {
    Answered {
        read: Vec<u8>,
        book: Book,
        counts: Vec<u64>,
        text: Vec<u8>,
    },
    Unfinished {
        read: Vec<u8>,
        book: Book,
        counts: Vec<u64>,
    },
    Refused {
        read: Vec<u8>,
        refusal: Refusal,
        line: Vec<u8>,
    },
    Overlong {
        refusal: Refusal,
        line: Vec<u8>,
    },
    ReadFault,
    OutOfMemory {
        read: Vec<u8>,
    },
}

/// Reads the source to its end, and finds what is to be written.
pub(crate) fn plan_for<W: Threads + Wait + Sync, S: Source, G: Gate>(
    rt: &W,
    alloc: Global,
    source: &mut S,
    limits: Limits,
    gate: &G,
) -> Plan
    requires { IsInRange limits }
    ensures plan { IsPlan limits (S.left source.old) result }
    ensures faults { S.faults source.new ≡ (if is_fault result then counted (S.faults source.old) else S.faults source.old) }
    ensures last { is_fault result ≡ true → S.last source.new ≡ Fault }

    // All that was read is kept where the end was met, and else nothing. What ends isn't too long, and what is too long doesn't end.
    ensures ends { EndsOnce (S.ends source.old) (S.ends source.new) (S.last source.new) }
    ensures whole { S.ends source.new ≢ S.ends source.old → IfSome (S.left source.old) (λ bytes. read_of result ≡ bytes) }
    ensures none { S.ends source.new ≢ counted (S.ends source.old) → read_of result ≡ [] }
    ensures ended { S.ends source.new ≢ S.ends source.old → IsEnded result }
    ensures unended { S.ends source.new ≢ counted (S.ends source.old) → IsUnended result }
{
    match read_all(alloc, source, MOST_BYTES) {
        Ok(read) => plan_of(rt, alloc, read, limits, gate),
        Err(ReadStop::TooLong) => plan_of_too_long(alloc),
        Err(ReadStop::ReadFault) => Plan::ReadFault,
        Err(ReadStop::Memory) => Plan::OutOfMemory {
            read: Vec::new(alloc),
        },
    }
}

/// What is to be written for the bytes of an input that isn't too long.
fn plan_of<W: Threads + Wait + Sync, G: Gate>(
    rt: &W,
    alloc: Global,
    read: Vec<u8>,
    limits: Limits,
    gate: &G,
) -> Plan
    requires short { vec_len read ≤ most_bytes }
    requires range { IsInRange limits }
    ensures plan { IsPlan limits (Some read.items) result }
    ensures fault { is_fault result ≡ false }
    ensures read { read_of result ≡ read.items }
    ensures ended { IsEnded result }
{
    match answer_to(rt, alloc, read.as_slice(), limits, gate) {
        Ok(Answer::Refused { refusal, line }) => Plan::Refused {
            read,
            refusal,
            line,
        },
        Ok(Answer::Answered { book, counts, text }) => Plan::Answered {
            read,
            book,
            counts,
            text,
        },
        Ok(Answer::Unfinished { book, counts }) => Plan::Unfinished { read, book, counts },
        Err(_) => Plan::OutOfMemory { read },
    }
}

/// What is to be written where the input has too many bytes.
fn plan_of_too_long(alloc: Global) -> Plan
    ensures plan { (limits : Limits) (bytes : List ℕ) → most_bytes < length bytes → IsPlan limits (Some bytes) result }
    ensures untold { (limits : Limits) → IsPlan limits None result }
    ensures fault { is_fault result ≡ false }
    ensures none { read_of result ≡ [] }
    ensures unended { IsUnended result }
{
    let refusal = Refusal {
        kind: Kind::TooLong,
        offset: MOST_BYTES as u64,
        command: 0,
    };
    match refusal_line(alloc, &refusal) {
        Ok(line) => Plan::Overlong { refusal, line },
        Err(_) => Plan::OutOfMemory {
            read: Vec::new(alloc),
        },
    }
}
