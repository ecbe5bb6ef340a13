//! What a call of `check` is to write, whole, before anything is written.

ghost use Rattle.std.specs.Prelude.{◌≡◌, ◌≢◌, [], ◌≤◌, ◌<◌, List, ℕ, length, vec_len, Some, None, true, false, IfSome, if◌then◌else◌};
ghost use Rattle.base.specs.Limits.{most_bytes};
ghost use Rattle.outside_io.specs.Counts.{counted};
ghost use Rattle.outside_io.specs.declared.turn.Turn.TheVariants.{Fault};
ghost use Rattle.outside_io.specs.Turns.{EndsOnce};
ghost use Rattle.call_check.specs.machinery.Plans.{IsPlan, IsEnded, IsUnended, is_fault, read_of};

use crate::found::{Found, found_of};
use crate::lines::refusal_line;
use base::MOST_BYTES;
use outside_io::{ReadStop, Source, read_all};
use std::alloc::Global;
use term_tree::{Kind, Refusal};

#[derive(Drop)]
pub(crate) enum Plan {
    Valid {
        read: Vec<u8>,
        text: Vec<u8>,
    },
    Wrong {
        read: Vec<u8>,
        text: Vec<u8>,
    },
    NotShown {
        read: Vec<u8>,
        text: Vec<u8>,
    },
    Refused {
        read: Vec<u8>,
        refusal: Refusal,
        line: Vec<u8>,
    },
    Overlong {
        refusal: Refusal,
        line: Vec<u8>,
    },
    ReadFault,
    OutOfMemory {
        read: Vec<u8>,
    },
}

/// Reads the source to its end, and finds what is to be written.
pub(crate) fn plan_for<S: Source>(alloc: Global, source: &mut S, nodes: u32) -> Plan
    requires some { 0 < nodes }
    ensures plan { IsPlan nodes (S.left source.old) result }
    ensures faults { S.faults source.new ≡ (if is_fault result then counted (S.faults source.old) else S.faults source.old) }
    ensures last { is_fault result ≡ true → S.last source.new ≡ Fault }

    // All that was read is kept where the end was met, and else nothing. What ends isn't too long, and what is too long doesn't end.
    ensures ends { EndsOnce (S.ends source.old) (S.ends source.new) (S.last source.new) }
    ensures whole { S.ends source.new ≢ S.ends source.old → IfSome (S.left source.old) (λ bytes. read_of result ≡ bytes) }
    ensures none { S.ends source.new ≢ counted (S.ends source.old) → read_of result ≡ [] }
    ensures ended { S.ends source.new ≢ S.ends source.old → IsEnded result }
    ensures unended { S.ends source.new ≢ counted (S.ends source.old) → IsUnended result }
{
    match read_all(alloc, source, MOST_BYTES) {
        Ok(read) => plan_of(alloc, read, nodes),
        Err(ReadStop::TooLong) => plan_of_too_long(alloc),
        Err(ReadStop::ReadFault) => Plan::ReadFault,
        Err(ReadStop::Memory) => Plan::OutOfMemory {
            read: Vec::new(alloc),
        },
    }
}

/// What is to be written for the bytes of an input that isn't too long.
fn plan_of(alloc: Global, read: Vec<u8>, nodes: u32) -> Plan
    requires short { vec_len read ≤ most_bytes }
    requires some { 0 < nodes }
    ensures plan { IsPlan nodes (Some read.items) result }
    ensures fault { is_fault result ≡ false }
    ensures read { read_of result ≡ read.items }
    ensures ended { IsEnded result }
{
    match found_of(alloc, read.as_slice(), nodes) {
        Ok(Found::Refused { refusal, line }) => Plan::Refused {
            read,
            refusal,
            line,
        },
        Ok(Found::Valid { text }) => Plan::Valid { read, text },
        Ok(Found::Wrong { text }) => Plan::Wrong { read, text },
        Ok(Found::NotShown { text }) => Plan::NotShown { read, text },
        Err(_) => Plan::OutOfMemory { read },
    }
}

/// What is to be written where the input has too many bytes.
fn plan_of_too_long(alloc: Global) -> Plan
    ensures plan { (nodes : ℕ) (bytes : List ℕ) → most_bytes < length bytes → IsPlan nodes (Some bytes) result }
    ensures untold { (nodes : ℕ) → IsPlan nodes None result }
    ensures fault { is_fault result ≡ false }
    ensures none { read_of result ≡ [] }
    ensures unended { IsUnended result }
{
    let refusal = Refusal {
        kind: Kind::TooLong,
        offset: MOST_BYTES as u64,
        command: 0,
    };
    match refusal_line(alloc, &refusal) {
        Ok(line) => Plan::Overlong { refusal, line },
        Err(_) => Plan::OutOfMemory {
            read: Vec::new(alloc),
        },
    }
}
