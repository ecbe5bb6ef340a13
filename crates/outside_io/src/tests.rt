//! Sources and sinks in memory, and over a reader and writer whose faults are known.
//!
//! The tests hand most of what they made to `mem::forget` once they have looked at it: to let such values go
//! part by part is known to be right for every value, and would be proved anew in each function.

ghost use Rattle.std.specs.Prelude.{◌≡◌, ◌<◌, ◌≤◌, [], Some, length, IsOk, IfOk, IfErr, IfSome};
ghost use Rattle.outside_io.specs.declared.read.ReadStop.TheVariants.{Memory};

use crate::{
    Failed, MemSink, MemSource, ReadStop, Sink, Source, StdSink, StdSource, read_all, write_all,
};
use std::alloc::Global;
use std::io::{self, Read, Write};
use std::mem;
use std::process::Abort;

fn source_of(rt: &impl Abort, alloc: Global, bytes: &[u8], step: usize, fails: &[u64]) -> MemSource
    requires { 0 < step }
{
    let bytes = Vec::from_slice(alloc, bytes).expect(rt, "memory");
    let fails = Vec::from_slice(alloc, fails).expect(rt, "memory");
    MemSource::new(bytes, step, fails)
}

fn sink_of(rt: &impl Abort, alloc: Global, room: usize, step: usize, fails: &[u64]) -> MemSink
    requires { 0 < step }
{
    let fails = Vec::from_slice(alloc, fails).expect(rt, "memory");
    MemSink::new(alloc, room, step, fails).expect(rt, "memory")
}

/// Reads all, and asserts what was read.
fn check_read<S: Source>(
    rt: &impl Abort,
    alloc: Global,
    source: &mut S,
    limit: usize,
    wanted: &[u8],
) {
    let bytes = read_all(alloc, source, limit).expect(rt, "bytes");
    check(rt, bytes.as_slice(), wanted);
    mem::forget(bytes);
}

/// Reads all, and asserts why that stopped.
fn check_stop<S: Source>(
    rt: &impl Abort,
    alloc: Global,
    source: &mut S,
    limit: usize,
    wanted: ReadStop,
) {
    let result = read_all(alloc, source, limit);
    let is_wanted = matches!(&result, Err(stop) if *stop == wanted);
    mem::forget(result);
    assert!(rt; is_wanted, "a limit of {limit}");
}

fn check(rt: &impl Abort, held: &[u8], wanted: &[u8]) {
    assert_eq!(rt; held, wanted);
}

/// What a caller concludes of a source in memory that names no turn: no fault, and all the bytes.
fn read_sound(alloc: Global, source: &mut MemSource, limit: usize) -> Result<Vec<u8>, ReadStop>
    requires sound { ⟦<MemSource as Source>⟧.fails source.old ≡ Some [] }
    requires short { IfSome (⟦<MemSource as Source>⟧.left source.old) (λ left. length left ≤ limit) }
    ensures stop { IfErr result (λ stop. stop ≡ Memory) }
    ensures all { IfOk result (λ bytes. ⟦<MemSource as Source>⟧.left source.old ≡ Some bytes.items) }
{
    read_all(alloc, source, limit)
}

/// What a caller concludes of a sink in memory that names no turn and has room: no fault.
fn write_sound(sink: &mut MemSink, bytes: &[u8]) -> Result<(), Failed>
    requires sound { ⟦<MemSink as Sink>⟧.fails sink.old ≡ Some [] }
    requires room { IfSome (⟦<MemSink as Sink>⟧.room sink.old) (λ room. length bytes.now ≤ room) }
    ensures { IsOk result }
{
    write_all(sink, bytes)
}

#[test]
fn a_source_and_a_sink_that_name_no_turn_move_all_bytes(rt: HostRuntime) {
    let alloc = rt.alloc();
    let Ok(bytes) = Vec::from_slice(alloc, b"unsat") else {
        rt.panic("memory");
    };
    let mut source = MemSource::new(bytes, 2, Vec::new(alloc));
    let read = read_sound(alloc, &mut source, 5).expect(&rt, "memory");
    let Ok(mut sink) = MemSink::new(alloc, 5, 3, Vec::new(alloc)) else {
        rt.panic("memory");
    };
    assert!(rt; write_sound(&mut sink, b"unsat").is_ok());
    check(&rt, sink.held(), read.as_slice());
    mem::forget(source);
    mem::forget(read);
    mem::forget(sink);
}

#[test]
fn reading_gives_every_byte_whatever_the_step(rt: HostRuntime) {
    for step in 1..9usize {
        let mut source = source_of(&rt, rt.alloc(), b"(check-sat)", step, &[]);
        check_read(&rt, rt.alloc(), &mut source, 11, b"(check-sat)");
        mem::forget(source);
    }
}

#[test]
fn reading_takes_more_than_one_chunk(rt: HostRuntime) {
    let mut bytes = Vec::new(rt.alloc());
    for i in 0..200_000u32 {
        bytes.push((i % 251) as u8).expect(&rt, "memory");
    }
    let mut source = source_of(&rt, rt.alloc(), &bytes, 1_000_000, &[]);
    check_read(&rt, rt.alloc(), &mut source, 200_000, bytes.as_slice());
    mem::forget(bytes);
    mem::forget(source);
}

#[test]
fn one_byte_past_the_limit_is_too_long(rt: HostRuntime) {
    for limit in [0, 2] {
        let mut source = source_of(&rt, rt.alloc(), b"sat", 2, &[]);
        check_stop(&rt, rt.alloc(), &mut source, limit, ReadStop::TooLong);
        mem::forget(source);
    }
    for limit in [3, usize::MAX] {
        let mut source = source_of(&rt, rt.alloc(), b"sat", 2, &[]);
        check_read(&rt, rt.alloc(), &mut source, limit, b"sat");
        mem::forget(source);
    }
}

#[test]
fn a_fault_stops_reading_and_leaves_the_rest(rt: HostRuntime) {
    let mut source = source_of(&rt, rt.alloc(), b"unsat", 2, &[2]);
    check_stop(&rt, rt.alloc(), &mut source, 5, ReadStop::ReadFault);
    check_read(&rt, rt.alloc(), &mut source, 5, b"sat");
}

#[test]
fn writing_goes_on_in_steps_until_a_fault(rt: HostRuntime) {
    for (fails, held) in [(0, "sat\n"), (1, ""), (2, "sat"), (3, "sat\n")] {
        let mut sink = sink_of(&rt, rt.alloc(), 100, 3, &[fails]);
        let is_sound = write_all(&mut sink, b"sat\n").is_ok();
        assert!(rt; is_sound == (held.len() == 4));
        check(&rt, sink.held(), held.as_bytes());
        mem::forget(sink);
    }
}

#[test]
fn bytes_that_meet_no_room_are_a_fault(rt: HostRuntime) {
    let mut sink = sink_of(&rt, rt.alloc(), 5, 2, &[]);
    assert!(rt; write_all(&mut sink, b"unsat").is_ok());
    assert!(rt; write_all(&mut sink, b"").is_ok());
    assert!(rt; write_all(&mut sink, b"\n").is_err());
    check(&rt, sink.held(), b"unsat");
}

/// Reads give its last two bytes, the last first, and writes take two at a time. The call numbered `bad_call` fails, and
/// the flush after `bad_flush` calls, and the writes from `stuck_at` on take nothing.
#[derive(Drop)]
struct Pipe {
    bytes: Vec<u8>,
    calls: u64,
    bad_call: u64,
    bad_flush: u64,
    stuck_at: u64,
}

impl Pipe {
    fn new(alloc: Global) -> Pipe {
        Pipe {
            bytes: Vec::new(alloc),
            calls: 0,
            bad_call: 0,
            bad_flush: 0,
            stuck_at: u64::MAX,
        }
    }
}

impl Read for Pipe {
    fn read(&mut self, buf: &mut [u8]) -> io::Result<usize> {
        self.calls = self.calls.saturating_add(1);
        if self.calls == self.bad_call {
            return Err(io::ErrorKind::Other.into());
        }
        let count = buf.len().min(2).min(self.bytes.len());
        for slot in &mut buf[..count] {
            if let Some(byte) = self.bytes.pop() {
                *slot = byte;
            }
        }
        Ok(count)
    }
}

impl Write for Pipe {
    fn write(&mut self, buf: &[u8]) -> io::Result<usize> {
        self.calls = self.calls.saturating_add(1);
        if self.calls == self.bad_call {
            return Err(io::ErrorKind::BrokenPipe.into());
        }
        if self.calls >= self.stuck_at {
            return Ok(0);
        }
        let count = buf.len().min(2);
        self.bytes.extend_from_slice(&buf[..count])?;
        Ok(count)
    }

    fn flush(&mut self) -> io::Result<()> {
        if self.calls == self.bad_flush {
            return Err(io::ErrorKind::BrokenPipe.into());
        }
        Ok(())
    }
}

#[test]
fn a_source_over_a_reader_gives_its_bytes_and_its_faults(rt: HostRuntime) {
    for bad_call in [0, 2, 4] {
        let mut pipe = Pipe::new(rt.alloc());
        pipe.bytes.extend_from_slice(b"tasnu").expect(&rt, "memory");
        pipe.bad_call = bad_call;
        let mut source = StdSource::new(pipe);
        if bad_call == 0 {
            check_read(&rt, rt.alloc(), &mut source, 100, b"unsat");
        } else {
            check_stop(&rt, rt.alloc(), &mut source, 100, ReadStop::ReadFault);
        }
        mem::forget(source);
    }
}

#[test]
fn a_sink_over_a_writer_puts_all_and_sees_each_kind_of_fault(rt: HostRuntime) {
    let never = u64::MAX;
    for (bad_call, bad_flush, stuck_at, written) in [
        (0, 0, never, "unsat"),
        (2, 0, never, "un"),
        (0, 3, never, "unsat"),
        (0, 0, 2, "un"),
    ] {
        let mut pipe = Pipe::new(rt.alloc());
        pipe.bad_call = bad_call;
        pipe.bad_flush = bad_flush;
        pipe.stuck_at = stuck_at;
        let result = write_all(&mut StdSink::new(&mut pipe), b"unsat");
        let is_sound = bad_call == 0 && bad_flush == 0 && stuck_at == never;
        assert!(rt; result.is_ok() == is_sound);
        check(&rt, pipe.bytes.as_slice(), written.as_bytes());
        mem::forget(pipe);
    }
}
