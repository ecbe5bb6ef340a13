//! For `bench/sexp_read.sh`: the reader, and plain loops over the same bytes to measure it against.

ghost use Rattle.std.specs.Prelude.{◌<◌, ◌^◌, length};

use sexp_read::read_commands;
use std::alloc::Global;

/// How many trees the text has outside of all lists, or -1 for want of memory.
#[unsafe(no_mangle)]
pub extern "C" fn sexp_read_trees(alloc: Global, text: &[u8]) -> i64
    requires { length text.now < 2 ^ 32 }
{
    match read_commands(alloc, text) {
        Ok(read) => read.trees.len() as i64,
        Err(_) => -1,
    }
}

/// How many brackets the text has.
#[unsafe(no_mangle)]
pub extern "C" fn sexp_read_brackets(text: &[u8]) -> u64 {
    let mut brackets: u64 = 0;
    for byte in text {
        if *byte == b'(' || *byte == b')' {
            brackets = brackets.wrapping_add(1);
        }
    }
    brackets
}

/// How many brackets are open at most. Each turn of the loop rests on the one before it, so it stays a
/// loop of one byte at a time.
#[unsafe(no_mangle)]
pub extern "C" fn sexp_read_depth(text: &[u8]) -> u64 {
    let mut opened: u64 = 0;
    let mut most: u64 = 0;
    for byte in text {
        if *byte == b'(' {
            opened = opened.wrapping_add(1);
            if opened > most {
                most = opened;
            }
        } else if *byte == b')' {
            opened = opened.saturating_sub(1);
        }
    }
    most
}
