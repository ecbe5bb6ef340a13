//! All trees of a text.

ghost use Rattle.std.specs.Prelude.{◌^◌, ◌<◌, length, IfOk};
ghost use Rattle.sexp_read.specs.Trees.{IsReading};

use crate::reader::{Next, Reader};
use crate::tree::Trees;
use base::{Items, Memory};
use std::alloc::Global;

/// The trees of a text up to its first fault, and that fault. It takes time and memory in
/// proportion to the text, whose nesting costs no stack.
pub fn read_commands(alloc: Global, text: &[u8]) -> Result<Trees, Memory>
    requires { length text.now < 2 ^ 32 }
    ensures { IfOk result (λ read. IsReading text.now read.trees read.stop) }
{
    let mut reader = Reader::new(alloc);
    let mut trees = Vec::new(alloc);
    let mut at = 0;
    loop {
        match reader.read(text, at)? {
            Next::Tree { tree, end } => {
                trees.push(tree)?;
                at = end;
            }
            Next::Stop(stop) => {
                trees.shrink_to_fit();
                return Ok(Trees {
                    trees: Items::from_vec(trees),
                    stop,
                });
            }
        }
    }
}
