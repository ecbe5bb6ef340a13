//! The reader: one token at a time, with the open lists on a stack of its own.

ghost use Rattle.std.specs.Prelude.{◌≡◌, [], ◌+◌, ◌-◌, ◌^◌, ◌<◌, ◌≤◌, take, drop, length, vec_len, IfOk};
ghost use Rattle.sexp_read.specs.declared.tree.Tree.TheViews.{List as ListTree};
ghost use Rattle.sexp_read.specs.machinery.Opened.{outermost_start, stop_at_end};
ghost use Rattle.sexp_read.specs.Next.{IsNext};

use crate::lexer::next_token;
use crate::token::Token;
use crate::tree::{TextStop, Tree};
use base::{Items, MOST_OPEN, Memory};
use std::alloc::Global;

/// A list that isn't closed yet, and how many trees stand before it in the list that it stands in.
#[derive(Clone, Copy)]
struct OpenList {
    start: u32,
    before: usize,
}

/// What a text goes on with outside of all lists.
#[derive(Debug, Drop)]
pub enum Next {
    /// A tree, and the offset of the byte after its last.
    Tree { tree: Tree, end: usize },
    /// No tree that is whole: here is the text's first fault, or none, where the text is over.
    Stop(Option<TextStop>),
}

/// Reads one tree after another. It holds only memory, which serves one tree after the other.
#[derive(Drop)]
pub struct Reader {
    lists: Vec<OpenList>,
    trees: Vec<Tree>,
}

impl Reader {
    pub fn new(alloc: Global) -> Reader
        ensures { (result.lists.items ≡ []) × (result.trees.items ≡ []) }
    {
        Reader {
            lists: Vec::new(alloc),
            trees: Vec::new(alloc),
        }
    }

    /// What the text goes on with from an offset outside of all lists: 0, or where a tree ended. It
    /// takes time in proportion to the bytes that are read, whose nesting costs no stack.
    pub fn read(&mut self, text: &[u8], at: usize) -> Result<Next, Memory>
        requires short { length text.now < 2 ^ 32 }
        requires within { at ≤ length text.now }
        ensures { IfOk result (IsNext text.now at) }
    {
        self.lists.clear();
        self.trees.clear();
        read_tree(text, at, &mut self.lists, &mut self.trees)
    }
}

/// Reads a tree with an empty stack of open lists. The trees of all of them stand one list after
/// another.
fn read_tree(
    text: &[u8],
    from: usize,
    lists: &mut Vec<OpenList>,
    trees: &mut Vec<Tree>,
) -> Result<Next, Memory>
    requires short { length text.now < 2 ^ 32 }
    requires within { from ≤ length text.now }
    requires lists { lists.old.items ≡ [] }
    requires trees { trees.old.items ≡ [] }
    ensures { IfOk result (IsNext text.now from) }
{
    // How many trees the innermost list has.
    let mut here: usize = 0;
    let mut at = from;
    loop {
        match next_token(text, at) {
            Token::End => return Ok(Next::Stop(stop_at_end(lists))),
            Token::Open { start } => {
                if lists.len() >= MOST_OPEN {
                    return Ok(Next::Stop(Some(TextStop::Deep { offset: start })));
                }
                lists.push(OpenList {
                    start,
                    before: here,
                })?;
                here = 0;
                at = start as usize + 1;
            }
            Token::Close { start } => match lists.pop() {
                Some(list) => {
                    let tree = closed(trees, here, list.start, start)?;
                    at = start as usize + 1;
                    if lists.is_empty() {
                        return Ok(Next::Tree { tree, end: at });
                    }
                    trees.push(tree)?;
                    here = list.before + 1;
                }
                None => return Ok(Next::Stop(Some(TextStop::BadByte { offset: start }))),
            },
            Token::Leaf { kind, start, end } => {
                let tree = Tree::Leaf { kind, start, end };
                at = end as usize;
                if lists.is_empty() {
                    return Ok(Next::Tree { tree, end: at });
                }
                trees.push(tree)?;
                here += 1;
            }
            Token::BadByte { offset } => {
                return Ok(Next::Stop(Some(TextStop::BadByte { offset })));
            }
            Token::Unclosed { start } => {
                let offset = outermost_start(lists, start);
                return Ok(Next::Stop(Some(TextStop::Unclosed { offset })));
            }
        }
    }
}

/// Where the outermost open tree starts, of which the innermost starts at an offset.
fn outermost_start(lists: &[OpenList], start: u32) -> u32
    ensures { result ≡ outermost_start lists.now start }
{
    match lists {
        [] => start,
        [list, ..] => list.start,
    }
}

/// The stop of a text that ends while these lists are open.
fn stop_at_end(lists: &[OpenList]) -> Option<TextStop>
    ensures { result ≡ stop_at_end lists.now }
{
    match lists {
        [] => None,
        [list, ..] => Some(TextStop::Unclosed { offset: list.start }),
    }
}

/// The list whose items are the last trees, as many as there are here.
fn closed(trees: &mut Vec<Tree>, here: usize, start: u32, end: u32) -> Result<Tree, Memory>
    requires within { here ≤ vec_len trees.old }
    requires end { end + 1 < 2 ^ 32 }
    ensures rest { IfOk result (λ _. trees.new.items ≡ take (vec_len trees.old - here) trees.old.items) }
    ensures list { IfOk result (λ tree. tree ≡ ListTree (drop (vec_len trees.old - here) trees.old.items) start (end + 1)) }
{
    let items = trees.split_off(trees.len() - here)?;
    Ok(Tree::List {
        items: Items::from_vec(items),
        start,
        end: end + 1,
    })
}
