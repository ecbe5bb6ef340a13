ghost use Rattle.std.specs.Prelude.{◌≡◌, IfOk};

use base::{Copied, Items, Memory, Same};
use std::alloc::Global;

/// What a leaf is, by how it is spelled.
#[derive(Clone, Copy, Debug, PartialEq, Eq)]
pub enum LeafKind {
    /// A word that doesn't begin with a digit.
    Symbol,
    /// A symbol between bars. `|abc|` is the symbol `abc`, but never a reserved word.
    Quoted,
    Numeral,
    Decimal,
    /// A text literal between quotes, in which a doubled quote stands for one.
    Text,
    /// A colon and a word.
    Keyword,
}

/// A tree of the text, from its first byte to the byte after its last. A leaf's quotes, bars and
/// colon belong to it. Offsets count bytes from 0.
#[derive(Debug, Drop)]
pub enum Tree {
    Leaf {
        kind: LeafKind,
        start: u32,
        end: u32,
    },
    List {
        items: Items<Tree>,
        start: u32,
        end: u32,
    },
}

/// The first fault of a text.
#[derive(Clone, Copy, Debug, PartialEq, Eq)]
pub enum TextStop {
    /// No token begins at this byte, or the byte may not stand where it does.
    BadByte { offset: u32 },
    /// The text ends inside a tree; here the outermost such tree starts.
    Unclosed { offset: u32 },
    /// Here stands the bracket that would be one too many to be open at once.
    Deep { offset: u32 },
}

/// The trees of a text that end before its first fault, in order, and that fault.
#[derive(Debug, Drop)]
pub struct Trees {
    pub trees: Items<Tree>,
    pub stop: Option<TextStop>,
}

impl Same for LeafKind {
    fn equals(&self, other: &LeafKind) -> bool {
        *self == *other
    }
}

impl Copied for LeafKind {
    fn copy(&self, _alloc: Global) -> Result<LeafKind, Memory> {
        Ok(*self)
    }
}

impl Same for TextStop {
    fn equals(&self, other: &TextStop) -> bool {
        *self == *other
    }
}

impl Copied for TextStop {
    fn copy(&self, _alloc: Global) -> Result<TextStop, Memory> {
        Ok(*self)
    }
}

impl Same for Tree {
    fn equals(&self, other: &Tree) -> bool {
        match (self, other) {
            (
                Tree::Leaf { kind, start, end },
                Tree::Leaf {
                    kind: other_kind,
                    start: other_start,
                    end: other_end,
                },
            ) => kind.equals(other_kind) && *start == *other_start && *end == *other_end,
            (
                Tree::List { items, start, end },
                Tree::List {
                    items: other_items,
                    start: other_start,
                    end: other_end,
                },
            ) => *start == *other_start && *end == *other_end && items.equals(other_items),
            _ => false,
        }
    }
}

impl Tree {
    /// An equal tree.
    #[cycle(copy)]
    pub fn copy(&self, alloc: Global) -> Result<Tree, Memory>
        ensures { IfOk result (λ copied. copied ≡ self.now) }
    {
        match self {
            Tree::Leaf { kind, start, end } => Ok(Tree::Leaf {
                kind: *kind,
                start: *start,
                end: *end,
            }),
            Tree::List { items, start, end } => {
                let items = copy_all(alloc, items.as_slice())?;
                Ok(Tree::List {
                    items,
                    start: *start,
                    end: *end,
                })
            }
        }
    }
}

#[cycle(copy)]
fn copy_all(alloc: Global, trees: &[Tree]) -> Result<Items<Tree>, Memory>
    ensures { IfOk result (λ copied. copied ≡ trees.now) }
{
    let mut copied = Vec::with_capacity(alloc, trees.len())?;
    for tree in trees {
        copied.push(tree.copy(alloc)?)?;
    }
    Ok(Items::from_vec(copied))
}

impl Copied for Tree {
    fn copy(&self, alloc: Global) -> Result<Tree, Memory> {
        Tree::copy(self, alloc)
    }
}

impl Same for Trees {
    fn equals(&self, other: &Trees) -> bool {
        self.trees.equals(&other.trees) && self.stop.equals(&other.stop)
    }
}

impl Copied for Trees {
    fn copy(&self, alloc: Global) -> Result<Trees, Memory> {
        Ok(Trees {
            trees: self.trees.copy(alloc)?,
            stop: self.stop.copy(alloc)?,
        })
    }
}
