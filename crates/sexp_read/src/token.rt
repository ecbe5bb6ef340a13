use crate::tree::LeafKind;

/// What a text goes on with, after white space and comments. Offsets count bytes from 0.
#[derive(Clone, Copy, Debug)]
pub enum Token {
    /// The text is over.
    End,
    /// A bracket that opens a list.
    Open {
        start: u32,
    },
    /// A bracket that closes one.
    Close {
        start: u32,
    },
    Leaf {
        kind: LeafKind,
        start: u32,
        end: u32,
    },
    /// No token begins here, or the one that did can't go on with this byte.
    BadByte {
        offset: u32,
    },
    /// The text ends inside the token that starts here.
    Unclosed {
        start: u32,
    },
}
