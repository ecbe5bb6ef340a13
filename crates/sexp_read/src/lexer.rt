//! The token that a text goes on with.

ghost use Rattle.std.specs.Prelude.{◌≡◌, ◌+◌, ◌^◌, ◌<◌, ◌≤◌, length};
ghost use Rattle.sexp_read.specs.Lexicon.{word_at, keyword_at, quoted_at, literal_at, token_at, next_token};

use crate::runs::{after_gap, after_literal, after_plain, after_word};
use crate::token::Token;
use crate::tree::LeafKind;
use crate::words::word_kind;
use base::is_symbol_byte;

/// The token behind the white space and the comments that stand at an offset.
#[tactic(auto, unfolding(crate::specs::Lexicon::next_token))]
pub fn next_token(text: &[u8], at: usize) -> Token
    requires short { length text.now < 2 ^ 32 }
    requires within { at ≤ length text.now }
    ensures { result ≡ next_token text.now at }
{
    token_at(text, after_gap(text, at))
}

fn token_at(text: &[u8], start: usize) -> Token
    requires short { length text.now < 2 ^ 32 }
    ensures { result ≡ token_at text.now start }
{
    if start >= text.len() {
        return Token::End;
    }
    match text[start] {
        b'(' => Token::Open {
            start: offset(start),
        },
        b')' => Token::Close {
            start: offset(start),
        },
        b'|' => quoted_at(text, start),
        b'"' => literal_at(text, start),
        b':' => keyword_at(text, start),
        byte if is_symbol_byte(byte) => word_at(text, start),
        _ => Token::BadByte {
            offset: offset(start),
        },
    }
}

/// The offset as a tree has it.
fn offset(at: usize) -> u32
    requires { at < 2 ^ 32 }
    ensures { result ≡ at }
{
    at as u32
}

fn word_at(text: &[u8], start: usize) -> Token
    requires short { length text.now < 2 ^ 32 }
    requires within { start < length text.now }
    ensures { result ≡ word_at text.now start }
{
    let end = after_word(text, start);
    match word_kind(&text[start..end]) {
        Some(kind) => Token::Leaf {
            kind,
            start: offset(start),
            end: offset(end),
        },
        None => Token::BadByte {
            offset: offset(start),
        },
    }
}

fn keyword_at(text: &[u8], start: usize) -> Token
    requires short { length text.now < 2 ^ 32 }
    requires within { start < length text.now }
    ensures { result ≡ keyword_at text.now start }
{
    let end = after_word(text, start + 1);
    if end == start + 1 {
        return Token::BadByte {
            offset: offset(start),
        };
    }
    Token::Leaf {
        kind: LeafKind::Keyword,
        start: offset(start),
        end: offset(end),
    }
}

#[tactic(auto, using(crate::proofs::Steps::quoted))]
fn quoted_at(text: &[u8], start: usize) -> Token
    requires short { length text.now < 2 ^ 32 }
    requires within { start < length text.now }
    ensures { result ≡ quoted_at text.now start }
{
    let end = after_plain(text, start + 1);
    if end == text.len() {
        Token::Unclosed {
            start: offset(start),
        }
    } else if text[end] == b'|' {
        Token::Leaf {
            kind: LeafKind::Quoted,
            start: offset(start),
            end: offset(end + 1),
        }
    } else {
        Token::BadByte {
            offset: offset(end),
        }
    }
}

fn literal_at(text: &[u8], start: usize) -> Token
    requires short { length text.now < 2 ^ 32 }
    requires within { start < length text.now }
    ensures { result ≡ literal_at text.now start }
{
    match after_literal(text, start + 1) {
        Some(end) => Token::Leaf {
            kind: LeafKind::Text,
            start: offset(start),
            end: offset(end),
        },
        None => Token::Unclosed {
            start: offset(start),
        },
    }
}
