//! Where white space, comments, words and the insides of quotes end.

ghost use Rattle.std.specs.Prelude.{◌≡◌, ◌≤◌, length, drop, IfSome};
ghost use Rattle.sexp_read.specs.Lexicon.{after_gap, after_comment, after_word, after_plain, after_literal};

use base::{is_symbol_byte, is_white};

/// Where the white space and the comments end that stand at an offset.
#[tactic(auto, using(crate::proofs::Steps::runs))]
pub fn after_gap(text: &[u8], mut at: usize) -> usize
    requires { at ≤ length text.now }
    ensures value { result ≡ after_gap at (drop at text.now) }
    ensures within { result ≤ length text.now }
{
    while at < text.len() {
        let byte = text[at];
        if is_white(byte) {
            at += 1;
        } else if byte == b';' {
            at = after_comment(text, at + 1);
        } else {
            return at;
        }
    }
    at
}

/// Behind the end of the line, where a comment's semicolon stands before an offset.
#[tactic(auto, using(crate::proofs::Steps::runs))]
fn after_comment(text: &[u8], mut at: usize) -> usize
    requires { at ≤ length text.now }
    ensures value { after_gap result (drop result text.now) ≡ after_comment at (drop at text.now) }
    ensures later { at ≤ result }
    ensures within { result ≤ length text.now }
{
    while at < text.len() {
        let byte = text[at];
        at += 1;
        if byte == b'\n' || byte == b'\r' {
            return at;
        }
    }
    at
}

/// Where the run of symbol bytes ends that stands at an offset.
#[tactic(auto, using(crate::proofs::Steps::runs))]
pub fn after_word(text: &[u8], mut at: usize) -> usize
    requires { at ≤ length text.now }
    ensures value { result ≡ after_word at (drop at text.now) }
    ensures later { at ≤ result }
    ensures within { result ≤ length text.now }
{
    while at < text.len() {
        if !is_symbol_byte(text[at]) {
            return at;
        }
        at += 1;
    }
    at
}

/// Where the next bar or backslash stands, or the text ends.
#[tactic(auto, using(crate::proofs::Steps::runs))]
pub fn after_plain(text: &[u8], mut at: usize) -> usize
    requires { at ≤ length text.now }
    ensures value { result ≡ after_plain at (drop at text.now) }
    ensures later { at ≤ result }
    ensures within { result ≤ length text.now }
{
    while at < text.len() {
        let byte = text[at];
        if byte == b'|' || byte == b'\\' {
            return at;
        }
        at += 1;
    }
    at
}

/// Behind the quote that ends a text literal whose first quote stands before an offset.
#[tactic(auto, using(crate::proofs::Steps::runs))]
pub fn after_literal(text: &[u8], mut at: usize) -> Option<usize>
    requires { at ≤ length text.now }
    ensures value { result ≡ after_literal at (drop at text.now) }
    ensures within { IfSome result (λ end. end ≤ length text.now) }
{
    while at < text.len() {
        if text[at] == b'"' {
            at += 1;
            if at == text.len() || text[at] != b'"' {
                return Some(at);
            }
        }
        at += 1;
    }
    None
}
