//! What a word is, by its bytes.

ghost use Rattle.std.specs.Prelude.{◌≡◌, ◌≤◌, length};
ghost use Rattle.std.specs.List.{list_all};
ghost use Rattle.base.specs.Bytes.{is_digit};
ghost use Rattle.base.specs.Numeral.{is_numeral};
ghost use Rattle.sexp_read.specs.Lexicon.{is_fraction, digits_in_front, is_decimal, number_kind, word_kind};

use crate::tree::LeafKind;
use base::is_digit;

/// What a word is: a symbol, or, where it begins with a digit, a numeral, a decimal or nothing.
pub fn word_kind(bytes: &[u8]) -> Option<LeafKind>
    ensures { result ≡ word_kind bytes.now }
{
    match bytes {
        [] => None,
        [byte, ..] => {
            if is_digit(*byte) {
                number_kind(bytes)
            } else {
                Some(LeafKind::Symbol)
            }
        }
    }
}

fn number_kind(bytes: &[u8]) -> Option<LeafKind>
    ensures { result ≡ number_kind bytes.now }
{
    if is_numeral(bytes) {
        Some(LeafKind::Numeral)
    } else if is_decimal(bytes) {
        Some(LeafKind::Decimal)
    } else {
        None
    }
}

/// Whether these are a numeral's digits: `0`, or digits that don't begin with 0.
pub fn is_numeral(bytes: &[u8]) -> bool
    ensures { result ≡ is_numeral bytes.now }
{
    match bytes {
        [] => false,
        [byte] => is_digit(*byte),
        [byte, ..] => *byte > b'0' && are_digits(bytes),
    }
}

fn is_decimal(bytes: &[u8]) -> bool
    ensures { result ≡ is_decimal bytes.now }
{
    let (whole, fraction) = bytes.split_at(digits_in_front(bytes));
    is_numeral(whole) && is_fraction(fraction)
}

fn is_fraction(bytes: &[u8]) -> bool
    ensures { result ≡ is_fraction bytes.now }
{
    match bytes {
        [] | [_] => false,
        [byte, digits @ ..] => *byte == b'.' && are_digits(digits),
    }
}

fn are_digits(bytes: &[u8]) -> bool
    ensures { result ≡ list_all is_digit bytes.now }
{
    bytes.iter().all(|byte| is_digit(*byte))
}

/// How many digits stand in front.
#[tactic(auto, using(crate::proofs::Steps::digits))]
fn digits_in_front(bytes: &[u8]) -> usize
    ensures value { result ≡ digits_in_front bytes.now }
    ensures within { result ≤ length bytes.now }
{
    let mut count = 0;
    for byte in bytes {
        if !is_digit(*byte) {
            return count;
        }
        count += 1;
    }
    count
}
