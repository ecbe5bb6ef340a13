//! Numerals within a range.

ghost use Rattle.std.specs.Prelude.{◌≡◌, ◌<◌};
ghost use Rattle.std.specs.List.{list_all};
ghost use Rattle.base.specs.Bytes.{is_digit};
ghost use Rattle.base.specs.Numeral.{is_numeral, number_of};
ghost use Rattle.call_words.specs.machinery.Reading.{at_most, numeral_within};

use base::is_digit;

fn are_digits(bytes: &[u8]) -> bool
    ensures { result ≡ list_all is_digit bytes.now }
{
    bytes.iter().all(|byte| is_digit(*byte))
}

/// Whether these are a numeral's digits: `0`, or digits that don't begin with 0.
fn is_numeral(bytes: &[u8]) -> bool
    ensures { result ≡ is_numeral bytes.now }
{
    match bytes {
        [] => false,
        [byte] => is_digit(*byte),
        [byte, ..] => *byte > b'0' && are_digits(bytes),
    }
}

/// The number that the digits spell, where it is no greater than that.
#[tactic(auto, using(crate::proofs::Numbers::number))]
fn number_up_to(digits: &[u8], most: u32) -> Option<u32>
    ensures { result ≡ at_most most (number_of digits.now) }
{
    let mut value: u64 = 0;
    for digit in digits {
        value = 10 * value + u64::from(digit.saturating_sub(b'0'));
        if value > u64::from(most) {
            return None;
        }
    }
    Some(value as u32)
}

/// The number of a numeral from `least` to `most`.
pub(crate) fn number_within(bytes: &[u8], least: u32, most: u32) -> Option<u32>
    ensures { result ≡ numeral_within least most bytes.now }
{
    if !is_numeral(bytes) {
        return None;
    }
    match number_up_to(bytes, most) {
        Some(number) if number >= least => Some(number),
        _ => None,
    }
}
