//! The reserved words, by their lengths.

ghost use Rattle.std.specs.Prelude.{◌≡◌};
ghost use Rattle.term_check.specs.Words.{is_word_among, reserved_words};
ghost use Rattle.term_check.specs.machinery.WordLengths.{between};

use crate::bytes::are_same;

/// Whether it is a reserved word of one byte.
fn is_of_1(word: &[u8]) -> bool
    ensures { result ≡ is_word_among (between 0 2 reserved_words) word.now }
{
    are_same(word, b"_") || are_same(word, b"!")
}

/// Whether it is a reserved word of two bytes.
fn is_of_2(word: &[u8]) -> bool
    ensures { result ≡ is_word_among (between 1 3 reserved_words) word.now }
{
    are_same(word, b"as")
}

/// Whether it is a reserved word of three bytes.
fn is_of_3(word: &[u8]) -> bool
    ensures { result ≡ is_word_among (between 2 4 reserved_words) word.now }
{
    are_same(word, b"let") || are_same(word, b"par") || are_same(word, b"pop")
}

/// Whether it is a reserved word of four bytes.
fn is_of_4(word: &[u8]) -> bool
    ensures { result ≡ is_word_among (between 3 5 reserved_words) word.now }
{
    are_same(word, b"echo") || are_same(word, b"exit") || are_same(word, b"push")
}

/// Whether it is a reserved word of five bytes.
fn is_of_5(word: &[u8]) -> bool
    ensures { result ≡ is_word_among (between 4 6 reserved_words) word.now }
{
    are_same(word, b"match") || are_same(word, b"reset")
}

/// Whether it is a reserved word of six or seven bytes.
fn is_of_6_or_7(word: &[u8]) -> bool
    ensures { result ≡ is_word_among (between 5 8 reserved_words) word.now }
{
    are_same(word, b"exists")
        || are_same(word, b"forall")
        || are_same(word, b"BINARY")
        || are_same(word, b"DECIMAL")
        || are_same(word, b"NUMERAL")
        || are_same(word, b"STRING")
        || are_same(word, b"assert")
}

/// Whether it is a reserved word of eight or nine bytes.
fn is_of_8_or_9(word: &[u8]) -> bool
    ensures { result ≡ is_word_among (between 7 10 reserved_words) word.now }
{
    are_same(word, b"check-sat")
        || are_same(word, b"get-info")
        || are_same(word, b"get-model")
        || are_same(word, b"get-proof")
        || are_same(word, b"get-value")
        || are_same(word, b"set-info")
        || are_same(word, b"set-logic")
}

/// Whether it is a reserved word of ten to thirteen bytes.
fn is_of_10_to_13(word: &[u8]) -> bool
    ensures { result ≡ is_word_among (between 9 14 reserved_words) word.now }
{
    are_same(word, b"HEXADECIMAL")
        || are_same(word, b"declare-const")
        || are_same(word, b"declare-fun")
        || are_same(word, b"declare-sort")
        || are_same(word, b"define-fun")
        || are_same(word, b"define-sort")
        || are_same(word, b"get-option")
        || are_same(word, b"set-option")
}

/// Whether it is a reserved word of 14 to 21 bytes.
fn is_of_14_to_21(word: &[u8]) -> bool
    ensures { result ≡ is_word_among (between 13 22 reserved_words) word.now }
{
    are_same(word, b"check-sat-assuming")
        || are_same(word, b"declare-datatype")
        || are_same(word, b"declare-datatypes")
        || are_same(word, b"define-fun-rec")
        || are_same(word, b"define-funs-rec")
        || are_same(word, b"get-assertions")
        || are_same(word, b"get-assignment")
        || are_same(word, b"get-unsat-assumptions")
        || are_same(word, b"get-unsat-core")
        || are_same(word, b"reset-assertions")
}

/// Whether the word is reserved: written without bars it names no predicate and no variable.
pub fn is_reserved(word: &[u8]) -> bool
    ensures { result ≡ is_word_among reserved_words word.now }
{
    match word.len() {
        1 => is_of_1(word),
        2 => is_of_2(word),
        3 => is_of_3(word),
        4 => is_of_4(word),
        5 => is_of_5(word),
        6..=7 => is_of_6_or_7(word),
        8..=9 => is_of_8_or_9(word),
        10..=13 => is_of_10_to_13(word),
        14..=21 => is_of_14_to_21(word),
        _ => false,
    }
}
