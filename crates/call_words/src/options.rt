//! The numbers that options give.

ghost use Rattle.std.specs.Prelude.{◌≡◌, option_map};
ghost use Rattle.clap.specs.Words.{first_of, found_of, rows_of};
ghost use Rattle.call_words.specs.machinery.Reading.{number_given, number_or};

use crate::numerals::number_within;
use clap::ArgMatches;

/// The text of an option.
pub(crate) fn text_of<'a>(options: &ArgMatches<'a>, name: &str) -> Option<&'a str>
    ensures { option_map (λ text. text.now) result ≡ first_of name.now (rows_of (found_of options.now)) }
{
    options.get_str(name)
}

/// The number of an option that may be left out.
pub(crate) fn number_or(text: Option<&str>, least: u32, most: u32, default: u32) -> Option<u32>
    ensures { result ≡ number_or least most default (option_map (λ t. t.now) text.entry) }
{
    match text {
        None => Some(default),
        Some(text) => number_within(text.as_bytes(), least, most),
    }
}

/// The number of an option that must be given.
pub(crate) fn number_given(text: Option<&str>, least: u32, most: u32) -> Option<u32>
    ensures { result ≡ number_given least most (option_map (λ t. t.now) text.entry) }
{
    match text {
        None => None,
        Some(text) => number_within(text.as_bytes(), least, most),
    }
}
