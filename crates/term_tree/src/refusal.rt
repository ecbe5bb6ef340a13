ghost use Rattle.std.specs.Prelude.{◌≡◌};
ghost use Rattle.term_tree.specs.Kind.{kind_number, kind_word};

use crate::script::Script;

/// Why a text is no script.
#[derive(Clone, Copy, Debug, PartialEq, Eq)]
pub enum Kind {
    /// The input is longer than 16,777,216 bytes.
    TooLong,
    /// A byte that begins no token, or breaks the one that it stands in.
    BadByte,
    /// A list, quoted symbol or text literal without its end.
    Unclosed,
    /// More than 2,000 lists inside one another.
    Deep,
    /// A tree that hasn't the form of a command, term, binder or name.
    CommandForm,
    /// A command that may not stand where it stands.
    Order,
    /// A logic that isn't `HORN`.
    Logic,
    /// A sort that isn't `Int` or `Bool`.
    UnknownSort,
    /// A name that is taken.
    Redeclared,
    /// A symbol that is neither declared nor bound.
    UnknownSymbol,
    /// A wrong number of arguments.
    Arity,
    /// An argument, result or term of the wrong sort.
    SortMismatch,
    /// A product of two factors that aren't constant, or a divisor that isn't.
    NotLinear,
    /// A divisor that is 0.
    ZeroDivisor,
    /// A number past 63 bits.
    TooWide,
    /// An assertion that is no Horn clause.
    NotHorn,
    /// A limit on numbers of predicates, arguments, assertions, variables or atoms.
    Count,
    /// A script without `check-sat`.
    NoCheckSat,
    /// A form that isn't built yet.
    Unbuilt,
}

impl Kind {
    /// The number by which the kind is printed, from 1 to 19.
    pub fn number(self) -> u8
        ensures { result ≡ kind_number self }
    {
        match self {
            Kind::TooLong => 1,
            Kind::BadByte => 2,
            Kind::Unclosed => 3,
            Kind::Deep => 4,
            Kind::CommandForm => 5,
            Kind::Order => 6,
            Kind::Logic => 7,
            Kind::UnknownSort => 8,
            Kind::Redeclared => 9,
            Kind::UnknownSymbol => 10,
            Kind::Arity => 11,
            Kind::SortMismatch => 12,
            Kind::NotLinear => 13,
            Kind::ZeroDivisor => 14,
            Kind::TooWide => 15,
            Kind::NotHorn => 16,
            Kind::Count => 17,
            Kind::NoCheckSat => 18,
            Kind::Unbuilt => 19,
        }
    }

    /// The word by which the kind is printed.
    pub fn word(self) -> &'static [u8]
        ensures { result.now ≡ kind_word self }
    {
        match self {
            Kind::TooLong => b"TooLong",
            Kind::BadByte => b"BadByte",
            Kind::Unclosed => b"Unclosed",
            Kind::Deep => b"Deep",
            Kind::CommandForm => b"CommandForm",
            Kind::Order => b"Order",
            Kind::Logic => b"Logic",
            Kind::UnknownSort => b"UnknownSort",
            Kind::Redeclared => b"Redeclared",
            Kind::UnknownSymbol => b"UnknownSymbol",
            Kind::Arity => b"Arity",
            Kind::SortMismatch => b"SortMismatch",
            Kind::NotLinear => b"NotLinear",
            Kind::ZeroDivisor => b"ZeroDivisor",
            Kind::TooWide => b"TooWide",
            Kind::NotHorn => b"NotHorn",
            Kind::Count => b"Count",
            Kind::NoCheckSat => b"NoCheckSat",
            Kind::Unbuilt => b"Unbuilt",
        }
    }
}

/// The one refusal of a text that is no script: its kind, the offset of the place, counted in bytes
/// from 0, and the number of commands before the refused one.
#[derive(Clone, Copy, Debug, PartialEq, Eq)]
pub struct Refusal {
    pub kind: Kind,
    pub offset: u64,
    pub command: u32,
}

/// The legal commands of a text up to its refusal, or all of them.
#[derive(Drop)]
pub struct Checked {
    pub script: Script,
    pub stop: Option<Refusal>,
}
