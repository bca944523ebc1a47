// Refusals.
ghost use Rattle.std.specs.Prelude.{◌≡◌, ◌++◌, Some, codes, decimal};
ghost use Rattle.catalogue.specs.Refusals.{refused, number_in, place_number, rule_number};

use std::error::Error;
use std::fmt;

/// A place among the numbers of a statement or of a question, in the order of its line.
#[derive(Clone, Copy, Debug, PartialEq, Eq, Hash)]
pub enum Place {
    First = 1,
    Second,
    Third,
}

impl From<Place> for u8 {
    ghost from_gives = { λ place r. r ≡ place_number place };

    fn from(place: Place) -> u8 {
        place as u8
    }
}

/// A rule that a card breaks: its form is not 1 to 6, a number of it is out of range for its kind, or its mark is the
/// lowest. The rule's number is that of the refusal which the card alone would get.
#[derive(Clone, Copy, Debug, PartialEq, Eq, Hash)]
pub enum Rule {
    Form = 3,
    Number,
    Mark,
}

impl From<Rule> for u8 {
    ghost from_gives = { λ rule r. r ≡ rule_number rule };

    fn from(rule: Rule) -> u8 {
        rule as u8
    }
}

/// Why a call was refused.
#[derive(Clone, Copy, Debug, PartialEq, Eq, Hash)]
pub enum Refusal {
    /// 1: the number of terms, the number of links or the length of the card table is beyond its limits.
    Limits,
    /// 2: a table's length is not as these numbers say.
    TableLength,
    /// 3: the form is not 1 to 6.
    UnknownForm,
    /// 4, with the first such place: a number is out of range for its kind, or an unused third is not 0.
    OutOfRange(Place),
    /// 5: the mark is the lowest.
    LowestMark,
    /// 6: the statement stands already.
    AlreadyStands,
    /// 7: as many cards stand as the card table has places.
    TableFull,
    /// 9, with the card's place in the table, from 0, and the rule: the first standing card that breaks one.
    BrokenCard(usize, Rule),
}

impl Refusal {
    /// The refusal's number. It stays a method, for callers that have it.
    pub fn number(self) -> u8
        ensures { result ≡ number_in (refused self) }
    {
        match self {
            Refusal::Limits => 1,
            Refusal::TableLength => 2,
            Refusal::UnknownForm => 3,
            Refusal::OutOfRange(_) => 4,
            Refusal::LowestMark => 5,
            Refusal::AlreadyStands => 6,
            Refusal::TableFull => 7,
            Refusal::BrokenCard(_, _) => 9,
        }
    }
}

// This is by hand, since a derived text has no contract.
impl fmt::Display for Refusal {
    ghost output = { λ refusal. Some (codes "refused " ++ decimal (number_in (refused refusal))) };

    fn fmt<W: fmt::Write>(&self, f: &mut fmt::Formatter<W>) -> fmt::Result {
        write!(f, "refused {}", self.number())
    }
}

impl Error for Refusal {}
