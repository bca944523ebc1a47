// Decimal digits.
ghost use Rattle.std.specs.Prelude.{◌≡◌, ◌<◌, Some, ◌++◌, codes, decimal};
ghost use Rattle.scale.specs.Thousandths.{digit, IsDigitOf};

use std::error::Error;
use std::fmt;

/// A decimal digit.
#[derive(Clone, Copy, Debug, PartialEq, Eq, PartialOrd, Ord, Hash)]
pub enum Digit {
    Zero,
    One,
    Two,
    Three,
    Four,
    Five,
    Six,
    Seven,
    Eight,
    Nine,
}

/// The error of a conversion to a digit, with the number that was to be converted. A caller meets no other error of
/// that conversion, so it is a type of its own.
#[derive(Clone, Copy, Debug, PartialEq, Eq, Hash)]
pub struct NotADigit(pub u16);

impl TryFrom<u16> for Digit {
    type Error = NotADigit;

    ghost try_from_gives = { IsDigitOf };

    fn try_from(number: u16) -> Result<Digit, NotADigit> {
        match number {
            0 => Ok(Digit::Zero),
            1 => Ok(Digit::One),
            2 => Ok(Digit::Two),
            3 => Ok(Digit::Three),
            4 => Ok(Digit::Four),
            5 => Ok(Digit::Five),
            6 => Ok(Digit::Six),
            7 => Ok(Digit::Seven),
            8 => Ok(Digit::Eight),
            9 => Ok(Digit::Nine),
            _ => Err(NotADigit(number)),
        }
    }
}

impl From<Digit> for u16 {
    ghost from_gives = { λ d number. (number ≡ digit d) × (number < 10) };

    fn from(digit: Digit) -> u16 {
        digit as u16
    }
}

// This is by hand, since a derived text has no contract.
impl fmt::Display for NotADigit {
    ghost output = { λ error. Some (decimal error.0 ++ codes " is not a digit") };

    fn fmt<W: fmt::Write>(&self, f: &mut fmt::Formatter<W>) -> fmt::Result {
        write!(f, "{} is not a digit", self.0)
    }
}

impl Error for NotADigit {}
