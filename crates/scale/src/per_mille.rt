// The per-mille scale.
ghost use Rattle.std.specs.Prelude.{◌≡◌, ℕ, Some, ◌^◌, ◌<◌, length, decimal, Decides, MatchOption, ◌≢◌, slice_index};
ghost use Rattle.scale.specs.Thousandths.{thousandths, mille_order, mille_bytes, Whole};
ghost use Rattle.scale.specs.Marks.{mille_laws};
ghost use Rattle.scale.specs.Numerals.{mille_forms};

use super::digits::Digit;
use super::order::Scale;
use super::writing::{Written, put};
use itoa::Buffer;
use std::fmt;

/// A whole number from 0 to 1000: three digits, the hundreds first, or the thousand. The derived order, by the variants
/// and then by the digits, is the order of the numbers.
#[derive(Clone, Copy, Debug, PartialEq, Eq, PartialOrd, Ord, Hash)]
pub enum PerMille {
    Digits(Digit, Digit, Digit),
    Thousand,
}

impl PerMille {
    /// The mark of a number from 0 to 1000. With `value` it is a checked constructor and its accessor, which `TryFrom`
    /// and `From` would only say once more.
    #[tactic(auto, using(crate::specs::Marks::mille_whole))]
    pub fn new(number: u16) -> Option<PerMille>
        ensures mark { MatchOption result (1000 < number) (λ m. thousandths m ≡ number) }
        ensures whole { Whole }
    {
        if number == 1000 {
            return Some(PerMille::Thousand);
        }
        let hundreds = Digit::try_from(number / 100).ok()?;
        let tens = Digit::try_from(number / 10 % 10).ok()?;
        let ones = Digit::try_from(number % 10).ok()?;
        Some(PerMille::Digits(hundreds, tens, ones))
    }

    /// The number that the mark is.
    pub fn value(self) -> u16
        ensures { result ≡ thousandths self }
    {
        match self {
            PerMille::Digits(hundreds, tens, ones) => {
                100 * u16::from(hundreds) + 10 * u16::from(tens) + u16::from(ones)
            }
            PerMille::Thousand => 1000,
        }
    }
}

impl Scale for PerMille {
    ghost order = { mille_order };

    ghost laws = { mille_laws };

    fn lowest() -> PerMille {
        Self::Digits(Digit::Zero, Digit::Zero, Digit::Zero)
    }

    fn highest() -> PerMille {
        Self::Thousand
    }

    #[tactic(auto, using(crate::proofs::Orders::mille_le))]
    fn at_most(self, other: PerMille) -> bool {
        self <= other
    }
}

impl Written for PerMille {
    ghost WIDTH = { 4 };

    const WIDTH: usize = 4;

    ghost bytes = { mille_bytes };

    ghost forms = { mille_forms };

    fn printed_len(self) -> usize {
        Buffer::new().format(self.value()).len()
    }

    fn print(self, out: &mut [u8], at: usize) -> Option<usize> {
        put(Buffer::new().format(self.value()).as_bytes(), out, at)
    }

    #[tactic(auto, using(crate::proofs::Decimals::reads_mille))]
    fn read(word: &[u8]) -> Option<PerMille> {
        PerMille::new(read_decimal(word)?)
    }
}

// This is by hand, since a derived text has no contract.
impl fmt::Display for PerMille {
    ghost output = { λ mark. Some (mille_bytes mark) };

    fn fmt<W: fmt::Write>(&self, f: &mut fmt::Formatter<W>) -> fmt::Result {
        write!(f, "{}", self.value())
    }
}

// Whether a word begins as a decimal number in canonical form does: with a byte above `0` if it has more than one
// byte. `parse` takes leading zeros and a plus too.
fn has_canonical_start(word: &[u8]) -> bool
    ensures { Decides result (1 < length word.now → 48 < slice_index word.now 0) }
{
    word.len() <= 1 || word[0] > b'0'
}

// The number that a word writes in decimal without leading zeros.
#[tactic(auto, using(crate::proofs::Decimals::decimal_first, crate::proofs::Decimals::parse_decimal))]
fn read_decimal(word: &[u8]) -> Option<u16>
    ensures { MatchOption result ((n : ℕ) → n < 2 ^ 16 → word.now ≢ decimal n) (λ n. word.now ≡ decimal n) }
{
    if !has_canonical_start(word) {
        return None;
    }
    let text = std::str::from_utf8(word).ok()?;
    text.parse::<u16>().ok()
}
