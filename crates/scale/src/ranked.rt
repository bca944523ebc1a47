// Ranked marks, as `strong/100`.
ghost use Rattle.std.specs.Prelude.{◌≡◌, ◌<◌, Some, length, take, MatchOption, slice_index};
ghost use Rattle.scale.specs.Words.{slash, NoSlash};
ghost use Rattle.scale.specs.Ranks.{ranked_bytes};
ghost use Rattle.scale.specs.Slashes.{ranked_forms};

use super::grades::Grade;
use super::pairs::Pair;
use super::per_mille::PerMille;
use super::writing::{Written, end_of, put};
use std::fmt;

/// A ranked mark: a grade, and a per-mille mark within it.
pub type Ranked = Pair<Grade, PerMille>;

impl Written for Pair<Grade, PerMille> {
    ghost WIDTH = { 12 };

    const WIDTH: usize = 12;

    ghost bytes = { ranked_bytes };

    ghost forms = { ranked_forms };

    #[tactic(auto, using(crate::specs::Grading::grade_forms, crate::specs::Numerals::mille_forms))]
    fn printed_len(self) -> usize {
        self.first.printed_len() + 1 + self.second.printed_len()
    }

    fn print(self, out: &mut [u8], at: usize) -> Option<usize> {
        // Room for the whole form comes first, so that `out` is unchanged where there is none.
        end_of(out.len(), at, self.printed_len())?;
        let cut = self.first.print(out, at)?;
        let rest = put(b"/", out, cut)?;
        self.second.print(out, rest)
    }

    fn read(word: &[u8]) -> Option<Ranked> {
        let cut = first_slash(word)?;
        let first = Grade::read(&word[..cut])?;
        let second = PerMille::read(&word[cut + 1..])?;
        Some(Pair { first, second })
    }
}

// This is by hand, since a derived text has no contract.
impl fmt::Display for Pair<Grade, PerMille> {
    ghost output = { λ mark. Some (ranked_bytes mark) };

    fn fmt<W: fmt::Write>(&self, f: &mut fmt::Formatter<W>) -> fmt::Result {
        write!(f, "{}/{}", self.first, self.second)
    }
}

// The place of the first slash.
fn first_slash(word: &[u8]) -> Option<usize>
    ensures { MatchOption result (NoSlash word.now) (λ i. NoSlash (take i word.now) × (i < length word.now) × (slice_index word.now i ≡ slash)) }
{
    word.iter().position(|&byte| byte == b'/')
}
