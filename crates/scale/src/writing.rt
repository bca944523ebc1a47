// How marks are written.
ghost use Rattle.std.specs.Prelude.{◌≡◌, ℕ, ◌+◌, ◌<◌, ◌≤◌, List, length, MatchOption};
ghost use Rattle.std.specs.Option.{option_map};
ghost use Rattle.scale.specs.Forms.{Forms, Printed, Reads, RoundTrip};

use super::order::Scale;

/// A scale that can also print and read its marks. Each mark has just one written form, a word of 1 to 24 ASCII
/// letters, digits or slashes.
pub trait Written: Scale {
    // The greatest width of a written mark, in bytes. A clause names it by this ghost member, since it cannot name the
    // constant; the check proves the two equal.
    ghost WIDTH: { ℕ };

    const WIDTH: usize;

    // The written form of a mark.
    ghost bytes: { Self → List ℕ };

    /// The greatest width of a written mark, in bytes.
    fn max_width() -> usize
        ensures { result ≡ WIDTH }
    {
        Self::WIDTH
    }

    /// How many bytes the mark's form has.
    fn printed_len(self) -> usize
        ensures { result ≡ length (bytes self) };

    /// Writes the mark's form into `out` from the place `at` on, and answers the place after it; `None`, and `out` as
    /// it was, where the form does not fit. The buffer is the caller's, as nothing here allocates, and a `fmt::Write`
    /// would not say that it is unchanged then.
    fn print(self, out: &mut [u8], at: usize) -> Option<usize>
        ensures { Printed (bytes self) at out.old out.new result };

    /// The mark whose form the word is; `None` where it is no mark's form.
    fn read(word: &[u8]) -> Option<Self>
        ensures { Reads bytes word.now result };

    // Each implementation proves these too: forms are words, differ from mark to mark, and keep within the width.
    ghost forms: { Forms bytes WIDTH };
}

// The place after `len` bytes from the place `at` on, where a buffer of `size` bytes has room for them.
pub(crate) fn end_of(size: usize, at: usize, len: usize) -> Option<usize>
    ensures { MatchOption result (size < at + len) (λ end. (end ≡ at + len) × (end ≤ size)) }
{
    at.checked_add(len).filter(|&end| end <= size)
}

/// Writes `text` into `out` from the place `at` on, as `Written::print` does a mark's form.
pub fn put(text: &[u8], out: &mut [u8], at: usize) -> Option<usize>
    ensures { Printed text.now at out.old out.new result }
{
    let end = end_of(out.len(), at, text.len())?;
    out[at..end].copy_from_slice(text);
    Some(end)
}

/// Prints a mark, as `Written::print` does, and reads it back: the same mark, wherever its form fits.
pub fn read_back<S: Written>(mark: S, out: &mut [u8], at: usize) -> Option<S>
    ensures back { MatchOption result (length out.old < at + length (S.Written.bytes mark)) (λ m. m ≡ mark) }
    ensures printed { Printed (S.Written.bytes mark) at out.old out.new (option_map (λ _. at + length (S.Written.bytes mark)) result) }
    ensures always { RoundTrip S.Written.bytes }
    ensures forms { Forms S.Written.bytes S.Written.WIDTH }
{
    let end = mark.print(out, at)?;
    S::read(&out[at..end])
}
