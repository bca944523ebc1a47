// The scale of pairs of marks.
ghost use Rattle.std.specs.Prelude.{◌≡◌};
ghost use Rattle.scale.specs.Pairs.{pair_order, FirstDecides};
ghost use Rattle.scale.specs.Lexical.{pair_laws};

use super::order::Scale;

/// One mark of each of two scales. The first parts decide, and where they are equal the second parts do.
#[derive(Clone, Copy, Debug, PartialEq, Eq, PartialOrd, Ord, Hash)]
pub struct Pair<A, B> {
    pub first: A,
    pub second: B,
}

impl<A: Scale, B: Scale> Scale for Pair<A, B> {
    ghost order = { pair_order A.Scale.order B.Scale.order };

    ghost laws = { pair_laws A.Scale.laws B.Scale.laws };

    fn lowest() -> Pair<A, B> {
        Pair {
            first: A::lowest(),
            second: B::lowest(),
        }
    }

    fn highest() -> Pair<A, B> {
        Pair {
            first: A::highest(),
            second: B::highest(),
        }
    }

    // This compares by `at_most` and not by the derived order, since a part need only be a scale, and a scale need not
    // be `Ord`.
    fn at_most(self, other: Pair<A, B>) -> bool
        ensures value { result ≡ (pair_order A.Scale.order B.Scale.order).leq self other }
        ensures decided { FirstDecides A.Scale.order B.Scale.order self other result }
    {
        if !self.first.at_most(other.first) {
            return false;
        }
        if !other.first.at_most(self.first) {
            return true;
        }
        self.second.at_most(other.second)
    }
}
