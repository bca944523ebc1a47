// What a scale is, and the lower of two marks.
ghost use Rattle.std.specs.Prelude.{◌≡◌};
ghost use Rattle.scale.specs.Order.{Chain, Laws, Lower, lower as lower_of};

/// A scale: a kind of mark with an order. The field's words are truth degree for a mark, and bounded chain of truth
/// degrees for a scale. Whatever shows the laws is a scale.
pub trait Scale: Copy {
    // What the order means: whether one mark is at most another, the lowest mark and the highest.
    ghost order: { Chain Self };

    fn lowest() -> Self
        ensures { result ≡ order.low };

    fn highest() -> Self
        ensures { result ≡ order.high };

    // There is no body here: a scale need not be `Ord`, so `self <= other` is for those to write that are.
    fn at_most(self, other: Self) -> bool
        ensures { result ≡ order.leq self other };

    // Each implementation proves these, and generic code may use them.
    ghost laws: { Laws order };
}

/// The lower of two marks: the least of them.
pub fn lower<S: Scale>(a: S, b: S) -> S
    ensures value { result ≡ lower_of S.Scale.order a b }
    ensures least { Lower S.Scale.order a b result }
{
    if a.at_most(b) { a } else { b }
}
