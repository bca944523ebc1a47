// Routes of two steps.
ghost use Rattle.std.specs.Prelude.{◌≡◌};
ghost use Rattle.scale.specs.Forms.{Printed};
ghost use Rattle.tour.specs.Routes.{strength as strength_of, route_line};

use scale::{Scale, Written, lower, put};

// Two steps from surface to surface, each with a mark.
#[derive(Clone, Copy, Debug, PartialEq, Eq, Hash)]
pub struct Route<S> {
    pub first: S,
    pub second: S,
}

impl<S: Written> Route<S> {
    // The lower of the two marks.
    pub fn strength(self) -> S
        ensures { result ≡ strength_of S.Scale.order self }
    {
        lower(self.first, self.second)
    }

    // Writes the line that tells the route's strength at the start of `out`, and answers its length; `None`, and `out`
    // as it was, where the line does not fit. It is no `Display`: a bound `Display` says nothing of the bytes of a
    // mark, as `Written` does, so it would promise less.
    pub fn print(self, out: &mut [u8]) -> Option<usize>
        ensures { Printed (route_line S.Scale.order S.Written.bytes self) 0 out.old out.new result }
    {
        let strength = self.strength();
        let then = b" then ";
        let gives = b" gives ";
        let marks = self.first.printed_len() + self.second.printed_len() + strength.printed_len();
        if out.len() < marks + then.len() + gives.len() + 1 {
            return None;
        }
        let at = self.first.print(out, 0)?;
        let at = put(then, out, at)?;
        let at = self.second.print(out, at)?;
        let at = put(gives, out, at)?;
        let at = strength.print(out, at)?;
        put(b"\n", out, at)
    }
}
