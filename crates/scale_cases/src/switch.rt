// A scale of one's own, with two marks.
ghost use Rattle.scale_cases.specs.Switches.{switch_order};
ghost use Rattle.std.proofs.Common.{rules};

use scale::Scale;

/// Off or on.
#[derive(Clone, Copy, Debug, PartialEq, Eq, PartialOrd, Ord, Hash)]
pub enum Switch {
    Off,
    On,
}

impl Scale for Switch {
    ghost order = { switch_order };

    ghost laws = { Prim.search rules };

    fn lowest() -> Switch {
        Switch::Off
    }

    fn highest() -> Switch {
        Switch::On
    }

    fn at_most(self, other: Switch) -> bool {
        self <= other
    }
}
