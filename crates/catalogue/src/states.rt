// The two states of a catalogue, in the field's words an ontology (a TBox) of graded axioms. The tables are lent at
// each call. Neither state can be copied. They are two types, so that no program can ask a draft, or file a card in a
// classified catalogue.
ghost use Rattle.std.specs.Prelude.{◌≤◌};

use super::sizes::Size;

// What a catalogue keeps: the number of terms, the number of links, the length of the card table, and how many cards
// stand. The standing cards are that many first records of the card table, which is the caller's.
#[derive(Clone, Copy, Debug)]
pub(crate) struct Numbers {
    pub(crate) size: Size,
    pub(crate) capacity: usize,
    pub(crate) standing: usize,
    ghost limit: { capacity ≤ 4096 },
    ghost room: { standing ≤ capacity },
}

/// A draft: an ontology under construction. Cards may be filed.
#[derive(Debug, Drop)]
pub struct Draft {
    pub(crate) numbers: Numbers,
}

/// A classified catalogue: an ontology whose saturation the cell tables hold. Best marks may be asked.
#[derive(Debug, Drop)]
pub struct Classified {
    pub(crate) numbers: Numbers,
}
