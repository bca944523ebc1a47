// The tables of a catalogue, and their cells.
ghost use Rattle.std.specs.Prelude.{◌≡◌, ◌*◌, length, replicate};
ghost use Rattle.scale.specs.Order.{lower as lower_of};
ghost use Rattle.logic.specs.Axioms.{AllInRange};
ghost use Rattle.logic.specs.Records.{axioms};
ghost use Rattle.logic.specs.Derivations.{Within};
ghost use Rattle.logic.proofs.Ranges.{InRange-prop};

use super::sizes::Size;
use logic::Card;
use scale::{Scale, lower};

// Which cell: of the pair of two terms, or of the link r from a term to another.
#[derive(Clone, Copy)]
pub(crate) enum Cell {
    Pair(usize, usize),
    Link(usize, usize, usize),
}

// The standing cards of a catalogue and its two cell tables, as they are lent to a call. The numbers of the cards are
// in range, and every cell has its place in a table.
#[derive(Drop)]
pub(crate) struct Tables<'a, S> {
    pub(crate) size: Size,
    pub(crate) cards: &'a [Card<S>],
    pub(crate) pairs: &'a mut [S],
    pub(crate) links: &'a mut [S],
    ghost ranges: { AllInRange size.n size.k (axioms cards.now) } by { Prim.hlevel InRange-prop },
    ghost pairs_fit: { length pairs.now ≡ size.n * size.n },
    ghost links_fit: { length links.now ≡ size.k * size.n * size.n },
}

// That a cell is one of these tables' is asked by each method: a cell alone does not know their size.
impl<S: Scale> Tables<'_, S> {
    ghost use Rattle.catalogue.specs.Climbing.{named, held, Raised};

    // What a cell holds.
    pub(crate) fn look(&self, cell: Cell) -> S
        requires { Within self.now.size.n self.now.size.k (named cell) }
        ensures { result ≡ held S.Scale.order self.now (named cell) }
    {
        match cell {
            Cell::Pair(x, y) => self.pairs[self.size.pair_place(x, y)],
            Cell::Link(x, r, y) => self.links[self.size.link_place(x, r, y)],
        }
    }

    // Raises a cell to a mark, unless it holds as much; answers whether it rose.
    pub(crate) fn raise(&mut self, cell: Cell, mark: S) -> bool
        requires { Within self.old.size.n self.old.size.k (named cell) }
        ensures { Raised S.Scale.order self.old (named cell) mark self.new result }
    {
        if mark.at_most(self.look(cell)) {
            return false;
        }
        match cell {
            Cell::Pair(x, y) => self.pairs[self.size.pair_place(x, y)] = mark,
            Cell::Link(x, r, y) => self.links[self.size.link_place(x, r, y)] = mark,
        }
        true
    }

    // Raises a cell to the lower of what another holds and a mark; answers whether it rose.
    pub(crate) fn carry(&mut self, from: Cell, to: Cell, mark: S) -> bool
        requires from { Within self.old.size.n self.old.size.k (named from) }
        requires to { Within self.old.size.n self.old.size.k (named to) }
        ensures { Raised S.Scale.order self.old (named to) (lower_of S.Scale.order (held S.Scale.order self.old (named from)) mark) self.new result }
    {
        let known = self.look(from);
        self.raise(to, lower(known, mark))
    }
}

// Gives every cell one mark. The library's `fill` asks for a clone that cannot fail, which `Scale` does not promise.
pub(crate) fn fill<S: Scale>(cells: &mut [S], mark: S)
    ensures { cells.new ≡ replicate (length cells.old) mark }
{
    cells.fill_with(|| mark);
}
