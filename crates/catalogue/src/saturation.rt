// The saturation of the two tables: every rule is applied until none raises a cell. `ANY` and `NONE` are cast by `as`,
// since a proof then reads the constants themselves, and `usize::from` would give them new names.
ghost use Rattle.std.specs.Prelude.{◌≡◌, ◌<◌, false, [], ◌∷◌};
ghost use Rattle.logic.specs.Axioms.{InRange, AllInRange, is as is_axiom, both as both_axiom, has as has_axiom, from as from_axiom, under as under_axiom, chain as chain_axiom};
ghost use Rattle.logic.specs.Records.{says, axioms};
ghost use Rattle.logic.specs.Derivations.{Within, link};
ghost use Rattle.logic.specs.Tables.{Saturated};

use super::tables::{Cell, Tables, fill};
use logic::{ANY, Card, Form, NONE, Statement};
use scale::{Scale, lower};

// No type of a number alone says that it is below n or k of the tables, so each contract does; a struct of the tables
// and the numbers, as x, r and y, would be made anew at each turn of a loop, to say the same in its ghost field. Nor
// does a type say that a call leaves the tables the same two, or that it raised cells by no card, so three contracts
// each do. The loops go over terms and links by `for`: a `fold` was tried in place of one, and in its closure it stays
// open that the number is in range.
impl<S: Scale> Tables<'_, S> {
    ghost use Rattle.catalogue.specs.Climbing.{Stays, held, Raises, Turns, Applies, Started, ChainMet, AllAsked, WidenMet, SpreadMet, AllSpreadMet, Settled};

    // Gives every cell the lowest mark.
    fn clear(&mut self)
        ensures stays { Stays self.old self.new }
        ensures lowest { (c : _) → Within self.new.size.n self.new.size.k c → held S.Scale.order self.new c ≡ S.Scale.order.low }
    {
        fill(self.pairs, S::lowest());
        fill(self.links, S::lowest());
    }

    // The start marks: the highest where a term falls under itself or under `any`, else the lowest.
    fn start(&mut self)
        ensures stays { Stays self.old self.new }
        ensures started { Started S.Scale.order self.new }
    {
        self.clear();
        for x in 0..self.size.n {
            self.raise(Cell::Pair(x, x), S::highest());
            self.raise(Cell::Pair(x, ANY as usize), S::highest());
        }
    }

    // `is A B m` at x: x falls under B as far as it falls under A.
    fn apply_is(&mut self, a: usize, b: usize, mark: S, x: usize) -> bool
        requires term { x < self.old.size.n }
        requires inside { InRange self.old.size.n self.old.size.k (is_axiom a b mark) }
        ensures { Applies S.Scale.order (is_axiom a b mark ∷ []) x self.old self.new result }
    {
        self.carry(Cell::Pair(x, a), Cell::Pair(x, b), mark)
    }

    // `both A B C m` at x: x falls under C as far as it falls under A and B.
    fn apply_both(&mut self, a: usize, b: usize, c: usize, mark: S, x: usize) -> bool
        requires term { x < self.old.size.n }
        requires inside { InRange self.old.size.n self.old.size.k (both_axiom a b c mark) }
        ensures { Applies S.Scale.order (both_axiom a b c mark ∷ []) x self.old self.new result }
    {
        let first = self.look(Cell::Pair(x, a));
        let second = self.look(Cell::Pair(x, b));
        let known = lower(first, second);
        self.raise(Cell::Pair(x, c), lower(known, mark))
    }

    // `has A r B m` at x: x has an r to some B as far as it falls under A.
    fn apply_has(&mut self, a: usize, r: usize, b: usize, mark: S, x: usize) -> bool
        requires term { x < self.old.size.n }
        requires inside { InRange self.old.size.n self.old.size.k (has_axiom a r b mark) }
        ensures { Applies S.Scale.order (has_axiom a r b mark ∷ []) x self.old self.new result }
    {
        self.carry(Cell::Pair(x, a), Cell::Link(x, r, b), mark)
    }

    // `from r A B m` at x: x falls under B as far as it has an r to some A.
    fn apply_from(&mut self, r: usize, a: usize, b: usize, mark: S, x: usize) -> bool
        requires term { x < self.old.size.n }
        requires inside { InRange self.old.size.n self.old.size.k (from_axiom r a b mark) }
        ensures { Applies S.Scale.order (from_axiom r a b mark ∷ []) x self.old self.new result }
    {
        self.carry(Cell::Link(x, r, a), Cell::Pair(x, b), mark)
    }

    // `under r s m` at x: x has an s to whatever it has an r to.
    fn apply_under(&mut self, r: usize, s: usize, mark: S, x: usize) -> bool
        requires term { x < self.old.size.n }
        requires inside { InRange self.old.size.n self.old.size.k (under_axiom r s mark) }
        ensures { Applies S.Scale.order (under_axiom r s mark ∷ []) x self.old self.new result }
    {
        let mut rose = false;
        for y in 0..self.size.n {
            rose |= self.carry(Cell::Link(x, r, y), Cell::Link(x, s, y), mark);
        }
        rose
    }

    // `chain r q s m` at x, over y: x has an s to whatever y has a q to, as far as x has an r to y.
    fn chain_over(&mut self, r: usize, q: usize, s: usize, mark: S, x: usize, y: usize) -> bool
        requires terms { (x < self.old.size.n) × (y < self.old.size.n) }
        requires inside { InRange self.old.size.n self.old.size.k (chain_axiom r q s mark) }
        ensures { Turns S.Scale.order (chain_axiom r q s mark ∷ []) (ChainMet S.Scale.order x y r q s mark) self.old.size.n self.old self.new result }
    {
        if self.look(Cell::Link(x, r, y)).at_most(S::lowest()) {
            return false;
        }
        let mut rose = false;
        for z in 0..self.size.n {
            // An earlier turn may have raised this link too.
            let near = self.look(Cell::Link(x, r, y));
            let far = self.look(Cell::Link(y, q, z));
            let known = lower(near, far);
            rose |= self.raise(Cell::Link(x, s, z), lower(known, mark));
        }
        rose
    }

    // `chain r q s m` at x.
    fn apply_chain(&mut self, r: usize, q: usize, s: usize, mark: S, x: usize) -> bool
        requires term { x < self.old.size.n }
        requires inside { InRange self.old.size.n self.old.size.k (chain_axiom r q s mark) }
        ensures { Applies S.Scale.order (chain_axiom r q s mark ∷ []) x self.old self.new result }
    {
        let mut rose = false;
        for y in 0..self.size.n {
            rose |= self.chain_over(r, q, s, mark, x, y);
        }
        rose
    }

    // The rule of a card, at x. Each form's rule reads different cells and numbers, so each has an arm and no closure.
    fn apply_at(&mut self, card: &Card<S>, x: usize) -> bool
        requires ranges { AllInRange self.old.size.n self.old.size.k (says card.now) }
        requires term { x < self.old.size.n }
        ensures { Applies S.Scale.order (says card.now) x self.old self.new result }
    {
        let Statement {
            form,
            first,
            second,
            third,
        } = card.statement;
        let Ok(form) = Form::try_from(form) else {
            return false;
        };
        let (first, second, third) = (usize::from(first), usize::from(second), usize::from(third));
        let mark = card.mark;
        match form {
            Form::Is => self.apply_is(first, second, mark, x),
            Form::Both => self.apply_both(first, second, third, mark, x),
            Form::Has => self.apply_has(first, second, third, mark, x),
            Form::From => self.apply_from(first, second, third, mark, x),
            Form::Under => self.apply_under(first, second, mark, x),
            Form::Chain => self.apply_chain(first, second, third, mark, x),
        }
    }

    // The rule of a card, at every term.
    fn apply(&mut self, card: &Card<S>) -> bool
        requires ranges { AllInRange self.old.size.n self.old.size.k (says card.now) }
        ensures raises { Raises S.Scale.order (says card.now) self.old self.new result }
        ensures met { result ≡ false → AllAsked S.Scale.order (says card.now) self.new }
    {
        let mut rose = false;
        for x in 0..self.size.n {
            rose |= self.apply_at(card, x);
        }
        rose
    }

    // The rules of all cards, at every term.
    fn apply_all(&mut self) -> bool
        ensures raises { Raises S.Scale.order (axioms self.old.cards.now) self.old self.new result }
        ensures met { result ≡ false → AllAsked S.Scale.order (axioms self.old.cards.now) self.new }
    {
        let mut rose = false;
        let cards = self.cards;
        for card in cards {
            rose |= self.apply(card);
        }
        rose
    }

    // A link from x to y is one to z as far as y falls under z, unless z is `none`.
    fn widen_to(&mut self, x: usize, r: usize, y: usize, z: usize) -> bool
        requires link { Within self.old.size.n self.old.size.k (link x r y) }
        requires term { z < self.old.size.n }
        ensures raises { Raises S.Scale.order [] self.old self.new result }
        ensures met { result ≡ false → WidenMet S.Scale.order x r y self.new z }
    {
        if z == NONE as usize {
            return false;
        }
        let above = self.look(Cell::Pair(y, z));
        self.carry(Cell::Link(x, r, y), Cell::Link(x, r, z), above)
    }

    // A link from x to y is one to whatever y falls under, but for `none`.
    fn widen(&mut self, x: usize, r: usize, y: usize) -> bool
        requires { Within self.old.size.n self.old.size.k (link x r y) }
        ensures { Turns S.Scale.order [] (WidenMet S.Scale.order x r y) self.old.size.n self.old self.new result }
    {
        let mut rose = false;
        for z in 0..self.size.n {
            rose |= self.widen_to(x, r, y, z);
        }
        rose
    }

    // What the link cell of x, r and y gives, whatever the cards: x has an r to all that y falls under, and cannot
    // exist where y cannot.
    fn spread_at(&mut self, x: usize, r: usize, y: usize) -> bool
        requires { Within self.old.size.n self.old.size.k (link x r y) }
        ensures raises { Raises S.Scale.order [] self.old self.new result }
        ensures met { result ≡ false → SpreadMet S.Scale.order x r self.new y }
    {
        let link = Cell::Link(x, r, y);
        if self.look(link).at_most(S::lowest()) {
            return false;
        }
        let impossible = self.look(Cell::Pair(y, NONE as usize));
        let rose = self.carry(link, Cell::Pair(x, NONE as usize), impossible);
        let widened = self.widen(x, r, y);
        rose | widened
    }

    // What the links r from x give.
    fn spread_link(&mut self, x: usize, r: usize) -> bool
        requires { (x < self.old.size.n) × (r < self.old.size.k) }
        ensures { Turns S.Scale.order [] (SpreadMet S.Scale.order x r) self.old.size.n self.old self.new result }
    {
        let mut rose = false;
        for y in 0..self.size.n {
            rose |= self.spread_at(x, r, y);
        }
        rose
    }

    // What all links from x give.
    fn spread_term(&mut self, x: usize) -> bool
        requires { x < self.old.size.n }
        ensures raises { Raises S.Scale.order [] self.old self.new result }
        ensures met { result ≡ false → AllSpreadMet S.Scale.order self.new x }
    {
        let mut rose = false;
        for r in 0..self.size.k {
            rose |= self.spread_link(x, r);
        }
        rose
    }

    // What all links give.
    fn spread(&mut self) -> bool
        ensures { Turns S.Scale.order [] (AllSpreadMet S.Scale.order) self.old.size.n self.old self.new result }
    {
        let mut rose = false;
        for x in 0..self.size.n {
            rose |= self.spread_term(x);
        }
        rose
    }

    // Every rule once; answers whether a cell rose.
    fn sweep(&mut self) -> bool
        ensures raises { Raises S.Scale.order (axioms self.old.cards.now) self.old self.new result }
        ensures settled { result ≡ false → Settled S.Scale.order (axioms self.old.cards.now) self.new }
    {
        let applied = self.apply_all();
        let spread = self.spread();
        applied | spread
    }

    // Fills both cell tables with the closure of what the cards say. It ends, since each sweep but the last raises a
    // cell, and no mark but the lowest, the highest and the cards' own ever stands in one.
    pub(crate) fn saturate(&mut self)
        ensures stays { Stays self.old self.new }
        ensures saturated { Saturated S.Scale.order self.old.size.n self.old.size.k (axioms self.old.cards.now) (held S.Scale.order self.new) }
    {
        self.start();
        while self.sweep() {}
    }
}
