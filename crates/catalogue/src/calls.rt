// The calls on a catalogue.
ghost use Rattle.std.specs.Prelude.{◌≡◌, not, [], length, take, IfOk};
ghost use Rattle.logic.specs.Axioms.{AllInRange};
ghost use Rattle.logic.specs.Records.{axioms};
ghost use Rattle.logic.specs.Statements.{StandsInWords};
ghost use Rattle.catalogue.specs.Refusals.{verdict_of, row};
ghost use Rattle.catalogue.specs.Rules.{KeptInWords, RuleInWords, BrokenInWords, SaidInWords};
ghost use Rattle.catalogue.specs.Calls.{numbers, of_numbers, of_draft, of_classified, within_limits, lengths_fit, classify_verdict, Built, Filed, Classifies, Asked};

use super::refusals::{Place, Refusal};
use super::rules::{Kind, check_card, check_cards, check_room};
use super::sizes::Size;
use super::states::{Classified, Draft, Numbers};
use super::tables::Tables;
use logic::{Card, NONE};
use scale::Scale;

impl Numbers {
    // n terms, k links and c places for cards, if they are within their limits; no card stands.
    fn new(n: usize, k: usize, c: usize) -> Result<Numbers, Refusal>
        ensures verdict { verdict_of result ≡ row 1 [] (not (within_limits n k c)) }
        ensures value { IfOk result (λ made. of_numbers made ≡ numbers n k c 0) }
    {
        if !((2..=256).contains(&n) && k <= 32 && c <= 4096) {
            return Err(Refusal::Limits);
        }
        Ok(Numbers {
            size: Size { n, k },
            capacity: c,
            standing: 0,
        })
    }

    // Tests that the three tables have the lengths that the numbers say. It asks nothing else of the tables, so it
    // takes their lengths.
    fn check_lengths(self, cards: usize, pairs: usize, links: usize) -> Result<(), Refusal>
        ensures { verdict_of result ≡ row 2 [] (not (lengths_fit self.size.n self.size.k self.capacity cards pairs links)) }
    {
        let Size { n, k } = self.size;
        if cards != self.capacity || pairs != n * n || links != k * n * n {
            return Err(Refusal::TableLength);
        }
        Ok(())
    }

    // The standing cards, if the tables have their lengths and each standing card keeps the rules.
    #[tactic(auto, using(crate::proofs::Keeping::cards_in_range))]
    fn checked_cards<'a, S: Scale>(
        self,
        cards: &'a [Card<S>],
        pairs: usize,
        links: usize,
    ) -> Result<&'a [Card<S>], Refusal>
        ensures verdict { verdict_of result ≡ classify_verdict S.Scale.order (of_numbers self) (length cards.now) pairs links (take self.standing cards.now) }
        ensures value { IfOk result (λ standing. standing.now ≡ take self.standing cards.now) }
        ensures ranges { IfOk result (λ standing. AllInRange self.size.n self.size.k (axioms standing.now)) }
    {
        self.check_lengths(cards.len(), pairs, links)?;
        let standing = &cards[..self.standing];
        check_cards(standing, self.size)?;
        Ok(standing)
    }
}

impl Draft {
    /// Makes a draft of n terms and k links in which no card stands. The tables are of c cards, n·n pair cells and
    /// k·n·n link cells; they are lent anew at each call, with the same lengths.
    pub fn build<S: Scale>(
        n: usize,
        k: usize,
        c: usize,
        cards: &[Card<S>],
        pairs: &[S],
        links: &[S],
    ) -> Result<Draft, Refusal>
        ensures { Built n k c (length cards.now) (length pairs.now) (length links.now) result }
    {
        let numbers = Numbers::new(n, k, c)?;
        numbers.check_lengths(cards.len(), pairs.len(), links.len())?;
        Ok(Draft { numbers })
    }

    /// Files a card: writes it after the standing ones.
    #[tactic(auto, using(crate::proofs::Keeping::kept_in_words, crate::proofs::Keeping::rule_in_words, logic::proofs::Standing::stands_in_words))]
    pub fn file<S: Scale>(&mut self, cards: &mut [Card<S>], card: Card<S>) -> Result<(), Refusal>
        ensures filed { Filed S.Scale.order (of_draft self.old) cards.old card result (of_draft self.new) cards.new }
        ensures kept { KeptInWords S.Scale.order }
        ensures rule { RuleInWords S.Scale.order }
        ensures stands { StandsInWords S }
    {
        let Numbers {
            size,
            capacity,
            standing,
        } = self.numbers;
        if cards.len() != capacity {
            return Err(Refusal::TableLength);
        }
        check_card(&card, size)?;
        check_room(&cards[..standing], capacity, card.statement)?;
        cards[standing] = card;
        self.numbers.standing = standing + 1;
        Ok(())
    }

    /// Fills both cell tables with the closure of the standing cards, and turns the draft into a classified catalogue.
    /// A refusal hands the draft back.
    #[tactic(auto, using(crate::proofs::Keeping::broken_in_words, crate::proofs::Keeping::said_in_words))]
    pub fn classify<S: Scale>(
        self,
        cards: &[Card<S>],
        pairs: &mut [S],
        links: &mut [S],
    ) -> Result<Classified, (Draft, Refusal)>
        ensures classified { Classifies S.Scale.order (of_draft self) cards.now pairs.old links.old result pairs.new links.new }
        ensures broken { BrokenInWords S.Scale.order }
        ensures said { SaidInWords S.Scale.order }
    {
        let numbers = self.numbers;
        let cards = numbers
            .checked_cards(cards, pairs.len(), links.len())
            .map_err(|refusal| (self, refusal))?;
        let mut tables = Tables {
            size: numbers.size,
            cards,
            pairs,
            links,
        };
        tables.saturate();
        Ok(Classified { numbers })
    }
}

impl Classified {
    /// Answers the best mark of the term a in the term b.
    pub fn ask<S: Scale>(&self, pairs: &[S], a: u16, b: u16) -> Result<S, Refusal>
        ensures { Asked S.Scale.order (of_classified self.now) pairs.now a b result }
    {
        let size = self.numbers.size;
        if pairs.len() != size.n * size.n {
            return Err(Refusal::TableLength);
        }
        Kind::Term.check(a, size, Place::First)?;
        Kind::Term.check(b, size, Place::Second)?;
        let (first, second) = (usize::from(a), usize::from(b));
        // The cast keeps the constant for a proof to read, as `usize::from` would not.
        let impossible = pairs[size.pair_place(first, NONE as usize)];
        if impossible.at_most(S::lowest()) {
            Ok(pairs[size.pair_place(first, second)])
        } else {
            Ok(S::highest())
        }
    }
}
