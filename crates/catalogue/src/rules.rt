// The rules that a card has to keep.
ghost use Rattle.std.specs.Prelude.{◌≡◌, not, Some, [], ◌∷◌, length};
ghost use Rattle.logic.specs.FormNumbers.{form_number};
ghost use Rattle.logic.specs.Statements.{stands as stands_in};
ghost use Rattle.catalogue.specs.Refusals.{verdict_of, place_number, row};
ghost use Rattle.catalogue.specs.Rules.{kinds as kinds_of, admits as admits_number, rule_of, refusal_of, fault_verdict, statement_verdict, card_verdict, cards_verdict, room_verdict};

use super::refusals::{Place, Refusal, Rule};
use super::sizes::Size;
use logic::{Card, Form, Statement, UnknownForm};
use scale::Scale;

// What a number of a statement is.
#[derive(Clone, Copy)]
pub(crate) enum Kind {
    Term,
    Link,
    Unused,
}

impl Kind {
    // Whether a number is in range for its kind. It is a question of the subject's, so it answers a `bool`.
    fn admits(self, number: u16, size: Size) -> bool
        ensures { result ≡ admits_number size.n size.k self number }
    {
        match self {
            Kind::Term => usize::from(number) < size.n,
            Kind::Link => usize::from(number) < size.k,
            Kind::Unused => number == 0,
        }
    }

    // Tests that the number at a place is in range for its kind.
    pub(crate) fn check(self, number: u16, size: Size, place: Place) -> Result<(), Fault>
        ensures { fault_verdict result ≡ row 4 (place_number place ∷ []) (not (admits_number size.n size.k self number)) }
    {
        if self.admits(number, size) {
            Ok(())
        } else {
            Err(Fault::Number(place))
        }
    }
}

// What the three numbers of a form are.
fn kinds(form: Form) -> (Kind, Kind, Kind)
    ensures { Some result ≡ kinds_of (form_number form) }
{
    match form {
        Form::Is => (Kind::Term, Kind::Term, Kind::Unused),
        Form::Both => (Kind::Term, Kind::Term, Kind::Term),
        Form::Has => (Kind::Term, Kind::Link, Kind::Term),
        Form::From => (Kind::Link, Kind::Term, Kind::Term),
        Form::Under => (Kind::Link, Kind::Link, Kind::Unused),
        Form::Chain => (Kind::Link, Kind::Link, Kind::Link),
    }
}

// How a card breaks a rule, with the first place whose number is out of range. `Rule` has these cases without the
// place, since the refusal of a standing card names none.
#[derive(Clone, Copy)]
pub(crate) enum Fault {
    Form,
    Number(Place),
    Mark,
}

impl From<UnknownForm> for Fault {
    ghost use Rattle.catalogue.specs.declared.rules.Fault.TheVariants as fault;

    ghost from_gives = { λ _ f. f ≡ fault.Form };

    fn from(_error: UnknownForm) -> Fault {
        Fault::Form
    }
}

impl From<Fault> for Rule {
    ghost from_gives = { λ fault r. r ≡ rule_of fault };

    fn from(fault: Fault) -> Rule {
        match fault {
            Fault::Form => Rule::Form,
            Fault::Number(_) => Rule::Number,
            Fault::Mark => Rule::Mark,
        }
    }
}

impl From<Fault> for Refusal {
    ghost from_gives = { λ fault r. r ≡ refusal_of fault };

    fn from(fault: Fault) -> Refusal {
        match fault {
            Fault::Form => Refusal::UnknownForm,
            Fault::Number(place) => Refusal::OutOfRange(place),
            Fault::Mark => Refusal::LowestMark,
        }
    }
}

// Tests the form and the numbers of a statement.
pub(crate) fn check_statement(statement: Statement, size: Size) -> Result<(), Fault>
    ensures { fault_verdict result ≡ statement_verdict size.n size.k statement }
{
    let (first, second, third) = kinds(Form::try_from(statement.form)?);
    first.check(statement.first, size, Place::First)?;
    second.check(statement.second, size, Place::Second)?;
    third.check(statement.third, size, Place::Third)
}

// Tests the form, the numbers and the mark of a card.
pub(crate) fn check_card<S: Scale>(card: &Card<S>, size: Size) -> Result<(), Fault>
    ensures { fault_verdict result ≡ card_verdict S.Scale.order size.n size.k card.now }
{
    check_statement(card.statement, size)?;
    if card.mark.at_most(S::lowest()) {
        return Err(Fault::Mark);
    }
    Ok(())
}

// Tests the cards of a list; the first that breaks a rule is refused.
pub(crate) fn check_cards<S: Scale>(cards: &[Card<S>], size: Size) -> Result<(), Refusal>
    ensures { verdict_of result ≡ cards_verdict S.Scale.order size.n size.k 0 cards.now }
{
    for (place, card) in cards.iter().enumerate() {
        check_card(card, size).map_err(|fault| Refusal::BrokenCard(place, fault.into()))?;
    }
    Ok(())
}

// Whether one of the standing cards has the statement. It is a question of the subject's, so it answers a `bool`.
fn stands<S: Scale>(standing: &[Card<S>], statement: Statement) -> bool
    ensures { result ≡ stands_in statement standing.now }
{
    standing.iter().any(|card| statement == card.statement)
}

// Tests that no standing card has the statement, and that a table of so many places has room for one more.
pub(crate) fn check_room<S: Scale>(
    standing: &[Card<S>],
    capacity: usize,
    statement: Statement,
) -> Result<(), Refusal>
    ensures { verdict_of result ≡ room_verdict (length standing.now) capacity standing.now statement }
{
    if stands(standing, statement) {
        return Err(Refusal::AlreadyStands);
    }
    if standing.len() == capacity {
        return Err(Refusal::TableFull);
    }
    Ok(())
}
