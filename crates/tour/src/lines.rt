// The lines of cards and of answers.
ghost use Rattle.std.specs.Prelude.{Some};
ghost use Rattle.tour.specs.Lines.{card_line, answer_line};

use super::names::{link, term};
use logic::{Card, Form};
use scale::PerMille;
use std::fmt;

// A card as its line, as `is wet slick 700`.
#[derive(Clone, Copy, Debug)]
pub struct CardLine {
    pub card: Card<PerMille>,
}

// This is by hand, since a derived text has no contract.
impl fmt::Display for CardLine {
    ghost output = { λ line. Some (card_line line.card) };

    fn fmt<W: fmt::Write>(&self, f: &mut fmt::Formatter<W>) -> fmt::Result {
        let Card { statement, mark } = self.card;
        let (a, b, c) = (statement.first, statement.second, statement.third);
        match Form::try_from(statement.form) {
            Ok(Form::Is) => write!(f, "is {} {} {mark}", term(a), term(b)),
            Ok(Form::Both) => write!(f, "both {} {} {} {mark}", term(a), term(b), term(c)),
            Ok(Form::Has) => write!(f, "has {} {} {} {mark}", term(a), link(b), term(c)),
            Ok(Form::From) => write!(f, "from {} {} {} {mark}", link(a), term(b), term(c)),
            Ok(Form::Under) => write!(f, "under {} {} {mark}", link(a), link(b)),
            Ok(Form::Chain) => write!(f, "chain {} {} {} {mark}", link(a), link(b), link(c)),
            Err(_) => write!(f, "{mark}"),
        }
    }
}

// The answer to a question, as `wet risky 400`: the best mark of the first term in the second.
#[derive(Clone, Copy, Debug)]
pub struct Answer {
    pub first: u16,
    pub second: u16,
    pub mark: PerMille,
}

// This is by hand, since a derived text has no contract.
impl fmt::Display for Answer {
    ghost output = { λ answer. Some (answer_line answer.first answer.second answer.mark) };

    fn fmt<W: fmt::Write>(&self, f: &mut fmt::Formatter<W>) -> fmt::Result {
        let mark = self.mark;
        write!(f, "{} {} {mark}", term(self.first), term(self.second))
    }
}
