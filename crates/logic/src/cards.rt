// Card records.
ghost use Rattle.std.specs.Prelude.{◌≡◌, ◌++◌, Some, codes, decimal};
ghost use Rattle.logic.specs.Axioms.{is as is_axiom, both as both_axiom, has as has_axiom, from as from_axiom, under as under_axiom, chain as chain_axiom};
ghost use Rattle.logic.specs.Records.{card_of, card_with};
ghost use Rattle.logic.specs.FormNumbers.{form_number, IsFormOf};
ghost use Rattle.logic.specs.Statements.{statement_of, same as same_statement};

use std::error::Error;
use std::fmt;

/// The term `any` (top), under which every term falls.
pub const ANY: u16 = 0;

/// The term `none` (bottom): what falls under it cannot exist.
pub const NONE: u16 = 1;

/// The form of a card, in the field's words the normal form of an axiom; its number is the record's `form`.
#[derive(Clone, Copy, Debug, PartialEq, Eq, Hash)]
pub enum Form {
    Is = 1,
    Both,
    Has,
    From,
    Under,
    Chain,
}

/// The error of a conversion to a form, with the number that was to be converted. A caller meets no other error of that
/// conversion, so it is a type of its own.
#[derive(Clone, Copy, Debug, PartialEq, Eq, Hash)]
pub struct UnknownForm(pub u8);

// This is by hand, since a derived text has no contract.
impl fmt::Display for UnknownForm {
    ghost output = { λ error. Some (codes "no form has the number " ++ decimal error.0) };

    fn fmt<W: fmt::Write>(&self, f: &mut fmt::Formatter<W>) -> fmt::Result {
        write!(f, "no form has the number {}", self.0)
    }
}

impl Error for UnknownForm {}

impl TryFrom<u8> for Form {
    type Error = UnknownForm;

    ghost try_from_gives = { IsFormOf };

    fn try_from(number: u8) -> Result<Form, UnknownForm> {
        match number {
            1 => Ok(Form::Is),
            2 => Ok(Form::Both),
            3 => Ok(Form::Has),
            4 => Ok(Form::From),
            5 => Ok(Form::Under),
            6 => Ok(Form::Chain),
            _ => Err(UnknownForm(number)),
        }
    }
}

impl From<Form> for u8 {
    ghost from_gives = { λ form r. r ≡ form_number form };

    fn from(form: Form) -> u8 {
        form as u8
    }
}

/// A statement: what a card says but for its mark, in the field's words an axiom without its degree. It is the number
/// of a form, and three numbers of terms (concept names) and links (role names) in the order of the form's line, the
/// third 0 in the forms `is` and `under`. A table that is lent may hold any record, so all four are plain numbers.
/// An enum with a case for each form would have no third number to refuse where it is unused.
#[derive(Clone, Copy, Debug, PartialEq, Eq, Hash)]
pub struct Statement {
    pub form: u8,
    pub first: u16,
    pub second: u16,
    pub third: u16,
}

impl Statement {
    /// Whether two statements are the same: form and numbers are equal place by place. It stays beside `==`, for
    /// callers that have it.
    pub fn same(self, other: Statement) -> bool
        ensures { result ≡ same_statement self other }
    {
        self == other
    }
}

/// A card: a graded axiom in normal form, as a record of a card table. It is a statement, and a mark, which is the
/// axiom's degree.
#[derive(Clone, Copy, Debug, PartialEq, Eq, Hash)]
pub struct Card<M> {
    pub statement: Statement,
    pub mark: M,
}

impl<M> Card<M> {
    /// The card's statement. It stays beside the field, for callers that have it.
    pub fn statement(&self) -> Statement
        ensures { result ≡ statement_of self.now }
    {
        self.statement
    }

    // Here alone a form, three numbers and a mark are five parameters: they become the record.
    fn of(form: Form, first: u16, second: u16, third: u16, mark: M) -> Card<M>
        ensures { result ≡ card_with (form_number form) first second third mark }
    {
        let statement = Statement {
            form: form.into(),
            first,
            second,
            third,
        };
        Card { statement, mark }
    }

    /// `is A B m`: A falls under B.
    pub fn is(a: u16, b: u16, mark: M) -> Card<M>
        ensures { result ≡ card_of (is_axiom a b mark) }
    {
        Card::of(Form::Is, a, b, 0, mark)
    }

    /// `both A B C m`: what is A and B falls under C.
    pub fn both(a: u16, b: u16, c: u16, mark: M) -> Card<M>
        ensures { result ≡ card_of (both_axiom a b c mark) }
    {
        Card::of(Form::Both, a, b, c, mark)
    }

    /// `has A r B m`: an A has an r to some B.
    pub fn has(a: u16, r: u16, b: u16, mark: M) -> Card<M>
        ensures { result ≡ card_of (has_axiom a r b mark) }
    {
        Card::of(Form::Has, a, r, b, mark)
    }

    /// `from r A B m`: what has an r to some A falls under B.
    pub fn from(r: u16, a: u16, b: u16, mark: M) -> Card<M>
        ensures { result ≡ card_of (from_axiom r a b mark) }
    {
        Card::of(Form::From, r, a, b, mark)
    }

    /// `under r s m`: an r is an s.
    pub fn under(r: u16, s: u16, mark: M) -> Card<M>
        ensures { result ≡ card_of (under_axiom r s mark) }
    {
        Card::of(Form::Under, r, s, 0, mark)
    }

    /// `chain r q s m`: an r followed by a q is an s.
    pub fn chain(r: u16, q: u16, s: u16, mark: M) -> Card<M>
        ensures { result ≡ card_of (chain_axiom r q s mark) }
    {
        Card::of(Form::Chain, r, q, s, mark)
    }
}
