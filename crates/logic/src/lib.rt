//! Cards, and what follows from them: derivations, the closure, best marks.
#![tactic(auto)]

mod cards;

pub use cards::{ANY, Card, Form, NONE, Statement, UnknownForm};
