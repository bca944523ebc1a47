//! Catalogues of cards: built, filled, classified and asked.
#![tactic(auto)]

mod calls;
mod refusals;
mod rules;
mod saturation;
mod sizes;
mod states;
mod tables;

pub use refusals::{Place, Refusal, Rule};
pub use states::{Classified, Draft};
