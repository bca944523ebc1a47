//! Cases of the scales and of their written forms, and a scale of one's own.
#![tactic(auto)]

mod switch;

pub use switch::Switch;

#[cfg(test)]
mod tests;
