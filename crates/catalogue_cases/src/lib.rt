//! Cases of the calls on a catalogue.
#![tactic(auto)]

#[cfg(test)]
mod tests;
