//! Scales of marks, and how marks are written.
#![tactic(auto)]

mod digits;
mod grades;
mod order;
mod pairs;
mod per_mille;
mod ranked;
mod writing;

pub use digits::{Digit, NotADigit};
pub use grades::Grade;
pub use order::{Scale, lower};
pub use pairs::Pair;
pub use per_mille::PerMille;
pub use ranked::Ranked;
pub use writing::{Written, put, read_back};
