//! Lists of fixed memory that can be copied.
#![tactic(auto)]

mod blank;
mod slots;

pub use blank::Blank;
pub use slots::Slots;
