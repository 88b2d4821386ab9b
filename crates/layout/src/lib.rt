//! The layout of a sheet by value.
#![tactic(auto)]

mod chain;
mod layout;
mod listing;
mod places;
mod relation;
mod transitive;

pub use layout::{LaidOut, Layout, Place};
pub use listing::lists;
