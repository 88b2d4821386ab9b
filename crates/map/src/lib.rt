//! Maps: read from bytes, written from bare values, and built from a sheet. By value, a map is a layout.
#![tactic(auto)]

mod building;
mod image;
mod reading;
mod rules;
mod writing;

pub use building::build;
pub use layout::{Layout, Place};
pub use reading::read;
pub use writing::{Bare, write};
