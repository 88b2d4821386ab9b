//! A sheet by value: its tasks with their limits, and who may preempt whom.
#![tactic(auto)]

mod bar;
mod barring;
mod head;
mod index;
mod naming;
mod relation;
mod sheet;
mod task;
mod tasked;

pub use naming::{name, name_part};
pub use sheet::{Sheet, is_alignment};
pub use task::Task;
