//! What sheets and maps share: numbers in bytes, framed records, lent outputs, and why something is refused.
#![tactic(auto)]

mod bytes;
mod kind;
mod output;
mod part;
mod record;
mod refusal;

pub use bytes::{le16, le32};
pub use kind::Kind;
pub use output::put;
pub use part::Part;
pub use record::Record;
pub use refusal::{Fault, Refusal};
