//! What people read of a sheet or a map, as bytes: the lines of a layout or of a map, or the line of a refusal.
#![tactic(auto)]

mod buffer;
mod chain_line;
mod decimal;
mod layout_lines;
mod map_lines;
mod place_lines;
mod printing;
mod refusing;
mod showing;
mod task_lines;
mod total_line;
mod words;

pub use buffer::Text;
pub use printing::{print, text_of};
pub use refusing::refusal_line;
pub use showing::{map_text_of, show};
