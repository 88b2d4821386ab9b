//! All lines of a layout.
ghost use Rattle.std.specs.Prelude.{◌≡◌};
ghost use Rattle.text.specs.Lines.{lines_here, IsPrintable};

use crate::buffer::Text;
use crate::chain_line::push_chain_line;
use crate::task_lines::push_task_lines;
use crate::total_line::push_total_line;
use layout::LaidOut;

/// The total, each task of the sheet that the bytes say with its place, and the chain.
#[tactic(auto, unfolding(crate::specs::Lines::lines_here))]
pub(crate) fn layout_lines(bytes: &[u8], laid: &LaidOut) -> Text
    requires { IsPrintable bytes.now laid.now }
    ensures { result.items ≡ lines_here bytes.now laid.now }
{
    let mut text = Text::new();
    push_total_line(&mut text, laid);
    push_task_lines(&mut text, bytes, &laid.sheet.tasks, &laid.layout.places);
    push_chain_line(&mut text, &laid.layout.chain);
    text
}
