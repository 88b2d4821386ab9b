//! The line of a refusal.
ghost use Rattle.std.specs.Prelude.{◌≡◌};
ghost use Rattle.frame.specs.Values.{values_of};
ghost use Rattle.paper.specs.Printed.{refusal_line};

use crate::buffer::Text;
use crate::words::{push_bytes, push_number, push_word};
use frame::Refusal;

/// What a refusal says, as `refused 17 at 0 ids 0 0 0 figure 136`.
#[tactic(auto, using(crate::proofs::Digits::short), unfolding(paper::specs::Printed::refusal_line, paper::specs::Quoted::text))]
pub fn refusal_line(refusal: Refusal) -> Text
    ensures { result.items ≡ refusal_line (values_of refusal) }
{
    let [first, second, third] = refusal.identities();
    let mut text = Text::new();
    push_bytes(&mut text, b"refused");
    push_number(&mut text, u64::from(refusal.number()));
    push_word(&mut text, b"at");
    push_number(&mut text, refusal.place() as u64);
    push_word(&mut text, b"ids");
    push_number(&mut text, u64::from(first));
    push_number(&mut text, u64::from(second));
    push_number(&mut text, u64::from(third));
    push_word(&mut text, b"figure");
    push_number(&mut text, refusal.figure() as u64);
    text.push(b'\n');
    text
}
