//! Where lines are written before they go into an output: fixed memory, since a heap that runs out would be a refusal that no rule gives.
use arrayvec::ArrayVec;

/// As much as may be printed: 64 task lines of at most 45 bytes, a total line and a chain line of 64 numbers, or one line of a refusal.
pub const MOST: usize = 4096;

/// Bytes to be printed.
pub type Text = ArrayVec<u8, MOST>;
