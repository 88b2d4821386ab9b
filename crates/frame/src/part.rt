//! A part of some bytes, by its bounds.

/// The bytes from `from` on, up to `to` and without it.
#[derive(Clone, Copy, Debug, Default, PartialEq, Eq)]
pub struct Part {
    pub from: usize,
    pub to: usize,
}
