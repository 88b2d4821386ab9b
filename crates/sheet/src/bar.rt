//! A bar of a sheet.

/// A pair of tasks that is barred: `upper` may not preempt `lower`. Bars are ordered by `lower`, then by `upper`.
#[derive(Clone, Copy, Debug, Default, PartialEq, Eq, PartialOrd, Ord)]
pub(crate) struct Bar {
    pub(crate) lower: u16,
    pub(crate) upper: u16,
}
