//! What a slot holds that no item is in.
ghost use Rattle.std.specs.Prelude.{◌≡◌};

/// A type with a value for the slots that no item is in. It is one and the same, so that the items alone make the list.
pub trait Blank: Copy {
    ghost blank: { Self };

    fn blank() -> Self
        ensures { result ≡ blank };
}

impl Blank for u16 {
    ghost blank = { 0 };

    fn blank() -> u16 {
        u16::default()
    }
}
