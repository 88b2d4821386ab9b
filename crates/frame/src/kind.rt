//! The kinds of records, and the lengths that suit them.
ghost use Rattle.std.specs.Prelude.{◌≡◌, nat_le, ◌&&◌};

/// A kind of record, by its number.
#[derive(Clone, Copy, Debug, PartialEq, Eq)]
pub enum Kind {
    Head = 1,
    Task = 2,
    Bar = 3,
    End = 9,
    MapHead = 17,
    Place = 18,
    Link = 19,
}

impl Kind {
    ghost use Rattle.frame.specs.Framing.{kind_among, kind_value};

    pub fn number(self) -> u16
        ensures { result ≡ (kind_value self).kind }
    {
        self as u16
    }

    /// The first of some kinds that has a number.
    pub fn among(here: &[Kind], number: u16) -> Option<Kind>
        ensures { result ≡ kind_among here.now number }
    {
        for &kind in here {
            if number == kind.number() {
                return Some(kind);
            }
        }
        None
    }

    /// Whether a record of this kind may be so long.
    pub fn suits(self, length: u16) -> bool
        ensures { result ≡ (nat_le (kind_value self).shortest length && nat_le length (kind_value self).longest) }
    {
        match self {
            Kind::Head | Kind::MapHead => length == 12,
            Kind::Task => 15 <= length && length <= 30,
            Kind::Bar => length == 8,
            Kind::End => length == 4,
            Kind::Place => length == 14,
            Kind::Link => length == 6,
        }
    }
}
