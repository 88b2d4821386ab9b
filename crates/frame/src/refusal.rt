//! Why something is refused, and what the refusal says: its number, a place, three identities and a figure.
ghost use Rattle.std.specs.Prelude.{◌≡◌, [], ◌∷◌};

/// What is wrong with a record of a sheet or a map. The number is that of the refusal.
#[derive(Clone, Copy, Debug, PartialEq, Eq)]
pub enum Fault {
    BytesRunOut = 1,
    Length = 2,
    Kind = 3,
    Alignment = 4,
    Area = 5,
    TaskCount = 6,
    Identity = 7,
    Priority = 8,
    Threshold = 9,
    Need = 10,
    NameByte = 11,
    BarOfNoTask = 12,
    BarsNothing = 13,
    BarOrder = 14,
    BytesAfterEnd = 15,
    Place = 19,
    Total = 20,
    Chain = 21,
}

/// A refusal, a case for each thing that can be wrong, with what is said of it. Places and figures are wide enough for any slice.
#[derive(Clone, Copy, Debug, PartialEq, Eq)]
pub enum Refusal {
    /// The record that starts at `place` is at fault.
    Record { fault: Fault, place: usize },

    /// Task j may preempt k and i may preempt j, but i may not preempt k.
    NotTransitive { k: u16, j: u16, i: u16 },

    /// The sheet's area is smaller than the total.
    TotalAboveArea { total: usize },

    /// An output or a list is shorter than what goes into it.
    TooShort { needed: usize },

    /// The slice lent as the area is shorter than the total.
    AreaTooShort { total: usize },

    /// What is to be started is no task.
    NoSuchTask,

    /// The task to be started may not preempt the running one.
    NotAllowedNow,

    /// Something is to be written or finished, and no job runs.
    NothingRunning,

    /// The running job has another number.
    NotTheRunning,

    /// A write at or past the size of the running job's place.
    OffsetPastSize,

    /// The state isn't sound.
    NotSound,
}

impl Fault {
    ghost use Rattle.frame.specs.declared.refusal.Refusal.TheVariants as refusal;

    /// The refusal of the record that starts at `place`.
    pub fn at(self, place: usize) -> Refusal
        ensures { result ≡ refusal.Record self place }
    {
        Refusal::Record { fault: self, place }
    }
}

impl Refusal {
    ghost use Rattle.frame.specs.Values.{values_of};

    pub fn number(self) -> u16
        ensures { result ≡ (values_of self).number }
    {
        match self {
            Refusal::Record { fault, .. } => fault as u16,
            Refusal::NotTransitive { .. } => 16,
            Refusal::TotalAboveArea { .. } => 17,
            Refusal::TooShort { .. } => 18,
            Refusal::AreaTooShort { .. } => 30,
            Refusal::NoSuchTask => 31,
            Refusal::NotAllowedNow => 32,
            Refusal::NothingRunning => 33,
            Refusal::NotTheRunning => 34,
            Refusal::OffsetPastSize => 35,
            Refusal::NotSound => 36,
        }
    }

    // What a refusal doesn't speak of is 0 and not `None`: the rules have it so (`Refusals.plain`, `placed`).

    /// Where the record at fault starts; 0 where no record is.
    pub fn place(self) -> usize
        ensures { result ≡ (values_of self).place }
    {
        match self {
            Refusal::Record { place, .. } => place,
            _ => 0,
        }
    }

    /// The tasks that are named, zeros where none are.
    pub fn identities(self) -> [u16; 3]
        ensures { result ≡ (values_of self).id1 ∷ (values_of self).id2 ∷ (values_of self).id3 ∷ [] }
    {
        match self {
            Refusal::NotTransitive { k, j, i } => [k, j, i],
            _ => [0; 3],
        }
    }

    /// The total, or what is needed; 0 where neither is told.
    pub fn figure(self) -> usize
        ensures { result ≡ (values_of self).figure }
    {
        match self {
            Refusal::TotalAboveArea { total } | Refusal::AreaTooShort { total } => total,
            Refusal::TooShort { needed } => needed,
            _ => 0,
        }
    }
}
